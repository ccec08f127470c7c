// How long a voice of a MUS file lasts: the exact time of its HLT in 384ths of a jiffy, found without playing
// repeats or calls out. The call answers for every file and every number; it has no requires.
#![tactic(auto)]

ghost use Rattle.std.specs.Prelude.{◌≡◌};
ghost use Rattle.refusals.specs.Numbers.{outcome_of};
ghost use Rattle.events.specs.Listing.{played_in};
ghost use Rattle.mus.specs.Bounds.{InSong};
ghost use Rattle.voicelength.specs.Length.{end_of, length_asked};

use mus::Voice;
use refusals::Refusal;

mod reading;

// The time of HLT of a voice of an accepted file.
fn end_of(file: &[u8], v: Voice) -> u64
    requires { InSong file.now v }
    ensures { result ≡ end_of (played_in file.now v) }
{
    let from = v.offset;
    let len = v.length;
    reading::map_of(fields::part(file, from, len)).length(clock::at_start())
}

// How long voice 1, 2 or 3 of a MUS file lasts. Refused with 41 for any other voice, else with the file's own
// refusal.
pub fn length(file: &[u8], voice: u32) -> Result<u64, Refusal>
    ensures { outcome_of result ≡ length_asked file.now voice }
{
    let v = mus::read_voice(file, voice)?;
    Ok(end_of(file, v))
}
