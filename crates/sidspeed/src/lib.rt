// The speed of a song of a PSID or RSID file. The call answers for every file and number; it has no requires.
#![tactic(auto)]

ghost use Rattle.std.specs.Prelude.{◌≡◌};
ghost use Rattle.refusals.specs.Numbers.{outcome_of};
ghost use Rattle.sidspeed.specs.Speed.{speed_outcome};

use refusals::Refusal;

#[tactic(auto, using(crate::proofs::Outcomes::song_refused, crate::proofs::Outcomes::song_asked))]
// The speed bit of a song, counted from 1. A caller who has the file's header asks sid::song_speed.
pub fn speed_of_song(file: &[u8], song: u64) -> Result<u32, Refusal>
    ensures { outcome_of result ≡ speed_outcome file.now song }
{
    let header = sid::test(file)?.fields;
    sid::speed::speed_of(header.songs, header.speed, song)
}
