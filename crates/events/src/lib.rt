// The events of a MUS voice in played order, with the file offset and the jiffy of each, as many as two lent
// lists hold.
#![tactic(auto)]

ghost use Rattle.std.specs.Prelude.{◌≡◌, ◌-◌, min, length};
ghost use Rattle.refusals.specs.Numbers.{outcome_of};
ghost use Rattle.refusals.specs.Numbers.Outcome.{accepted};
ghost use Rattle.mus.specs.Bounds.{InSong};
ghost use Rattle.events.specs.Listing.{window_in, listing};

use mus::Voice;
use refusals::{Reason, Refusal};

// How many of the events from number first on fit into so many cells.
fn count_of(events: u32, first: u64, cells: usize) -> usize
    ensures { result ≡ min cells (events - first) }
{
    let after = u64::from(events).saturating_sub(first);
    after.min(cells as u64) as usize
}

// Fills the lists, which are of one length, from a voice of an accepted file.
fn list_part(file: &[u8], v: Voice, first: u64, offsets: &mut [u32], jiffies: &mut [u32]) -> usize
    requires { (InSong file.now v) × (length offsets.old ≡ length jiffies.old) }
    ensures { record { answer = accepted result; offsets = offsets.new; jiffies = jiffies.new } ≡ window_in file.now v first offsets.old jiffies.old }
{
    let from = v.offset;
    let len = v.length;
    let count = count_of(v.events, first, offsets.len());
    walk::list_voice(
        fields::part(file, from, len),
        from,
        first,
        count,
        v.walked,
        offsets,
        jiffies,
    );
    count
}

// Lists the events of voice 1, 2 or 3 of a MUS file from event number first on, which counts from 0: cell i
// of the first list takes the file offset, cell i of the second the jiffy of event first + i. Answers how
// many, as many as there are and as the lists hold. Refused with 41 for any other voice, 42 for lists of
// unequal length, or the file's own refusal; no cell but those that are filled changes.
pub fn list(
    file: &[u8],
    voice: u32,
    first: u64,
    offsets: &mut [u32],
    jiffies: &mut [u32],
) -> Result<usize, Refusal>
    ensures { record { answer = outcome_of result; offsets = offsets.new; jiffies = jiffies.new } ≡ listing file.now voice first offsets.old jiffies.old }
{
    if (voice < 1) | (3 < voice) {
        return Err(Reason::VoiceNumber.into());
    }
    if offsets.len() != jiffies.len() {
        return Err(Reason::ListLengths.into());
    }
    let v = mus::read_voice(file, voice)?;
    Ok(list_part(file, v, first, offsets, jiffies))
}
