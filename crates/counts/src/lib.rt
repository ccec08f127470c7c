// Depth, events and pairs walked of a voice: one pass over its stored pairs, nothing played.
#![tactic(auto)]

ghost use Rattle.std.specs.Prelude.{◌≡◌, ◌≤◌, length};
ghost use Rattle.bodies.specs.Voice.{pairs};
ghost use Rattle.bodies.specs.Order.{Sound};
ghost use Rattle.counts.specs.Limits.{count_outcome};
ghost use Rattle.counts.specs.Measures.{Measurable, MeasureHolds};

use bodies::Part;
use refusals::Reason;
use tally::Counts;

// The counts of a body, and the number of the pair that closes it.
#[derive(Clone, Copy)]
struct Extent {
    counts: Counts,
    at: usize,
}

// The counts of the body from a pair on, or None where it is deeper than is allowed. The cells hold the
// counts of each phrase closed before it, and then also of those closed in it. Repeats and calls may be in
// progress allowance deep.
fn measure(voice: &[u8], cells: &mut [u64; 24], allowance: u32, from: usize) -> Option<Extent>
    requires { Measurable voice.now cells.old allowance from }
    ensures { MeasureHolds voice.now cells.old allowance from cells.new result }
{
    let n = voice.len() / 2;
    let mut sum = tally::nothing();
    let mut at = from;
    // No `for`: after a body inside, the loop goes on where that body ends.
    while at < n {
        match bodies::part_at(voice, at) {
            Part::Plain => {
                sum = tally::with_event(sum);
                at += 1;
            }
            Part::Repeat(times) => {
                if allowance == 0 {
                    return None;
                }
                let m = measure(voice, cells, allowance - 1, at + 1)?;
                sum = tally::with_repeat(sum, times, m.counts);
                at = m.at + 1;
            }
            Part::Phrase(k) => {
                let m = measure(voice, cells, allowance, at + 1)?;
                cells[k as usize] = tally::packed_counts(m.counts);
                sum = tally::with_phrase(sum, m.counts);
                at = m.at + 1;
            }
            Part::Call(k) => {
                let c = tally::unpacked_counts(cells[k as usize]);
                if allowance <= c.depth {
                    return None;
                }
                sum = tally::with_call(sum, c);
                at += 1;
            }
            Part::Close => return Some(Extent {
                counts: tally::settled(sum),
                at,
            }),
        }
    }
    Some(Extent {
        counts: tally::settled(sum),
        at: n,
    })
}

// The counts of a voice: its events and pairs walked.
#[derive(Clone, Copy, Debug, PartialEq, Eq)]
pub struct Walk {
    pub events: u32,
    pub walked: u32,
}

// internal: 32, then 33, of a voice that 27 to 31 do not refuse; else how many events and pairs walked it
// has.
pub fn count_voice(voice: &[u8]) -> Result<Walk, Reason>
    requires { (length voice.now ≤ 65536) × Sound (pairs voice.now) }
    ensures { result ≡ count_outcome (pairs voice.now) }
{
    let mut cells = [0u64; 24];
    let Some(m) = measure(voice, &mut cells, 16, 0) else {
        return Err(Reason::TooDeep);
    };
    let c = m.counts;
    if c.walked <= 1048576 {
        Ok(Walk {
            events: c.events,
            walked: c.walked,
        })
    } else {
        Err(Reason::TooLong)
    }
}
