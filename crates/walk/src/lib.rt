// The walk over an accepted voice that lists its events: no event is played for its sound, none is kept.
#![tactic(auto)]

ghost use Rattle.std.specs.Prelude.{◌≡◌};
ghost use Rattle.bodies.specs.Voice.{pairs};
ghost use Rattle.bodies.specs.Playing.{played};
ghost use Rattle.cells.specs.Window.{filled};
ghost use Rattle.walk.specs.Times.{offsets_of, jiffies_of};
ghost use Rattle.walk.specs.Bounds.{Listable};

use cells::Cursor;
use moves::{Frames, noted};
use turn::Clock;

mod turn;

// internal: fills the first count cells of both lists with the file offsets and jiffies of a voice's events
// from number first on. The voice is one that acceptance let pass; base is the file offset of its first pair,
// walked its pairs walked. One step a pair walked, and none after the last event asked for. It stays a call of its
// own: made part of its callers, the loop took up to a half more time in some of them (docs/LOOK-BACK.md).
#[inline(never)]
pub fn list_voice(
    voice: &[u8],
    base: usize,
    first: u64,
    count: usize,
    walked: u32,
    offsets: &mut [u32],
    jiffies: &mut [u32],
)
    requires { Listable voice.now base first count walked offsets.old jiffies.old }
    ensures { (offsets.new ≡ filled first count (offsets_of base (played (pairs voice.now))) offsets.old) × (jiffies.new ≡ filled first count (jiffies_of (played (pairs voice.now))) jiffies.old) }
{
    let mut frames = Frames::new();
    let mut starts = [0u16; 24];
    let mut at = 0;
    let mut now = Clock {
        time: 0,
        values: clock::at_start(),
    };
    let mut cursor = Cursor {
        skip: first,
        filled: 0,
    };
    // It counts no index: that fewer pairs are left at each turn shows that the walk ends.
    let mut left = walked;
    while cursor.filled < count {
        left -= 1;
        match moves::next_at(voice, at) {
            None => {
                let event = turn::turn_at(voice, base, at, now);
                cursor = cells::put(cursor, event.offset, event.jiffy, offsets, jiffies);
                now = event.after;
                at += 1;
            }
            Some(m) => {
                let body = noted::body_of(m, at, &mut starts);
                at = moves::go_on(m, at, body, &mut frames);
            }
        }
    }
}
