// A voice's stored pairs in one pass, one turn each; each body as the map of its length.
ghost use Rattle.std.specs.Prelude.{◌≡◌};
ghost use Rattle.bodies.specs.Voice.{pairs};
ghost use Rattle.timemap.specs.Small.{Small};
ghost use Rattle.voicelength.specs.Lasting.{map_of};
ghost use Rattle.voicelength.specs.Readable.{Readable};

use arrayvec::ArrayVec;
use moves::Move;
use timemap::TimeMap;

// A body that waits for the one inside it: its map up to the HED or DEF there, and that one's number.
#[derive(Clone, Copy, Default)]
struct Open {
    before: TimeMap,
    number: u16,
}

// internal: the map of a voice that acceptance let pass; its numbers are small enough to be summed. A TAL
// makes n passes of the body that it closes, an END keeps the body's map, and a CAL uses it. One turn a
// stored pair, whose two bytes are fetched once.
pub fn map_of(voice: &[u8]) -> TimeMap
    requires { Readable voice.now }
    ensures { (result ≡ map_of (pairs voice.now)) × Small result }
{
    let mut around = ArrayVec::<Open, 17>::new();
    let mut phrases = [TimeMap::still(); 24];
    let mut now = TimeMap::still();
    for at in 0..voice.len() / 2 {
        let pair = bodies::bytes_at(voice, at);
        match moves::move_of(pair) {
            None => now = pairmap::with_pair(now, pair.first, pair.second),
            // HED and DEF open alike: two arms, since in one for both the proof gets no name for the number
            Some(Move::Repeat(number)) => {
                around.push(Open {
                    before: now,
                    number,
                });
                now = TimeMap::still();
            }
            Some(Move::Phrase(number)) => {
                around.push(Open {
                    before: now,
                    number,
                });
                now = TimeMap::still();
            }
            Some(Move::Call(k)) => now = now.joined(phrases[usize::from(k)]),
            Some(Move::Tal) => {
                let open = around.pop().unwrap();
                now = open.before.joined(now.passes(u64::from(open.number)));
            }
            Some(Move::End) => {
                let open = around.pop().unwrap();
                let both = open.before.joined(now);
                phrases[usize::from(open.number)] = now;
                now = both;
            }
        }
    }
    now
}
