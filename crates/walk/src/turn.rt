// An event in its turn: where it stands, when it sounds, and what the clock says after it.
ghost use Rattle.std.specs.Prelude.{◌≡◌};
ghost use Rattle.bodies.specs.Voice.{pair_at};
ghost use Rattle.walk.specs.Turns.{Timed, turn_of};

use clock::Values;

// The exact time of the next event in 384ths of a jiffy, and what TEM, UTL and UTV have set.
#[derive(Clone, Copy)]
pub struct Clock {
    pub time: u64,
    pub values: Values,
}

// An event's file offset and jiffy, and the clock after it.
#[derive(Clone, Copy)]
pub struct Turn {
    pub offset: u32,
    pub jiffy: u32,
    pub after: Clock,
}

// internal: the turn of pair number at, an event, in a voice whose first pair stands at base in the file.
pub fn turn_at(voice: &[u8], base: usize, at: usize, before: Clock) -> Turn
    requires { Timed voice.now base at before }
    ensures { result ≡ turn_of base at before (pair_at voice.now at) }
{
    let pair = bodies::bytes_at(voice, at);
    let length = clock::length(before.values, pair.first, pair.second);
    Turn {
        offset: (base + 2 * at) as u32,
        jiffy: (before.time / 384) as u32,
        after: Clock {
            time: before.time + length as u64,
            values: clock::values_after(before.values, pair.first, pair.second),
        },
    }
}
