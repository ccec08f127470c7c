// The number of a half-step: the half-step + 1, or 43. Internal.
ghost use Rattle.std.specs.Prelude.{◌≡◌};
ghost use Rattle.refusals.specs.Numbers.{outcome_of};
ghost use Rattle.paircalls.specs.HalfSteps.{step_number, step_of_tone, step_of_bytes};

use meaning::{Bytes, Tone};
use refusals::{Reason, Refusal};

// A half-step from -1 on, as a number from 0.
fn step_number(v: i32) -> u64
    ensures { result ≡ step_number v }
{
    let parts = signed::parts_of(v);
    if parts.negative {
        0
    } else {
        parts.size as u64 + 1
    }
}

// The number of a tone's half-step; a rest has none.
fn tone_step(tone: Tone) -> Result<u64, Refusal>
    ensures { outcome_of result ≡ step_of_tone tone }
{
    match tone {
        Tone::Rest => Err(Reason::NoPair.into()),
        Tone::Sounds(pitch) => Ok(step_number(meaning::half_step(pitch)?)),
    }
}

// internal: the number of the half-step of a pair's note; a command has none.
pub fn pair_step(bytes: Bytes) -> Result<u64, Refusal>
    ensures { outcome_of result ≡ step_of_bytes bytes }
{
    if bytes.first % 4 == 0 {
        tone_step(note::read_note(bytes.first, bytes.second).tone)
    } else {
        Err(Reason::NoPair.into())
    }
}
