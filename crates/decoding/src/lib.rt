// The meaning of a code: docs/INTERFACE.md fixes it. The call answers for every number.
#![tactic(auto)]

ghost use Rattle.std.specs.Prelude.{◌≡◌};
ghost use Rattle.refusals.specs.Numbers.{outcome_of};
ghost use Rattle.decoding.specs.Decoding.{decoded};

use meaning::Meaning;
use refusals::{Reason, Refusal};

mod commands;
mod notes;

// internal: the meaning that a number codes, or 43.
// It may be a meaning that no pair has, as P-W 65,535 for 2020FFFF; pair::write then refuses that meaning.
#[tactic(auto, unfolding(crate::specs::Decoding::decoded))]
pub fn meaning_of(code: u32) -> Result<Meaning, Refusal>
    ensures { outcome_of result ≡ decoded code }
{
    if code / 0x10000000 == 1 {
        return notes::note_at(code);
    }
    let id = code / 0x100000;
    let sign = code / 0x10000 % 0x10;
    let v = (code % 0x10000) as u16;
    match sign {
        0 => commands::unsigned_at(id, v),
        1 => {
            if v == 0 {
                return Err(Reason::NoPair.into());
            }
            commands::negative_at(id, v)
        }
        _ => Err(Reason::NoPair.into()),
    }
}
