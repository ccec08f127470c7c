// The second byte of a pair whose first byte is 01, read by a table of 256 meanings.
#![tactic(auto)]

ghost use Rattle.std.specs.Prelude.{◌≡◌};
ghost use Rattle.refusals.specs.Numbers.{outcome_of};
ghost use Rattle.commandtable.specs.Codes.{second_outcome};

use crate::seconds::MEANINGS;
use meaning::Meaning;
use refusals::{Reason, Refusal};

mod seconds;

// internal: the command of 01 and a second byte, or 27.
pub fn read_second(second: u8) -> Result<Meaning, Refusal>
    ensures { outcome_of result ≡ second_outcome second }
{
    MEANINGS[second as usize].ok_or(Reason::UnassignedPair.into())
}
