// A command's two bytes read; internal.
#![tactic(auto)]

ghost use Rattle.std.specs.Prelude.{◌≡◌};
ghost use Rattle.refusals.specs.Numbers.{outcome_of};
ghost use Rattle.command.specs.Pair.{command_outcome};

use meaning::Meaning;
use refusals::Refusal;

mod others;

// internal: the command of a pair whose first byte's low bits are not 00, or 27 or 28.
pub fn read_command(first: u8, second: u8) -> Result<Meaning, Refusal>
    ensures { outcome_of result ≡ command_outcome first second }
{
    if first == 1 {
        commandtable::read_second(second)
    } else {
        others::read_other(first, second)
    }
}
