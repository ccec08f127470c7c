// The calls of pairs for C and Rust, with answers as docs/INTERFACE.md fixes them.
// Each answers for every number; none has a requires.
#![tactic(auto)]

ghost use Rattle.std.specs.Prelude.{◌≡◌};
ghost use Rattle.refusals.specs.Numbers.{outcome_of};
ghost use Rattle.pair.specs.Pairs.{meaning_of};
ghost use Rattle.codes.specs.Coding.{code_of};
ghost use Rattle.answers.specs.Answers.{packed};
ghost use Rattle.paircalls.specs.Written.{bytes_number, written};
ghost use Rattle.paircalls.specs.HalfSteps.{half_step_outcome};

use meaning::Bytes;
use refusals::Refusal;

mod steps;

// internal: the body of tt_pair_read.
pub fn read(first: u8, second: u8) -> u64
    ensures { result ≡ packed code_of (meaning_of first second) }
{
    // As pair::read does, but each goes to its own code here: a note and a command are not first packed into
    // one value.
    if first % 4 == 0 {
        return codes::notes::note_code(note::read_note(first, second));
    }
    match command::read_command(first, second) {
        Ok(meaning) => codes::code_of(meaning),
        Err(x) => answers::refused(x.reason.number(), x.place),
    }
}

// The bytes of a code's pair, or 43.
#[tactic(auto, unfolding(crate::specs::Written::written))]
fn written(code: u32) -> Result<Bytes, Refusal>
    ensures { outcome_of result ≡ written code }
{
    pair::write(decoding::meaning_of(code)?)
}

// internal: the body of tt_pair_write.
pub fn write(code: u32) -> u64
    ensures { result ≡ packed bytes_number (written code) }
{
    match written(code) {
        Ok(bytes) => u16::from_be_bytes([bytes.first, bytes.second]) as u64,
        Err(x) => answers::refused(x.reason.number(), x.place),
    }
}

// The number of the half-step of a code's note, or 43.
#[tactic(auto, unfolding(crate::specs::HalfSteps::half_step_outcome))]
fn stepped(code: u32) -> Result<u64, Refusal>
    ensures { outcome_of result ≡ half_step_outcome code }
{
    steps::pair_step(written(code)?)
}

// internal: the body of tt_half_step.
pub fn half_step(code: u32) -> u64
    ensures { result ≡ packed (λ n. n) (half_step_outcome code) }
{
    match stepped(code) {
        Ok(number) => number,
        Err(x) => answers::refused(x.reason.number(), x.place),
    }
}
