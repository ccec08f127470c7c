// The parts of a half-step, and which accidentals a letter has.
ghost use Rattle.std.specs.Prelude.{◌≡◌};
ghost use Rattle.meaning.specs.Pitches.{letter_step, raised_by, lowered_by, double_is_sharp, has_accidental};

use crate::{Accidental, Letter};

pub fn letter_step(letter: Letter) -> u16
    ensures { result ≡ letter_step letter }
{
    match letter {
        Letter::C => 0,
        Letter::D => 2,
        Letter::E => 4,
        Letter::F => 5,
        Letter::G => 7,
        Letter::A => 9,
        Letter::B => 11,
    }
}

pub fn raised_by(accidental: Accidental) -> u16
    ensures { result ≡ raised_by accidental }
{
    match accidental {
        Accidental::Sharp => 1,
        Accidental::DoubleSharp => 2,
        Accidental::Flat | Accidental::Natural | Accidental::DoubleFlat => 0,
    }
}

pub fn lowered_by(accidental: Accidental) -> u16
    ensures { result ≡ lowered_by accidental }
{
    match accidental {
        Accidental::Flat => 1,
        Accidental::DoubleFlat => 2,
        Accidental::Natural | Accidental::Sharp | Accidental::DoubleSharp => 0,
    }
}

// internal: whether bits 7-6 of 00 make this letter double sharp; else they make it double flat.
pub fn double_is_sharp(letter: Letter) -> bool
    ensures { result ≡ double_is_sharp letter }
{
    matches!(letter, Letter::C | Letter::D | Letter::F | Letter::G)
}

pub fn has_accidental(letter: Letter, accidental: Accidental) -> bool
    ensures { result ≡ has_accidental letter accidental }
{
    match accidental {
        Accidental::Flat | Accidental::Natural | Accidental::Sharp => true,
        Accidental::DoubleSharp => double_is_sharp(letter),
        Accidental::DoubleFlat => !double_is_sharp(letter),
    }
}
