// The note of a code, 1DDSTLAO, digit by digit.
ghost use Rattle.std.specs.Prelude.{◌≡◌, ◌<◌};
ghost use Rattle.refusals.specs.Numbers.{outcome_of};
ghost use Rattle.decoding.specs.Tables.{lookup};
ghost use Rattle.decoding.specs.Decoding.{tone_at, note_at};
ghost use Rattle.decoding.specs.Answers.{found};

use meaning::{Accidental, Duration, Letter, Meaning, Note, Pitch, Shape, Tone};
use refusals::{Reason, Refusal};

// What the digits of a note stand for.
const DURATIONS: [(u32, Duration); 10] = [
    (0x01, Duration::Whole),
    (0x02, Duration::Half),
    (0x04, Duration::Quarter),
    (0x08, Duration::Eighth),
    (0x16, Duration::Sixteenth),
    (0x32, Duration::ThirtySecond),
    (0x64, Duration::SixtyFourth),
    (0xD1, Duration::UtilityDuration),
    (0xD2, Duration::UtilityVoice),
    (0xAB, Duration::AbsolutePitch),
];

const SHAPES: [(u32, Shape); 4] = [
    (0, Shape::Plain),
    (1, Shape::Dotted),
    (2, Shape::DoubleDotted),
    (3, Shape::Triplet),
];

const TIES: [(u32, bool); 2] = [(0, false), (1, true)];

const LETTERS: [(u32, Letter); 7] = [
    (0xC, Letter::C),
    (0xD, Letter::D),
    (0xE, Letter::E),
    (0xF, Letter::F),
    (0x6, Letter::G),
    (0xA, Letter::A),
    (0xB, Letter::B),
];

const ACCIDENTALS: [(u32, Accidental); 5] = [
    (0xF, Accidental::Flat),
    (0x0, Accidental::Natural),
    (0x1, Accidental::Sharp),
    (0x2, Accidental::DoubleSharp),
    (0xE, Accidental::DoubleFlat),
];

// What a table has for a number.
fn lookup<T: Copy>(table: &[(u32, T)], number: u32) -> Option<T>
    ensures { found result ≡ lookup table.now number }
{
    for &(digits, value) in table {
        if number == digits {
            return Some(value);
        }
    }
    None
}

// The three last digits of a note.
fn tone_at(digits: u32) -> Option<Tone>
    requires { digits < 0x1000 }
    ensures { found result ≡ tone_at digits }
{
    if digits == 0 {
        return Some(Tone::Rest);
    }
    let letter = lookup(&LETTERS, digits / 0x100)?;
    let accidental = lookup(&ACCIDENTALS, digits / 0x10 % 0x10)?;
    let octave = (digits % 0x10) as u16;
    Some(Tone::Sounds(Pitch {
        letter,
        accidental,
        octave,
    }))
}

// internal: the note of a code whose first digit is 1.
pub fn note_at(code: u32) -> Result<Meaning, Refusal>
    ensures { outcome_of result ≡ note_at code }
{
    let duration = lookup(&DURATIONS, code / 0x100000 % 0x100).ok_or(Reason::NoPair)?;
    let shape = lookup(&SHAPES, code / 0x10000 % 0x10).ok_or(Reason::NoPair)?;
    let tied = lookup(&TIES, code / 0x1000 % 0x10).ok_or(Reason::NoPair)?;
    let tone = tone_at(code % 0x1000).ok_or(Reason::NoPair)?;
    Ok(Meaning::Note(Note {
        duration,
        shape,
        tied,
        tone,
    }))
}
