// The code of a note, 1DDSTLAO.
ghost use Rattle.std.specs.Prelude.{◌≡◌};
ghost use Rattle.codes.specs.Coding.{duration_digits, shape_digit, letter_digit, accidental_digit, tone_digits, note_code};

use meaning::{Accidental, Duration, Letter, Note, Shape, Tone};

// A match for each digit, and no discriminants: the types stand in `meaning`, and each has other numbers too,
// as a pair's bits in `note`.
fn duration_digits(duration: Duration) -> u8
    ensures { result ≡ duration_digits duration }
{
    match duration {
        Duration::Whole => 0x01,
        Duration::Half => 0x02,
        Duration::Quarter => 0x04,
        Duration::Eighth => 0x08,
        Duration::Sixteenth => 0x16,
        Duration::ThirtySecond => 0x32,
        Duration::SixtyFourth => 0x64,
        Duration::UtilityDuration => 0xD1,
        Duration::UtilityVoice => 0xD2,
        Duration::AbsolutePitch => 0xAB,
    }
}

fn shape_digit(shape: Shape) -> u8
    ensures { result ≡ shape_digit shape }
{
    match shape {
        Shape::Plain => 0,
        Shape::Dotted => 1,
        Shape::DoubleDotted => 2,
        Shape::Triplet => 3,
    }
}

fn letter_digit(letter: Letter) -> u8
    ensures { result ≡ letter_digit letter }
{
    match letter {
        Letter::C => 0xC,
        Letter::D => 0xD,
        Letter::E => 0xE,
        Letter::F => 0xF,
        Letter::G => 0x6,
        Letter::A => 0xA,
        Letter::B => 0xB,
    }
}

fn accidental_digit(accidental: Accidental) -> u8
    ensures { result ≡ accidental_digit accidental }
{
    match accidental {
        Accidental::Flat => 0xF,
        Accidental::Natural => 0x0,
        Accidental::Sharp => 0x1,
        Accidental::DoubleSharp => 0x2,
        Accidental::DoubleFlat => 0xE,
    }
}

fn tone_digits(tone: Tone) -> u32
    ensures { result ≡ tone_digits tone }
{
    match tone {
        Tone::Rest => 0,
        Tone::Sounds(pitch) => {
            let letter = letter_digit(pitch.letter) as u32;
            let accidental = accidental_digit(pitch.accidental) as u32;
            letter * 0x100 + accidental * 0x10 + pitch.octave as u32
        }
    }
}

// internal: the code of a note.
pub fn note_code(note: Note) -> u64
    ensures { result ≡ note_code note }
{
    let digits = duration_digits(note.duration) as u64;
    let digit = shape_digit(note.shape) as u64;
    let tie = note.tied as u64;
    let pitch = tone_digits(note.tone) as u64;
    0x10000000 + digits * 0x100000 + digit * 0x10000 + tie * 0x1000 + pitch
}
