// The second byte of a note: a rest, or letter, accidental and octave.
ghost use Rattle.std.specs.Prelude.{◌≡◌};
ghost use Rattle.note.specs.Reading.{letter_of, accidental_of, double_of, tone_of};
ghost use Rattle.note.specs.Writing.{letter_number, accidental_bits, tone_byte};

use meaning::{Accidental, Letter, Pitch, Tone};

// The format's numbers, and how letter_number goes back.
fn letter_of(number: u8) -> Letter
    ensures { result ≡ letter_of number }
{
    match number {
        1 => Letter::C,
        2 => Letter::D,
        3 => Letter::E,
        4 => Letter::F,
        5 => Letter::G,
        6 => Letter::A,
        _ => Letter::B,
    }
}

fn double_of(letter: Letter) -> Accidental
    ensures { result ≡ double_of letter }
{
    if meaning::double_is_sharp(letter) {
        Accidental::DoubleSharp
    } else {
        Accidental::DoubleFlat
    }
}

fn accidental_of(bits: u8, letter: Letter) -> Accidental
    ensures { result ≡ accidental_of bits letter }
{
    match bits {
        3 => Accidental::Flat,
        2 => Accidental::Natural,
        1 => Accidental::Sharp,
        _ => double_of(letter),
    }
}

pub fn tone_of(second: u8) -> Tone
    ensures { result ≡ tone_of second }
{
    let number = second % 8;
    if number == 0 {
        return Tone::Rest;
    }
    let letter = letter_of(number);
    let accidental = accidental_of(second / 64, letter);
    let octave = (7 - second / 8 % 8) as u16;
    Tone::Sounds(Pitch {
        letter,
        accidental,
        octave,
    })
}

// The format's numbers stand here beside letter_of, and not in meaning: From would be no plainer.
fn letter_number(letter: Letter) -> u8
    ensures { result ≡ letter_number letter }
{
    match letter {
        Letter::C => 1,
        Letter::D => 2,
        Letter::E => 3,
        Letter::F => 4,
        Letter::G => 5,
        Letter::A => 6,
        Letter::B => 7,
    }
}

// The format's bits, as letter_number.
fn accidental_bits(accidental: Accidental) -> u8
    ensures { result ≡ accidental_bits accidental }
{
    match accidental {
        Accidental::Flat => 0xC0,
        Accidental::Natural => 0x80,
        Accidental::Sharp => 0x40,
        Accidental::DoubleSharp | Accidental::DoubleFlat => 0,
    }
}

pub fn tone_byte(tone: Tone) -> Option<u8>
    ensures { result ≡ tone_byte tone }
{
    match tone {
        Tone::Rest => Some(0),
        Tone::Sounds(pitch) => {
            if meaning::in_tables(pitch) {
                let octave = pitch.octave as u8;
                Some(
                    accidental_bits(pitch.accidental)
                        + 8 * (7 - octave)
                        + letter_number(pitch.letter),
                )
            } else {
                None
            }
        }
    }
}
