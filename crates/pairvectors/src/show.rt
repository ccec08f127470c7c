// A line for each answer: the label, and the bytes, the half-step or the refusal.
use meaning::{Accidental, Duration, Letter, Meaning, Note, Pitch, Shape, Tone};
use printing::print;
use std::io;
use std::io::Write;

// A row of a table: its label, and a value.
pub type Row<T> = (&'static str, T);

// How each meaning is spelled.
pub fn spellings(out: &mut impl Write, rows: &[Row<Meaning>]) -> io::Result<()> {
    for &(label, meaning) in rows {
        match pair::write(meaning) {
            Ok(pair) => print(
                out,
                format_args!("{label} {:02X} {:02X}\n", pair.first, pair.second),
            )?,
            Err(refusal) => print(out, format_args!("{label} refused {refusal}\n"))?,
        }
    }
    Ok(())
}

// The half-step of each pitch.
pub fn half_steps(out: &mut impl Write, rows: &[Row<Pitch>]) -> io::Result<()> {
    for &(label, pitch) in rows {
        match meaning::half_step(pitch) {
            Ok(step) => print(out, format_args!("{label} {step}\n"))?,
            Err(refusal) => print(out, format_args!("{label} refused {refusal}\n"))?,
        }
    }
    Ok(())
}

pub fn pitch(letter: Letter, accidental: Accidental, octave: u16) -> Pitch {
    Pitch {
        letter,
        accidental,
        octave,
    }
}

fn note(duration: Duration, shape: Shape, tied: bool, tone: Tone) -> Meaning {
    Meaning::Note(Note {
        duration,
        shape,
        tied,
        tone,
    })
}

// A note of this pitch, a plain quarter.
pub fn pitched(letter: Letter, accidental: Accidental, octave: u16) -> Meaning {
    let tone = Tone::Sounds(pitch(letter, accidental, octave));
    note(Duration::Quarter, Shape::Plain, false, tone)
}

// A note of this length, C natural of octave 4.
pub fn sounding(duration: Duration, shape: Shape, tied: bool) -> Meaning {
    let tone = Tone::Sounds(pitch(Letter::C, Accidental::Natural, 4));
    note(duration, shape, tied, tone)
}

// An untied rest of this length.
pub fn resting(duration: Duration, shape: Shape) -> Meaning {
    note(duration, shape, false, Tone::Rest)
}
