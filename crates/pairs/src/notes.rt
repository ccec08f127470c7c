// The words for a note.
use crate::put_refusal;
use meaning::{Accidental, Duration, Letter, Note, Pitch, Shape, Tone};
use printing::{put, put_number, put_signed};

fn duration_word(duration: Duration) -> &'static str {
    match duration {
        Duration::Whole => "whole",
        Duration::Half => "half",
        Duration::Quarter => "quarter",
        Duration::Eighth => "eighth",
        Duration::Sixteenth => "sixteenth",
        Duration::ThirtySecond => "thirty-second",
        Duration::SixtyFourth => "64th",
        Duration::UtilityDuration => "utility-duration",
        Duration::UtilityVoice => "utility-voice",
        Duration::AbsolutePitch => "absolute",
    }
}

fn shape_word(shape: Shape) -> &'static str {
    match shape {
        Shape::Plain => "plain",
        Shape::Dotted => "dotted",
        Shape::DoubleDotted => "double-dotted",
        Shape::Triplet => "triplet",
    }
}

fn letter_word(letter: Letter) -> &'static str {
    match letter {
        Letter::C => "C",
        Letter::D => "D",
        Letter::E => "E",
        Letter::F => "F",
        Letter::G => "G",
        Letter::A => "A",
        Letter::B => "B",
    }
}

fn accidental_word(accidental: Accidental) -> &'static str {
    match accidental {
        Accidental::Flat => "flat",
        Accidental::Natural => "natural",
        Accidental::Sharp => "sharp",
        Accidental::DoubleSharp => "double-sharp",
        Accidental::DoubleFlat => "double-flat",
    }
}

// A word and the space after it.
fn put_word(out: &mut [u8], at: usize, word: &str) -> usize {
    let to = put(out, at, word.as_bytes());
    put(out, to, b" ")
}

fn put_half_step(out: &mut [u8], at: usize, pitch: Pitch) -> usize {
    match meaning::half_step(pitch) {
        Ok(step) => put_signed(out, at, step),
        Err(refusal) => put_refusal(out, at, refusal),
    }
}

// Letter, accidental, octave and half-step.
fn put_pitch(out: &mut [u8], at: usize, pitch: Pitch) -> usize {
    let to = put_word(out, at, letter_word(pitch.letter));
    let to = put_word(out, to, accidental_word(pitch.accidental));
    let to = put_number(out, to, u64::from(pitch.octave));
    let to = put(out, to, b" ");
    put_half_step(out, to, pitch)
}

// The word note, and its duration, shape and tie. Absolute pitch takes no time and has no shape and no tie, so
// its word stands in front of the pitch alone.
fn put_length(out: &mut [u8], at: usize, note: Note) -> usize {
    let duration = duration_word(note.duration);
    match note.duration {
        Duration::AbsolutePitch => put_word(out, at, duration),
        _ => {
            let tie = if note.tied { "tied" } else { "-" };
            let to = put_word(out, at, "note");
            let to = put_word(out, to, duration);
            let to = put_word(out, to, shape_word(note.shape));
            put_word(out, to, tie)
        }
    }
}

pub fn put_note(out: &mut [u8], at: usize, note: Note) -> usize {
    let to = put_length(out, at, note);
    match note.tone {
        Tone::Rest => put(out, to, b"rest"),
        Tone::Sounds(pitch) => put_pitch(out, to, pitch),
    }
}
