// The sums of pairs. Where the paper names a note's first byte alone, the second is a rest; where it names
// the second alone, the first is a plain 64th. Only what the paper's answers name has a word of its own.
use meaning::{Accidental, Duration, Letter, Meaning, Note, Pitch, Shape, Tone};
use printing::print;
use std::io;
use std::io::Write;

fn duration_word(duration: Duration) -> &'static str {
    match duration {
        Duration::Quarter => "quarter",
        Duration::SixtyFourth => "64th",
        _ => "another",
    }
}

fn shape_word(shape: Shape) -> &'static str {
    match shape {
        Shape::Plain => "plain",
        Shape::DoubleDotted => "double-dotted",
        Shape::Triplet => "triplet",
        _ => "another",
    }
}

fn letter_word(letter: Letter) -> &'static str {
    match letter {
        Letter::C => "C",
        Letter::F => "F",
        Letter::B => "B",
        _ => "another",
    }
}

fn accidental_word(accidental: Accidental) -> &'static str {
    match accidental {
        Accidental::Flat => "flat",
        Accidental::Natural => "natural",
        Accidental::Sharp => "sharp",
        _ => "another",
    }
}

// Letter, accidental, octave and half-step.
fn write_pitch(out: &mut impl Write, pitch: Pitch) -> io::Result<()> {
    let letter = letter_word(pitch.letter);
    let accidental = accidental_word(pitch.accidental);
    print(out, format_args!("{letter} {accidental} {} ", pitch.octave))?;
    match meaning::half_step(pitch) {
        Ok(step) => print(out, format_args!("{step}")),
        Err(refusal) => print(out, format_args!("refused {}", refusal.reason.number())),
    }
}

// Duration, shape, tie, and the pitch or the word rest.
fn write_note(out: &mut impl Write, note: Note) -> io::Result<()> {
    let duration = duration_word(note.duration);
    let shape = shape_word(note.shape);
    let tie = if note.tied { "tied" } else { "-" };
    print(out, format_args!("{duration} {shape} {tie} "))?;
    match note.tone {
        Tone::Rest => print(out, "rest"),
        Tone::Sounds(pitch) => write_pitch(out, pitch),
    }
}

fn write_meaning(out: &mut impl Write, meaning: Meaning) -> io::Result<()> {
    match meaning {
        Meaning::Note(note) => write_note(out, note),
        Meaning::Def(v) => print(out, format_args!("DEF {v}")),
        Meaning::Ps(z) => print(out, format_args!("P-S {z}")),
        Meaning::Tps(z) => print(out, format_args!("TPS {z}")),
        Meaning::Rtp(z) => print(out, format_args!("RTP {z}")),
        _ => print(out, "another"),
    }
}

// A line of the two bytes and what they mean.
fn show_pair(out: &mut impl Write, first: u8, second: u8) -> io::Result<()> {
    print(out, format_args!("{first:02X} {second:02X} "))?;
    match pair::read(first, second) {
        Ok(meaning) => write_meaning(out, meaning)?,
        Err(refusal) => print(out, format_args!("refused {}", refusal.reason.number()))?,
    }
    print(out, "\n")
}

pub fn show_sums(out: &mut impl Write) -> io::Result<()> {
    let pairs = [
        (0xF0, 0x94),
        (0x20, 0x00),
        (0x40, 0x00),
        (0x80, 0x00),
        (0xA0, 0x00),
        (0x56, 0xFF),
        (0x56, 0x80),
        (0xA6, 0xA1),
        (0xA6, 0xB1),
        (0x2E, 0x53),
        (0x20, 0xF9),
        (0x20, 0x47),
        (0x6E, 0xF8),
        (0x01, 0x83),
    ];
    for (first, second) in pairs {
        show_pair(out, first, second)?;
    }
    Ok(())
}
