// A note's two bytes: read, and written in the writer's spelling. Internal.
#![tactic(auto)]

ghost use Rattle.std.specs.Prelude.{◌≡◌};
ghost use Rattle.refusals.specs.Numbers.{outcome_of};
ghost use Rattle.note.specs.Reading.{note_of};
ghost use Rattle.note.specs.Writing.{note_spelling};

use meaning::{Bytes, Note};
use refusals::{Reason, Refusal};

mod first;
mod second;

// internal: the note of a pair whose first byte has low bits 00.
pub fn read_note(first: u8, second: u8) -> Note
    ensures { result ≡ note_of first second }
{
    let length = first::length_of(first);
    Note {
        duration: length.duration,
        shape: length.shape,
        tied: first / 64 % 2 == 1,
        tone: second::tone_of(second),
    }
}

// internal: a note's two bytes, or 43.
pub fn write_note(note: Note) -> Result<Bytes, Refusal>
    ensures { outcome_of result ≡ note_spelling note }
{
    let first = first::first_byte(note.duration, note.shape, note.tied).ok_or(Reason::NoPair)?;
    let second = second::tone_byte(note.tone).ok_or(Reason::NoPair)?;
    Ok(Bytes { first, second })
}
