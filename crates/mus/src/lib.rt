// Sidplayer MUS files in PRG form: accepted or refused, their voices counted without being played, their text
// shown. Every call answers for every file and every number; none has a requires.
#![tactic(auto)]

ghost use Rattle.std.specs.Prelude.{◌≡◌};
ghost use Rattle.refusals.specs.Numbers.{outcome_of};
ghost use Rattle.mus.specs.Song.{mus_outcome};
ghost use Rattle.mus.specs.Asked.{voice_asked};
ghost use Rattle.mus.specs.Text.{line_asked};

use fields::Span;
use refusals::{Reason, Refusal};

mod voices;

// A voice of an accepted file: the file offset of its first pair, its length in bytes, and how many events
// and pairs walked it has when played.
#[derive(Clone, Copy)]
pub struct Voice {
    pub offset: usize,
    pub length: usize,
    pub events: u32,
    pub walked: u32,
}

// What an accepted file says of itself: its load address, its voices, and where its five text lines lie.
#[derive(Clone, Copy)]
pub struct Song {
    pub load: u16,
    pub voice1: Voice,
    pub voice2: Voice,
    pub voice3: Voice,
    pub line1: Span,
    pub line2: Span,
    pub line3: Span,
    pub line4: Span,
    pub line5: Span,
}

// Accepts a file, or gives the first refusal that applies: 21 to 26, then voice 1, 2 and 3, each 27 to 33.
pub fn accept(file: &[u8]) -> Result<Song, Refusal>
    ensures { outcome_of result ≡ mus_outcome file.now }
{
    let l = container::read_container(file)?;
    voices::accept_voices(file, l)
}

// A voice of an accepted file by its number, 1 to 3. Refused with 41 for any other number, else with the
// file's own refusal.
pub fn read_voice(file: &[u8], number: u32) -> Result<Voice, Refusal>
    ensures { outcome_of result ≡ voice_asked file.now number }
{
    if (number < 1) | (3 < number) {
        return Err(Reason::VoiceNumber.into());
    }
    let song = accept(file)?;
    Ok(voices::voice_of(song, number))
}

// A text line of an accepted file by its number, 1 to 5: where it lies in the file, without the $0D that
// closes it. A refused file is answered with its own refusal. For any other number there is no such line.
pub fn text_line(file: &[u8], number: u64) -> Result<Option<Span>, Refusal>
    ensures { outcome_of result ≡ line_asked file.now number }
{
    Ok(voices::line_of(accept(file)?, number))
}
