// What a caller asks of a SAP file: the time of a song, a block by its number, and its texts as parts of the
// lent bytes. Every call answers for every file and number; none has a requires.
#![tactic(auto)]

ghost use Rattle.std.specs.Prelude.{◌≡◌};
ghost use Rattle.refusals.specs.Numbers.{outcome_of};
ghost use Rattle.sapparts.specs.Asked.{time_outcome, block_outcome, lasting};
ghost use Rattle.sapparts.specs.Texts.{text_part, place_in};

use fields::Span;
use refusals::{Reason, Refusal};
use sapblocks::Block;
use sapheader::Header;

// How long a song lasts, and whether it then loops.
#[derive(Clone, Copy, Debug, PartialEq, Eq)]
pub struct Duration {
    pub milliseconds: u32,
    pub looped: bool,
}

// The texts of a file, by name.
#[derive(Clone, Copy, Debug, PartialEq, Eq)]
pub enum Piece {
    Author,
    Name,
    Date,
}

// The time that TIME states, if it states one.
fn duration_of(stated: Option<u32>) -> Option<Duration>
    ensures { result ≡ lasting stated }
{
    stated.map(|value| Duration {
        milliseconds: value / 2,
        looped: value % 2 == 1,
    })
}

// The time of a song, counted from 0, None where the file does not state it: the file's own refusal, then
// no such song for one that is not there.
pub fn time(file: &[u8], song: u64) -> Result<Option<Duration>, Refusal>
    ensures { outcome_of result ≡ time_outcome file.now song }
{
    let tested = sap::test(file, song, 0)?;
    if tested.header.songs as u64 <= song {
        return Err(Reason::NoSuchSong.into());
    }
    Ok(duration_of(tested.time))
}

// A block by its number, counted from 0: where it lies in memory, and where its data lie in the file; None
// where there is no such block.
pub fn block(file: &[u8], number: u64) -> Result<Option<Block>, Refusal>
    ensures { outcome_of result ≡ block_outcome file.now number }
{
    let tested = sap::test(file, 0, number)?;
    Ok(tested.block)
}

// internal: the part of a file that a text's place names; nothing where the text is absent.
pub fn text_part(file: &[u8], place: Option<Span>) -> &[u8]
    ensures { result.now ≡ text_part file.now place }
{
    match place {
        None => &[],
        Some(span) => fields::span_part(file, span),
    }
}

// A text by its name, of a file and its accepted header: a part of the lent file, without its quotes; nothing
// where the file has none.
pub fn shown(file: &[u8], h: Header, piece: Piece) -> &[u8]
    ensures { result.now ≡ text_part file.now (place_in h piece) }
{
    let place = match piece {
        Piece::Author => h.author,
        Piece::Name => h.name,
        Piece::Date => h.date,
    };
    text_part(file, place)
}
