// The header of a file that no test refuses.
ghost use Rattle.std.specs.Prelude.{◌≡◌};
ghost use Rattle.sid.specs.Header.{kind_of_magic, start_of, span_at, header_of};

use crate::{Header, Kind};
use fields::Span;
use sidheader::Parts;

// What the magic says the file is, once it is known to be one of the two. A TryFrom is no plainer: it would
// need an error for other numbers, and none comes here.
fn kind_of(magic: u32) -> Kind
    ensures { result ≡ kind_of_magic magic }
{
    if magic == sidheader::RSID {
        Kind::Rsid
    } else {
        Kind::Psid
    }
}

// Start song 0 reads as 1.
fn start_of(start: u16) -> u16
    ensures { result ≡ start_of start }
{
    start.max(1)
}

// Where the text at an offset lies, and its length.
fn text_at(file: &[u8], at: usize) -> Span
    ensures { result ≡ span_at file.now at }
{
    let len = fields::length_before(fields::part(file, at, 31), 0);
    Span { from: at, len }
}

#[tactic(auto, unfolding(crate::specs::Header::header_of))]
// internal: each field of the header, with the texts' lengths.
pub fn header_of(file: &[u8], parts: Parts) -> Header
    ensures { result ≡ header_of file.now parts.fields parts.payload }
{
    let x = parts.fields;
    let p = parts.payload;
    Header {
        kind: kind_of(x.magic),
        version: x.version,
        load: p.load,
        init: parts.init(),
        play: x.play,
        songs: x.songs,
        start: start_of(x.start),
        speed: x.speed,
        basic: x.flags / 2 % 2 == 1,
        clock: x.flags / 4 % 4,
        model: x.flags / 16 % 4,
        page: x.page,
        pages: x.pages,
        title: text_at(file, 0x16),
        author: text_at(file, 0x36),
        released: text_at(file, 0x56),
        payload: Span {
            from: p.from,
            len: p.len,
        },
    }
}
