// A PSID or RSID file as one thing: the lent file with where its title, author, released text and payload lie
// in it. Its methods are thin: each leaves the work to `fields::span_part`.
// `shown` has plain parameters: whoever calls it meets no such struct.
#![tactic(auto)]

ghost use Rattle.std.specs.Prelude.{◌≡◌};
ghost use Rattle.fields.specs.Parts.{part_of};
ghost use Rattle.tune.specs.Tune.{span_of, tune_of};

use fields::Span;
use sid::Header;

// The parts of a file that are shown, by name.
#[derive(Clone, Copy)]
pub enum Piece {
    Title,
    Author,
    Released,
    Payload,
}

// The file as it was lent, and where its parts lie. It may be made by hand: a part then has those bytes of
// its place that lie in the file.
#[derive(Clone, Copy)]
pub struct Tune<'a> {
    pub file: &'a [u8],
    pub title: Span,
    pub author: Span,
    pub released: Span,
    pub payload: Span,
}

impl<'a> Tune<'a> {
    // The tune of a file and its accepted header.
    pub fn of(file: &'a [u8], h: Header) -> Tune<'a>
        ensures { result ≡ tune_of file.entry h }
    {
        Tune {
            file,
            title: h.title,
            author: h.author,
            released: h.released,
            payload: h.payload,
        }
    }

    // The title, a part of the lent file.
    pub fn title(self) -> &'a [u8]
        ensures { result.now ≡ part_of self.entry.file.now self.entry.title }
    {
        fields::span_part(self.file, self.title)
    }

    // The author's name, a part of the lent file.
    pub fn author(self) -> &'a [u8]
        ensures { result.now ≡ part_of self.entry.file.now self.entry.author }
    {
        fields::span_part(self.file, self.author)
    }

    // The released text, a part of the lent file.
    pub fn released(self) -> &'a [u8]
        ensures { result.now ≡ part_of self.entry.file.now self.entry.released }
    {
        fields::span_part(self.file, self.released)
    }

    // The payload, a part of the lent file; without the two address bytes, where the data begin with them.
    pub fn payload(self) -> &'a [u8]
        ensures { result.now ≡ part_of self.entry.file.now self.entry.payload }
    {
        fields::span_part(self.file, self.payload)
    }
}

// A part by its name, of a file and its accepted header.
pub fn shown(file: &[u8], h: Header, piece: Piece) -> &[u8]
    ensures { result.now ≡ part_of file.now (span_of h piece) }
{
    let tune = Tune::of(file, h);
    match piece {
        Piece::Title => tune.title(),
        Piece::Author => tune.author(),
        Piece::Released => tune.released(),
        Piece::Payload => tune.payload(),
    }
}
