// A header's fields as a list of numbers.
ghost use Rattle.std.specs.Prelude.{◌≡◌, [], ◌∷◌};
ghost use Rattle.sidcalls.specs.Lists.{header_numbers};
ghost use Rattle.sidcalls.specs.Bounds.{Narrow, NarrowSpan};

use fields::Span;
use sid::Header;

// Where a text or the payload stands, and how long it is.
fn span_numbers(span: Span) -> [u32; 2]
    requires { NarrowSpan span }
    ensures { result ≡ span.from ∷ span.len ∷ [] }
{
    [span.from as u32, span.len as u32]
}

// internal: the fields in the order of docs/INTERFACE.md.
pub fn header_numbers(h: Header) -> [u32; 21]
    requires { Narrow h }
    ensures { result ≡ header_numbers h }
{
    let title = span_numbers(h.title);
    let author = span_numbers(h.author);
    let released = span_numbers(h.released);
    let payload = span_numbers(h.payload);
    [
        h.kind as u32,
        h.version as u32,
        h.load as u32,
        h.init as u32,
        h.play as u32,
        h.songs as u32,
        h.start as u32,
        h.speed,
        h.basic as u32,
        h.clock as u32,
        h.model as u32,
        h.page as u32,
        h.pages as u32,
        title[0],
        title[1],
        author[0],
        author[1],
        released[0],
        released[1],
        payload[0],
        payload[1],
    ]
}
