// The text after the voices: its five lines, and the tests of it: 25 and 26.
ghost use Rattle.std.specs.Prelude.{◌≡◌, ◌+◌, ◌^◌, ◌<◌, length};
ghost use Rattle.refusals.specs.Tests.{first_of};
ghost use Rattle.container.specs.Text.{line_at, line_of, text_of, text_tests};

use fields::Span;
use refusals::{Reason, Test};

// A line: where it lies, whether it is right, and where the next begins.
#[derive(Clone, Copy)]
pub struct Line {
    pub span: Span,
    pub fits: bool,
    pub next: usize,
}

// The lines of the text, whether the text is right, and where it ends.
#[derive(Clone, Copy)]
pub struct Text {
    pub line1: Span,
    pub line2: Span,
    pub line3: Span,
    pub line4: Span,
    pub line5: Span,
    pub fits: bool,
    pub end: usize,
}

// Where the line that begins at from ends: at the first $0D or $00, or with the file.
fn line_end(file: &[u8], from: usize) -> usize
    ensures { result ≡ from + length (line_at file.now from) }
{
    if file.len() <= from {
        return from;
    }
    for n in from..file.len() {
        let b = file[n];
        if (b == 0x0D) | (b == 0) {
            return n;
        }
    }
    file.len()
}

// The line that begins at from.
fn line_at(file: &[u8], from: usize) -> Line
    requires { from + 1 < 2 ^ 64 }
    ensures { result ≡ line_of file.now from }
{
    let end = line_end(file, from);
    let closer = fields::byte_at(file, end);
    let next = end + 1;
    let len = end - from;
    Line {
        span: Span { from, len },
        fits: (len <= 32) & (closer == 0x0D),
        next,
    }
}

// internal: the text that begins at at. Five calls and no loop: each line has a field of its own, as in
// `mus::Song`.
pub fn read_text(file: &[u8], at: usize) -> Text
    requires { at < 2 ^ 63 }
    ensures { result ≡ text_of file.now at }
{
    let a = line_at(file, at);
    let b = line_at(file, a.next);
    let c = line_at(file, b.next);
    let d = line_at(file, c.next);
    let e = line_at(file, d.next);
    let close = e.next;
    let last = fields::byte_at(file, close);
    let zero = (close < file.len()) & (last == 0);
    let end = close + 1;
    let line1 = a.span;
    let line2 = b.span;
    let line3 = c.span;
    let line4 = d.span;
    let line5 = e.span;
    Text {
        line1,
        line2,
        line3,
        line4,
        line5,
        fits: a.fits & b.fits & c.fits & d.fits & e.fits & zero,
        end,
    }
}

// internal: the tests of the text, 25 and 26.
pub fn test_text(t: Text, size: usize) -> Result<(), Reason>
    ensures { result ≡ first_of (text_tests t size) }
{
    refusals::first_of(&[
        Test {
            reason: Reason::TextLines,
            applies: !t.fits,
        },
        Test {
            reason: Reason::BytesAfterText,
            applies: t.end < size,
        },
    ])
}
