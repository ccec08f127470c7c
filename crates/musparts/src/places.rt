// Where a text line and the three voices lie, as lists of numbers.
ghost use Rattle.std.specs.Prelude.{◌≡◌, Some};
ghost use Rattle.musparts.specs.Lists.{line_numbers, place_numbers};
ghost use Rattle.musparts.specs.Bounds.{NarrowSpan, NarrowVoices};

use container::Voices;
use fields::Span;

// internal: a line's offset and length.
pub fn line_numbers(s: Span) -> [u32; 2]
    requires { NarrowSpan s }
    ensures { result ≡ line_numbers (Some s) }
{
    [s.from as u32, s.len as u32]
}

// internal: for each voice its offset and how many pairs it has.
pub fn place_numbers(v: Voices) -> [u32; 6]
    requires { NarrowVoices v }
    ensures { result ≡ place_numbers v }
{
    [
        v.voice1.from as u32,
        (v.voice1.len / 2) as u32,
        v.voice2.from as u32,
        (v.voice2.len / 2) as u32,
        v.voice3.from as u32,
        (v.voice3.len / 2) as u32,
    ]
}
