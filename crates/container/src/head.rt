// The numbers at the front of the file, and the tests of them: 21 to 24.
ghost use Rattle.std.specs.Prelude.{◌≡◌};
ghost use Rattle.refusals.specs.Tests.{first_of};
ghost use Rattle.container.specs.Head.{head_of, bad_length, voices_end, voices_of, head_tests};

use crate::Voices;
use fields::Span;
use refusals::{Reason, Test};

// The load address and the three voice lengths; size is the file's length.
#[derive(Clone, Copy)]
pub struct Head {
    pub size: usize,
    pub load: u16,
    pub len1: u16,
    pub len2: u16,
    pub len3: u16,
}

// internal: the numbers as they stand in the file.
pub fn read_numbers(file: &[u8]) -> Head
    ensures { result ≡ head_of file.now }
{
    let load = fields::le16(file, 0);
    let len1 = fields::le16(file, 2);
    let len2 = fields::le16(file, 4);
    let len3 = fields::le16(file, 6);
    Head {
        size: file.len(),
        load,
        len1,
        len2,
        len3,
    }
}

// A length that no voice has: a voice is pairs of two bytes, and one at least.
fn is_bad_length(len: u16) -> bool
    ensures { result ≡ bad_length len }
{
    (len == 0) | (len % 2 == 1)
}

// Where the voices end and the text begins.
fn voices_end(x: Head) -> usize
    ensures { result ≡ voices_end x }
{
    8 + x.len1 as usize + x.len2 as usize + x.len3 as usize
}

// internal: the tests of the numbers, 21 to 24.
pub fn test_head(x: Head) -> Result<(), Reason>
    ensures { result ≡ first_of (head_tests x) }
{
    let size = x.size;
    let bad1 = is_bad_length(x.len1);
    let bad2 = is_bad_length(x.len2);
    let bad3 = is_bad_length(x.len3);
    let end = voices_end(x);
    // address plus length less 2, with the address on the other side, so that no sum can be too great
    let room = 65538 - x.load as usize;
    refusals::first_of(&[
        Test {
            reason: Reason::MusShort,
            applies: size < 8,
        },
        Test {
            reason: Reason::MusPastMemory,
            applies: (65536 < size) | (room < size),
        },
        Test {
            reason: Reason::VoiceLength,
            applies: bad1 | bad2 | bad3,
        },
        Test {
            reason: Reason::VoicesPastFile,
            applies: size < end,
        },
    ])
}

// internal: the voices one after the other from byte 8 on.
pub fn voices_of(x: Head) -> Voices
    ensures { result ≡ voices_of x }
{
    let len1 = x.len1 as usize;
    let len2 = x.len2 as usize;
    let len3 = x.len3 as usize;
    Voices {
        load: x.load,
        voice1: Span { from: 8, len: len1 },
        voice2: Span {
            from: 8 + len1,
            len: len2,
        },
        voice3: Span {
            from: 8 + len1 + len2,
            len: len3,
        },
        end: 8 + len1 + len2 + len3,
    }
}
