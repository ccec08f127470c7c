// The first byte of a note: tie and duration.
ghost use Rattle.std.specs.Prelude.{◌≡◌};
ghost use Rattle.note.specs.Reading.{length_in_byte, shape_of, utility_of, triplet_or_plain};
ghost use Rattle.note.specs.Writing.{shape_bits, plain_only, plain_or_triplet, length_byte, first_byte};

use meaning::{Duration, Shape};

// How long a note is: its duration kind, and plain, dotted, double dotted or triplet.
#[derive(Clone, Copy)]
pub struct Length {
    pub duration: Duration,
    pub shape: Shape,
}

// Bits 7 and 5 of a whole note to a thirty-second.
fn shape_of(bit7: u8, bit5: u8) -> Shape
    ensures { result ≡ shape_of bit7 bit5 }
{
    match bit7 {
        0 => match bit5 {
            0 => Shape::Plain,
            _ => Shape::Dotted,
        },
        _ => match bit5 {
            0 => Shape::Triplet,
            _ => Shape::DoubleDotted,
        },
    }
}

// Bit 7 where bit 5 says nothing of the shape.
fn triplet_or_plain(bit7: u8) -> Shape
    ensures { result ≡ triplet_or_plain bit7 }
{
    match bit7 {
        0 => Shape::Plain,
        _ => Shape::Triplet,
    }
}

fn utility_of(bit7: u8, bit5: u8) -> Length
    ensures { result ≡ utility_of bit7 bit5 }
{
    match bit5 {
        0 => Length {
            duration: Duration::UtilityDuration,
            shape: triplet_or_plain(bit7),
        },
        _ => Length {
            duration: Duration::UtilityVoice,
            shape: Shape::Plain,
        },
    }
}

fn valued(duration: Duration, bit7: u8, bit5: u8) -> Length
    ensures { result ≡ record { duration = duration; shape = shape_of bit7 bit5 } }
{
    Length {
        duration,
        shape: shape_of(bit7, bit5),
    }
}

pub fn length_of(first: u8) -> Length
    ensures { result ≡ length_in_byte first }
{
    if first == 0 {
        return Length {
            duration: Duration::AbsolutePitch,
            shape: Shape::Plain,
        };
    }
    let bit7 = first / 128;
    let bit5 = first / 32 % 2;
    let code = first / 4 % 8;
    match code {
        0 => Length {
            duration: Duration::SixtyFourth,
            shape: triplet_or_plain(bit7),
        },
        1 => utility_of(bit7, bit5),
        2 => valued(Duration::Whole, bit7, bit5),
        3 => valued(Duration::Half, bit7, bit5),
        4 => valued(Duration::Quarter, bit7, bit5),
        5 => valued(Duration::Eighth, bit7, bit5),
        6 => valued(Duration::Sixteenth, bit7, bit5),
        _ => valued(Duration::ThirtySecond, bit7, bit5),
    }
}

// The format's bits stand here beside shape_of, and not in meaning: From would be no plainer.
fn shape_bits(shape: Shape) -> u8
    ensures { result ≡ shape_bits shape }
{
    match shape {
        Shape::Plain => 0,
        Shape::Dotted => 32,
        Shape::DoubleDotted => 160,
        Shape::Triplet => 128,
    }
}

fn plain_only(byte: u8, shape: Shape) -> Option<u8>
    ensures { result ≡ plain_only byte shape }
{
    match shape {
        Shape::Plain => Some(byte),
        Shape::Dotted | Shape::DoubleDotted | Shape::Triplet => None,
    }
}

fn plain_or_triplet(plain: u8, triplet: u8, shape: Shape) -> Option<u8>
    ensures { result ≡ plain_or_triplet plain triplet shape }
{
    match shape {
        Shape::Plain => Some(plain),
        Shape::Triplet => Some(triplet),
        Shape::Dotted | Shape::DoubleDotted => None,
    }
}

// The first byte of an untied note.
fn length_byte(duration: Duration, shape: Shape) -> Option<u8>
    ensures { result ≡ length_byte duration shape }
{
    let bits = shape_bits(shape);
    match duration {
        Duration::Whole => Some(0x08 + bits),
        Duration::Half => Some(0x0C + bits),
        Duration::Quarter => Some(0x10 + bits),
        Duration::Eighth => Some(0x14 + bits),
        Duration::Sixteenth => Some(0x18 + bits),
        Duration::ThirtySecond => Some(0x1C + bits),
        Duration::SixtyFourth => plain_or_triplet(0x20, 0xA0, shape),
        Duration::UtilityDuration => plain_or_triplet(0x04, 0x84, shape),
        Duration::UtilityVoice => plain_only(0x24, shape),
        Duration::AbsolutePitch => plain_only(0x00, shape),
    }
}

// The first byte of a note: an untied note's, with 64 added for the tie, which absolute pitch (0) cannot
// have.
pub fn first_byte(duration: Duration, shape: Shape, tied: bool) -> Option<u8>
    ensures { result ≡ first_byte duration shape tied }
{
    let untied = length_byte(duration, shape)?;
    if !tied {
        return Some(untied);
    }
    if untied == 0 { None } else { Some(untied + 64) }
}
