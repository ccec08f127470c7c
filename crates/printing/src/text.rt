// Text in a lent list. Each call puts its text at a place and answers the place after it. A full list takes
// no more. These calls stand beside those of output.rt and not in one trait with them: a list cuts a text and
// never fails, a writer fails and says what it has taken.
ghost use Rattle.std.specs.Prelude.{◌≡◌, ◌++◌};
ghost use Rattle.printing.specs.Digits.{decimal, hex_digit, hex_digits, signed_digits};
ghost use Rattle.printing.specs.Placing.{text_placed, after_text};

use crate::digits::digits_of;
use itoa::Buffer;

// internal: a text, as much of it as has room.
pub fn put(out: &mut [u8], at: usize, text: &[u8]) -> usize
    ensures value { result ≡ after_text out.old at text.now }
    ensures out_after { out.new ≡ text_placed out.old at text.now }
{
    if out.len() <= at {
        return at;
    }
    let room = out.len() - at;
    let fits = fields::part(text, 0, room);
    let n = fits.len();
    fields::copy_to(fits, out, at);
    at + n
}

// internal: the decimal digits of a number. Where all have room, they are made in their place: a copy of them
// would take longer.
pub fn put_number(out: &mut [u8], at: usize, n: u64) -> usize
    ensures value { result ≡ after_text out.old at (decimal n) }
    ensures out_after { out.new ≡ text_placed out.old at (decimal n) }
{
    if out.len() <= at {
        return at;
    }
    let count = digits_of(n);
    if count <= out.len() - at {
        itoa::write_digits(n, out, at + count);
        return at + count;
    }
    let mut buffer = Buffer::new();
    put(out, at, buffer.format(n).as_bytes())
}

// internal: a text and a number after it.
pub fn put_after(out: &mut [u8], at: usize, text: &[u8], n: u64) -> usize
    ensures value { result ≡ after_text out.old at (text.now ++ decimal n) }
    ensures out_after { out.new ≡ text_placed out.old at (text.now ++ decimal n) }
{
    let to = put(out, at, text);
    put_number(out, to, n)
}

// The last hex digit of a number. By hand: std writes hex digits to a writer, which cuts a text by other
// rules.
fn hex_digit(n: u8) -> u8
    ensures { result ≡ hex_digit n }
{
    let last = n % 16;
    if last < 10 {
        b'0' + last
    } else {
        b'A' + (last - 10)
    }
}

// internal: the two hex digits of a byte, in upper case.
pub fn hex(byte: u8) -> [u8; 2]
    ensures { result ≡ hex_digits byte }
{
    [hex_digit(byte / 16), hex_digit(byte)]
}

// internal: the two hex digits of a byte, in upper case.
pub fn put_hex(out: &mut [u8], at: usize, byte: u8) -> usize
    ensures value { result ≡ after_text out.old at (hex_digits byte) }
    ensures out_after { out.new ≡ text_placed out.old at (hex_digits byte) }
{
    put(out, at, &hex(byte))
}

// internal: a minus sign where a number is negative, and its size.
pub fn put_signed(out: &mut [u8], at: usize, v: i32) -> usize
    ensures value { result ≡ after_text out.old at (signed_digits v) }
    ensures out_after { out.new ≡ text_placed out.old at (signed_digits v) }
{
    let mut buffer = Buffer::new();
    put(out, at, buffer.format(v).as_bytes())
}
