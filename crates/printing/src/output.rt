// Text to a writer, such as standard output. Each call appends its text and answers how long that is. Where a
// write fails, its error is the answer, and the writer has taken a first part of the text and nothing else.
ghost use Rattle.std.specs.Prelude.{◌≡◌, ◌<◌, ◌≤◌, ◌++◌, length, take, IfOk, OnOk, OnErr};
ghost use Rattle.std.specs.Io.KnownBytes.{Appends, Keeps};
ghost use Rattle.printing.specs.Digits.{decimal, hex_digits, signed_digits, refusal_digits};
ghost use Rattle.printing.specs.Writing.{TakesPart, AppendsFailure, TakesPartOfFailure};

use crate::text::hex;
use itoa::Buffer;
use std::io::{Error, ErrorKind, Write};
use std::{io, str};

// One write of a text that is not empty. It is tried again where a signal interrupts it.
fn write_some<W: Write>(out: &mut W, text: &[u8]) -> io::Result<usize>
    ensures bound { IfOk result (λ n. n ≤ length text.now) }
    ensures some { IfOk result (λ n. 0 < n) }
    ensures written { IfOk result (λ n.
        Appends (W.contents out.old) (W.contents out.new) (take n text.now)) }
    ensures kept { OnErr result (Keeps (W.contents out.old) (W.contents out.new)) }
{
    for _ in 0..u64::MAX {
        match out.write(text) {
            Ok(0) => return Err(Error::from(ErrorKind::WriteZero)),
            Ok(n) => return Ok(n),
            Err(error) => {
                if error.kind() != ErrorKind::Interrupted {
                    return Err(error);
                }
            }
        }
    }
    Err(Error::from(ErrorKind::TimedOut))
}

// internal: a text. A loop over single writes: std's write_all does not say what a writer that fails has
// taken.
pub fn write<W: Write>(out: &mut W, text: &[u8]) -> io::Result<usize>
    ensures value { IfOk result (λ k. k ≡ length text.now) }
    ensures written { OnOk result (Appends (W.contents out.old) (W.contents out.new) text.now) }
    ensures failed { OnErr result (TakesPart (W.contents out.old) (W.contents out.new) text.now) }
{
    let mut done = 0;
    while done < text.len() {
        done += write_some(out, &text[done..])?;
    }
    Ok(done)
}

// internal: the decimal digits of a number.
pub fn write_number<W: Write>(out: &mut W, n: u64) -> io::Result<usize>
    ensures value { IfOk result (λ k. k ≡ length (decimal n)) }
    ensures written { OnOk result (Appends (W.contents out.old) (W.contents out.new) (decimal n)) }
    ensures failed { OnErr result (TakesPart (W.contents out.old) (W.contents out.new) (decimal n)) }
{
    let mut buffer = Buffer::new();
    write(out, buffer.format(n).as_bytes())
}

// internal: a text and a number after it. Answers how long the number is.
pub fn write_after<W: Write>(out: &mut W, text: &[u8], n: u64) -> io::Result<usize>
    ensures value { IfOk result (λ k. k ≡ length (decimal n)) }
    ensures written { OnOk result
        (Appends (W.contents out.old) (W.contents out.new) (text.now ++ decimal n)) }
    ensures failed { OnErr result
        (TakesPart (W.contents out.old) (W.contents out.new) (text.now ++ decimal n)) }
{
    write(out, text)?;
    write_number(out, n)
}

// internal: the two hex digits of a byte, in upper case.
pub fn write_hex<W: Write>(out: &mut W, byte: u8) -> io::Result<usize>
    ensures value { IfOk result (λ k. k ≡ length (hex_digits byte)) }
    ensures written { OnOk result (Appends (W.contents out.old) (W.contents out.new) (hex_digits byte)) }
    ensures failed { OnErr result (TakesPart (W.contents out.old) (W.contents out.new) (hex_digits byte)) }
{
    write(out, &hex(byte))
}

// internal: a minus sign where a number is negative, and its size.
pub fn write_signed<W: Write>(out: &mut W, v: i32) -> io::Result<usize>
    ensures value { IfOk result (λ k. k ≡ length (signed_digits v)) }
    ensures written { OnOk result (Appends (W.contents out.old) (W.contents out.new) (signed_digits v)) }
    ensures failed { OnErr result (TakesPart (W.contents out.old) (W.contents out.new) (signed_digits v)) }
{
    let mut buffer = Buffer::new();
    write(out, buffer.format(v).as_bytes())
}

// internal: a refusal's number and place, a space between them.
pub fn write_refusal<W: Write>(out: &mut W, number: u32, place: usize) -> io::Result<usize>
    ensures value { IfOk result (λ k. k ≡ length (refusal_digits number place)) }
    ensures written { OnOk result
        (Appends (W.contents out.old) (W.contents out.new) (refusal_digits number place)) }
    ensures failed { OnErr result
        (TakesPart (W.contents out.old) (W.contents out.new) (refusal_digits number place)) }
{
    let first = write_number(out, number as u64)?;
    Ok(first + 1 + write_after(out, b" ", place as u64)?)
}

// More bytes than std writes of an error.
const WORDS_MAX: usize = 300;

// The machine's words for an error number, in a list that is lent for them. std sets the number after them.
fn words_of(error: i32, out: &mut [u8; WORDS_MAX]) -> &[u8] {
    let mut room = &mut out[..];
    let _ = write!(room, "{}", Error::from_raw_os_error(error));
    let n = WORDS_MAX.saturating_sub(room.len());
    let text = str::from_utf8(&out[..n]).unwrap_or("");
    match text.split_once(" (os error ") {
        Some((words, _)) => words.as_bytes(),
        None => text.as_bytes(),
    }
}

// internal: a line of what failed, a colon, and the machine's words for the error number.
pub fn write_failure<W: Write>(out: &mut W, what: &[u8], error: i32) -> io::Result<()>
    ensures written { OnOk result (AppendsFailure (W.contents out.old) (W.contents out.new) what.now) }
    ensures failed { OnErr result
        (TakesPartOfFailure (W.contents out.old) (W.contents out.new) what.now) }
{
    let mut list = [0u8; WORDS_MAX];
    let words = words_of(error, &mut list);
    write(out, what)?;
    write(out, b": ")?;
    write(out, words)?;
    write(out, b"\n")?;
    Ok(())
}
