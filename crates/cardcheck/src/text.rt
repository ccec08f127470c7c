// What is written, so that no byte of a file or a name upsets a terminal.
use printing::{print, write};
use std::io;
use std::io::Write;

// A byte of a text: a letter, digit or sign of ASCII as it is, any other as \xNN.
fn show_byte(out: &mut impl Write, byte: u8) -> io::Result<()> {
    if (0x20 <= byte) & (byte <= 0x7E) & (byte != b'\\') {
        print(out, byte as char)
    } else {
        print(out, format_args!("\\x{byte:02X}"))
    }
}

// A text, byte by byte: no text that `print` takes at once is as long as a file's or a name's can be.
pub fn show(out: &mut impl Write, text: &[u8]) -> io::Result<()> {
    for &byte in text {
        show_byte(out, byte)?;
    }
    Ok(())
}

// A file's name, which a line begins with; of one that has no letter the quotation marks.
pub fn show_name(out: &mut impl Write, name: &[u8]) -> io::Result<()> {
    if name.is_empty() {
        print(out, "\"\"")
    } else {
        show(out, name)
    }
}

// A text in quotation marks.
pub fn quote(out: &mut impl Write, text: &[u8]) -> io::Result<()> {
    print(out, "\"")?;
    show(out, text)?;
    print(out, "\"")
}
