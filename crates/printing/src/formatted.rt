// What a value prints, such as a format, to a writer. std's write! does not say what a writer that fails has
// taken, so the text is made first, and `write` writes it.
ghost use Rattle.std.specs.Prelude.{OnOk, OnErr};
ghost use Rattle.printing.specs.Writing.{AppendsPrinted, TakesPartOfPrinted};

use crate::output::write;
use arrayvec::ArrayString;
use std::fmt::Display;
use std::io::Write;
use std::{fmt, io};

// A text of more bytes is not written, and an error is the answer. Programs print no text as long: what a
// file, a name or an argument holds is written by `write`, as its bytes are, or piece by piece.
const TEXT_MAX: usize = 512;

// internal: what a value prints.
pub fn print<W: Write, D: Display + Drop>(out: &mut W, text: D) -> io::Result<()>
    ensures written { OnOk result
        (AppendsPrinted (W.contents out.old) (W.contents out.new) (D.output text)) }
    ensures failed { OnErr result
        (TakesPartOfPrinted (W.contents out.old) (W.contents out.new) (D.output text)) }
{
    let mut line = ArrayString::<TEXT_MAX>::new();
    fmt::Write::write(&mut line, text)?;
    write(out, line.as_str().as_bytes())?;
    Ok(())
}
