// Runs the hand-made files of data/ through accept and text_line, and shows every answer, a line a file.
// tools/musvectors makes the files and says what each must give.
#![tactic(auto)]

use files::LoadError;
use mus::{Song, Voice};
use printing::{print, write, write_failure};
use std::io;
use std::io::Write;

fn show_voice(out: &mut impl Write, number: u32, v: Voice) -> io::Result<()> {
    print(
        out,
        format_args!(
            " v{number} {} {} {} {}",
            v.offset, v.length, v.events, v.walked
        ),
    )
}

fn show_song(out: &mut impl Write, song: Song) -> io::Result<()> {
    print(out, format_args!(" accepted load {}", song.load))?;
    show_voice(out, 1, song.voice1)?;
    show_voice(out, 2, song.voice2)?;
    show_voice(out, 3, song.voice3)?;
    print(out, " lines")?;
    for line in [song.line1, song.line2, song.line3, song.line4, song.line5] {
        print(out, format_args!(" {} {}", line.from, line.len))?;
    }
    Ok(())
}

// A text line in brackets, which hold nothing where there is no such line and where the file is refused.
fn show_text(out: &mut impl Write, file: &[u8], number: u64) -> io::Result<()> {
    print(out, "[")?;
    if let Ok(Some(line)) = mus::text_line(file, number) {
        write(out, fields::span_part(file, line))?;
    }
    print(out, "]")
}

// What numbers 0 to 6, one that is 1 in 32 bits, and the type's greatest give: only 1 to 5 are lines.
fn show_texts(out: &mut impl Write, file: &[u8]) -> io::Result<()> {
    print(out, " text ")?;
    for number in [0, 1, 2, 3, 4, 5, 6, 4294967297, u64::MAX] {
        show_text(out, file, number)?;
    }
    Ok(())
}

fn report(out: &mut impl Write, name: &[u8], file: &[u8]) -> io::Result<()> {
    write(out, name)?;
    match mus::accept(file) {
        Ok(song) => show_song(out, song)?,
        Err(refusal) => print(out, format_args!(" refused {refusal}"))?,
    }
    show_texts(out, file)?;
    print(out, "\n")
}

// Reports the file that argument i names. Answers whether there is such an argument.
fn report_argument(rt: &HostRuntime, i: usize) -> io::Result<bool> {
    let mut name = [0u8; 64];
    let mut file = [0u8; 66000];
    let Some(n) = files::arg(rt, i, &mut name) else {
        return Ok(false);
    };
    match files::read_file(rt, &name[..n], &mut file) {
        Ok(len) => report(&mut rt.stdout(), &name[..n], fields::part(&file, 0, len))?,
        Err(LoadError::NotOpened(error) | LoadError::NotRead(error)) => {
            write_failure(&mut rt.stderr(), &name[..n], error)?
        }
    }
    Ok(true)
}

fn main(rt: HostRuntime) -> io::Result<()> {
    for i in 1..usize::MAX {
        if !report_argument(&rt, i)? {
            break;
        }
    }
    Ok(())
}
