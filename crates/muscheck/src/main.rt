// Shows a Sidplayer MUS file on standard input as accepted, with its load address, voices and text lines, or
// the refusal's number and place.
#![tactic(auto)]

use mus::{Song, Voice};
use printing::{print, write};
use std::io;
use std::io::Write;

// A line of a voice: the file offset of its first pair, its pairs, and what acceptance reports of it.
fn voice_line(out: &mut impl Write, number: u32, v: Voice) -> io::Result<()> {
    let pairs = v.length / 2;
    print(
        out,
        format_args!(
            "voice {number} offset {} pairs {pairs} events {} walked {}\n",
            v.offset, v.events, v.walked
        ),
    )
}

fn show_song(out: &mut impl Write, song: Song) -> io::Result<()> {
    print(out, format_args!("load {}\n", song.load))?;
    voice_line(out, 1, song.voice1)?;
    voice_line(out, 2, song.voice2)?;
    voice_line(out, 3, song.voice3)
}

// The text lines, a line each, as their bytes are.
fn show_text(out: &mut impl Write, file: &[u8], song: Song) -> io::Result<()> {
    for line in [song.line1, song.line2, song.line3, song.line4, song.line5] {
        print(out, "text ")?;
        write(out, fields::span_part(file, line))?;
        print(out, "\n")?;
    }
    Ok(())
}

fn report(out: &mut impl Write, file: &[u8]) -> io::Result<()> {
    match mus::accept(file) {
        Ok(song) => {
            show_song(out, song)?;
            show_text(out, file, song)
        }
        Err(refusal) => print(out, format_args!("{refusal}\n")),
    }
}

fn main(rt: HostRuntime) -> io::Result<()> {
    // longer than any accepted file, so that what is cut off changes no answer: past 65,536 bytes every file
    // is refused 22
    let mut file = [0u8; 66000];
    let n = files::read_full(&mut rt.stdin(), &mut file)?;
    report(&mut rt.stdout(), &file[..n])
}
