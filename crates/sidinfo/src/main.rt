// Shows what a PSID or RSID file on standard input says of itself, or the refusal's number and place.
#![tactic(auto)]

use printing::{print, write};
use sid::{Header, Kind};
use std::io;
use std::io::Write;
use tune::Piece;

fn show_player(out: &mut impl Write, h: Header) -> io::Result<()> {
    let format = match h.kind {
        Kind::Psid => "PSID",
        Kind::Rsid => "RSID",
    };
    print(out, format_args!("format {format}\n"))?;
    print(out, format_args!("version {}\n", h.version))?;
    print(out, format_args!("load {}\n", h.load))?;
    print(out, format_args!("init {}\n", h.init))?;
    print(out, format_args!("play {}\n", h.play))?;
    print(out, format_args!("songs {}\n", h.songs))?;
    print(out, format_args!("start {}\n", h.start))?;
    print(out, format_args!("speed {}\n", h.speed))
}

fn show_flags(out: &mut impl Write, h: Header) -> io::Result<()> {
    print(out, format_args!("basic {}\n", h.basic as u8))?;
    print(out, format_args!("clock {}\n", h.clock))?;
    print(out, format_args!("model {}\n", h.model))?;
    print(out, format_args!("pages {} {}\n", h.page, h.pages))
}

// A line of a word and a text, as its bytes are.
fn text_line(out: &mut impl Write, word: &str, text: &[u8]) -> io::Result<()> {
    print(out, format_args!("{word} "))?;
    write(out, text)?;
    print(out, "\n")
}

fn show_parts(out: &mut impl Write, file: &[u8], h: Header) -> io::Result<()> {
    text_line(out, "title", tune::shown(file, h, Piece::Title))?;
    text_line(out, "author", tune::shown(file, h, Piece::Author))?;
    text_line(out, "released", tune::shown(file, h, Piece::Released))?;
    print(
        out,
        format_args!("payload {} {}\n", h.payload.from, h.payload.len),
    )
}

fn report(out: &mut impl Write, file: &[u8]) -> io::Result<()> {
    match sid::read(file) {
        Ok(h) => {
            show_player(out, h)?;
            show_flags(out, h)?;
            show_parts(out, file, h)
        }
        Err(refusal) => print(out, format_args!("{refusal}\n")),
    }
}

fn main(rt: HostRuntime) -> io::Result<()> {
    // longer than any accepted file, so that what is cut off changes no answer (docs/DECISIONS.md)
    let mut file = [0u8; 66000];
    let n = files::read_full(&mut rt.stdin(), &mut file)?;
    report(&mut rt.stdout(), &file[..n])
}
