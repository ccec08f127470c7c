// Shows what a SAP file on standard input says of itself, or the refusal's number and place. A file of more
// bytes than the program holds is not looked at, and the one line that it then prints says so.
#![tactic(auto)]

use fields::Span;
use printing::{print, write};
use sapblocks::{Block, Found};
use sapheader::{Header, Player};
use std::io;
use std::io::Write;

// One more byte than a file that is looked at has, to see that there are more.
const ROOM: usize = 131073;

fn show_type(out: &mut impl Write, player: Player) -> io::Result<()> {
    let letter = match player {
        Player::B(_) => 'B',
        Player::C(_) => 'C',
        Player::D(_) => 'D',
        Player::S(_) => 'S',
    };
    print(out, format_args!("type {letter}\n"))
}

// A line of a word and a text as its bytes are, where there is such a text.
fn text_line(out: &mut impl Write, word: &str, file: &[u8], place: Option<Span>) -> io::Result<()> {
    if let Some(span) = place {
        print(out, format_args!("{word} "))?;
        write(out, fields::span_part(file, span))?;
        print(out, "\n")?;
    }
    Ok(())
}

fn show_texts(out: &mut impl Write, file: &[u8], h: Header) -> io::Result<()> {
    text_line(out, "author", file, h.author)?;
    text_line(out, "name", file, h.name)?;
    text_line(out, "date", file, h.date)
}

fn show_numbers(out: &mut impl Write, h: Header) -> io::Result<()> {
    print(out, format_args!("songs {}\n", h.songs))?;
    print(out, format_args!("default {}\n", h.default))?;
    print(out, format_args!("stereo {}\n", h.stereo as u8))?;
    print(out, format_args!("ntsc {}\n", h.ntsc as u8))?;
    print(out, format_args!("covox {}\n", h.covox as u8))?;
    print(out, format_args!("fastplay {}\n", h.fastplay))
}

fn show_addresses(out: &mut impl Write, player: Player) -> io::Result<()> {
    match player {
        Player::B(a) => print(out, format_args!("init {}\nplayer {}\n", a.init, a.player)),
        Player::C(a) => print(
            out,
            format_args!("music {}\nplayer {}\n", a.music, a.player),
        ),
        Player::D(a) => {
            print(out, format_args!("init {}\n", a.init))?;
            match a.player {
                Some(address) => print(out, format_args!("player {address}\n")),
                None => Ok(()),
            }
        }
        Player::S(a) => print(out, format_args!("init {}\n", a.init)),
    }
}

// A line for each TIME. Of an accepted file there are no more than songs.
fn show_times(out: &mut impl Write, file: &[u8], times: u64) -> io::Result<()> {
    for song in 0..times {
        if let Ok(Some(time)) = sapparts::time(file, song) {
            print(
                out,
                format_args!("time {} {}\n", time.milliseconds, time.looped as u8),
            )?;
        }
    }
    Ok(())
}

fn show_block(out: &mut impl Write, block: Block) -> io::Result<()> {
    print(
        out,
        format_args!("block {} {} {}\n", block.start, block.end, block.from),
    )
}

// A line for each block, from the first FF FF on. Of an accepted file none is bad. No index is counted: each
// block says where the next begins.
fn show_blocks(out: &mut impl Write, file: &[u8], first: usize) -> io::Result<()> {
    let mut at = first;
    while let Some(found) = sapblocks::block_at(file, at) {
        match found {
            Found::Marker(next) => at = next,
            Found::Whole(block, next) => {
                show_block(out, block)?;
                at = next;
            }
        }
    }
    Ok(())
}

fn show(out: &mut impl Write, file: &[u8], h: Header) -> io::Result<()> {
    show_type(out, h.player)?;
    show_texts(out, file, h)?;
    show_numbers(out, h)?;
    show_addresses(out, h.player)?;
    show_times(out, file, h.times as u64)?;
    show_blocks(out, file, h.first)
}

fn report(out: &mut impl Write, file: &[u8]) -> io::Result<()> {
    match sap::read(file) {
        Ok(h) => show(out, file, h),
        Err(refusal) => print(out, format_args!("{refusal}\n")),
    }
}

fn main(rt: HostRuntime) -> io::Result<()> {
    let mut out = rt.stdout();
    let mut file = [0u8; ROOM];
    let n = files::read_full(&mut rt.stdin(), &mut file)?;
    if n == ROOM {
        return print(
            &mut out,
            "not looked at: over 131,072 bytes, more than sapinfo holds\n",
        );
    }
    report(&mut out, &file[..n])
}
