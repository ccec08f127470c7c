// Runs the hand-made files of data/ through read, load, speed_of_song and song_speed, and shows every answer.
// tools/sidvectors makes the files and says what each must give.
#![tactic(auto)]

use files::LoadError;
use printing::{print, write, write_failure};
use refusals::Refusal;
use sid::{Header, Kind};
use std::io;
use std::io::Write;
use tune::Piece;

// What a cell of memory holds before a load; no payload has this byte.
const EMPTY: u8 = 0xA5;

// The end of a line with the cells that a load has changed: the first, how many, and the sum of what they
// hold.
fn show_cells(out: &mut impl Write, memory: &[u8]) -> io::Result<()> {
    let first = memory.iter().position(|&cell| cell != EMPTY).unwrap_or(0);
    let mut count: usize = 0;
    let mut sum: usize = 0;
    for &cell in fields::part(memory, first, memory.len()) {
        if cell != EMPTY {
            count = count.wrapping_add(1);
            sum = sum.wrapping_add(cell as usize);
        }
    }
    print(out, format_args!(" cells {first} {count} {sum}\n"))
}

fn show_player(out: &mut impl Write, h: Header) -> io::Result<()> {
    let format = match h.kind {
        Kind::Psid => "PSID",
        Kind::Rsid => "RSID",
    };
    print(
        out,
        format_args!(" accepted {format} version {}", h.version),
    )?;
    print(
        out,
        format_args!(" load {} init {} play {}", h.load, h.init, h.play),
    )?;
    print(
        out,
        format_args!(" songs {} start {} speed {}", h.songs, h.start, h.speed),
    )
}

fn show_parts(out: &mut impl Write, h: Header) -> io::Result<()> {
    print(
        out,
        format_args!(" basic {} clock {}", h.basic as u8, h.clock),
    )?;
    print(
        out,
        format_args!(" model {} pages {} {}", h.model, h.page, h.pages),
    )?;
    print(out, format_args!(" title {} {}", h.title.from, h.title.len))?;
    print(
        out,
        format_args!(" author {} {}", h.author.from, h.author.len),
    )?;
    print(
        out,
        format_args!(" released {} {}", h.released.from, h.released.len),
    )?;
    print(
        out,
        format_args!(" payload {} {}", h.payload.from, h.payload.len),
    )
}

fn show_reading(out: &mut impl Write, answer: Result<Header, Refusal>) -> io::Result<()> {
    match answer {
        Ok(h) => {
            show_player(out, h)?;
            show_parts(out, h)
        }
        Err(refusal) => print(out, format_args!(" refused {refusal}")),
    }
}

// A line for a load into a memory that is not of 65,536 cells, or that is.
fn load_line(out: &mut impl Write, name: &[u8], file: &[u8], memory: &mut [u8]) -> io::Result<()> {
    let answer = sidload::load(file, memory);
    write(out, name)?;
    print(out, format_args!(" memory {}", memory.len()))?;
    match answer {
        Ok(_) => print(out, " loaded")?,
        Err(refusal) => print(out, format_args!(" refused {refusal}"))?,
    }
    show_cells(out, memory)
}

// The songs that a line of speeds asks for, each after its word; of a file of so many songs the last two.
fn asked(songs: u16) -> [(&'static str, u64); 10] {
    [
        ("0", 0),
        ("1", 1),
        ("2", 2),
        ("3", 3),
        ("31", 31),
        ("32", 32),
        ("33", 33),
        ("last", songs as u64),
        ("next", songs as u64 + 1),
        ("greatest", u64::MAX),
    ]
}

// A song's speed bit, or the refusal's number.
fn show_speed(out: &mut impl Write, word: &str, answer: Result<u32, Refusal>) -> io::Result<()> {
    match answer {
        Ok(bit) => print(out, format_args!(" {word}: {bit}")),
        Err(refusal) => print(out, format_args!(" {word}: {}", refusal.reason.number())),
    }
}

// A line with the speed bits of songs, or the refusal's number.
fn song_line(out: &mut impl Write, name: &[u8], file: &[u8], songs: u16) -> io::Result<()> {
    write(out, name)?;
    print(out, " song")?;
    for (word, song) in asked(songs) {
        show_speed(out, word, sidspeed::speed_of_song(file, song))?;
    }
    print(out, "\n")
}

// The same line by the header in hand.
fn header_line(out: &mut impl Write, name: &[u8], h: Header, songs: u16) -> io::Result<()> {
    write(out, name)?;
    print(out, " header")?;
    for (word, song) in asked(songs) {
        show_speed(out, word, sid::song_speed(h, song))?;
    }
    print(out, "\n")
}

// The end of a line with the parts of a file: the texts in brackets, and the payload's length.
fn show_pieces(
    out: &mut impl Write,
    title: &[u8],
    author: &[u8],
    released: &[u8],
    payload: &[u8],
) -> io::Result<()> {
    print(out, " [")?;
    write(out, title)?;
    print(out, "] [")?;
    write(out, author)?;
    print(out, "] [")?;
    write(out, released)?;
    print(out, format_args!("] payload {}\n", payload.len()))
}

// A line with the parts of a file, by the spans of its header.
fn piece_line(out: &mut impl Write, name: &[u8], file: &[u8], h: Header) -> io::Result<()> {
    write(out, name)?;
    print(out, " pieces")?;
    show_pieces(
        out,
        fields::span_part(file, h.title),
        fields::span_part(file, h.author),
        fields::span_part(file, h.released),
        fields::span_part(file, h.payload),
    )
}

// A line with the parts of a tune, of a file's first n bytes and the header of the whole.
fn tune_line(
    out: &mut impl Write,
    name: &[u8],
    file: &[u8],
    h: Header,
    n: usize,
) -> io::Result<()> {
    let cut = fields::part(file, 0, n);
    write(out, name)?;
    print(out, format_args!(" tune {n}"))?;
    show_pieces(
        out,
        tune::shown(cut, h, Piece::Title),
        tune::shown(cut, h, Piece::Author),
        tune::shown(cut, h, Piece::Released),
        tune::shown(cut, h, Piece::Payload),
    )
}

// The parts of a file by its header, then those of its tune, whole and cut within the payload, the author and
// the title, and before them.
fn show_tunes(out: &mut impl Write, name: &[u8], file: &[u8], h: Header) -> io::Result<()> {
    piece_line(out, name, file, h)?;
    for n in [file.len(), 128, 60, 24, 22] {
        tune_line(out, name, file, h, n)?;
    }
    Ok(())
}

// The lines that only the first two files have: loads into memories of other sizes.
fn report_more(out: &mut impl Write, name: &[u8], file: &[u8]) -> io::Result<()> {
    let mut none = [EMPTY; 0];
    let mut less = [EMPTY; 65535];
    let mut more = [EMPTY; 65537];
    load_line(out, name, file, &mut none)?;
    load_line(out, name, file, &mut less)?;
    load_line(out, name, file, &mut more)
}

// A file's answers. Songs are asked for where there are several, and of a file of the first two that is
// refused.
fn report(out: &mut impl Write, name: &[u8], file: &[u8], first_two: bool) -> io::Result<()> {
    let mut memory = [EMPTY; 65536];
    let answer = sid::read(file);
    write(out, name)?;
    show_reading(out, answer)?;
    print(out, "\n")?;
    load_line(out, name, file, &mut memory)?;
    if first_two {
        report_more(out, name, file)?;
    }
    match answer {
        Ok(h) => {
            let songs = h.songs;
            if 1 < songs {
                song_line(out, name, file, songs)?;
                header_line(out, name, h, songs)?;
            }
            if first_two {
                show_tunes(out, name, file, h)?;
            }
        }
        Err(_) => {
            if first_two {
                song_line(out, name, file, 1)?;
            }
        }
    }
    Ok(())
}

// Reports the file that argument i names. Answers whether there is such an argument.
fn report_argument(rt: &HostRuntime, i: usize) -> io::Result<bool> {
    let mut name = [0u8; 64];
    let mut file = [0u8; 66000];
    let Some(n) = files::arg(rt, i, &mut name) else {
        return Ok(false);
    };
    match files::read_file(rt, &name[..n], &mut file) {
        Ok(len) => report(
            &mut rt.stdout(),
            &name[..n],
            fields::part(&file, 0, len),
            i <= 2,
        )?,
        Err(LoadError::NotOpened(error) | LoadError::NotRead(error)) => {
            write_failure(&mut rt.stderr(), &name[..n], error)?
        }
    }
    Ok(true)
}

fn main(rt: HostRuntime) -> io::Result<()> {
    for i in 1..usize::MAX {
        if !report_argument(&rt, i)? {
            break;
        }
    }
    Ok(())
}
