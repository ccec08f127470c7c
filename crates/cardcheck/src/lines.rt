// What a line says of a file.
ghost use Rattle.std.specs.Prelude.{◌≡◌, [], get_or};
ghost use Rattle.cardcheck.specs.Errors.{error_texts};

use crate::text;
use files::errors;
use mus::Song;
use printing::{print, write};
use refusals::{Reason, Refusal};
use sapheader::Player;
use sid::{Header, Kind};
use std::io;
use std::io::Write;

pub fn format_of(kind: Kind) -> &'static str {
    match kind {
        Kind::Psid => "PSID",
        Kind::Rsid => "RSID",
    }
}

fn songs_word(n: u32) -> &'static str {
    if n == 1 { "song" } else { "songs" }
}

// A tune that is accepted: its name, by whom it is, and the cells that it fills, from the first to the last.
pub fn tune(out: &mut impl Write, file: &[u8], h: Header) -> io::Result<()> {
    let first = h.load as usize;
    let last = first.wrapping_add(h.payload.len).wrapping_sub(1) % 65536;
    print(out, format_args!(": {} accepted: ", format_of(h.kind)))?;
    text::quote(out, fields::span_part(file, h.title))?;
    print(out, " by ")?;
    text::quote(out, fields::span_part(file, h.author))?;
    print(
        out,
        format_args!(", {} {}, ", h.songs, songs_word(h.songs as u32)),
    )?;
    print(out, format_args!("loads to ${first:04X}-${last:04X}\n"))
}

// The letter of a SAP file's type.
fn letter(player: Player) -> char {
    match player {
        Player::B(_) => 'B',
        Player::C(_) => 'C',
        Player::D(_) => 'D',
        Player::S(_) => 'S',
    }
}

// A SAP file that is accepted.
pub fn sap(out: &mut impl Write, file: &[u8], h: sapheader::Header) -> io::Result<()> {
    print(out, ": SAP accepted: ")?;
    match h.name {
        Some(place) => text::quote(out, fields::span_part(file, place))?,
        None => print(out, "no name")?,
    }
    match h.author {
        Some(place) => {
            print(out, " by ")?;
            text::quote(out, fields::span_part(file, place))?;
        }
        None => print(out, ", no author")?,
    }
    print(out, format_args!(", type {}, ", letter(h.player)))?;
    print(out, format_args!("{} {}\n", h.songs, songs_word(h.songs)))
}

// A song that is accepted.
pub fn song(out: &mut impl Write, file: &[u8], s: Song) -> io::Result<()> {
    print(
        out,
        format_args!(": MUS accepted: voices of {}", s.voice1.events),
    )?;
    print(out, format_args!(", {}", s.voice2.events))?;
    print(out, format_args!(" and {} events, ", s.voice3.events))?;
    text::quote(out, fields::span_part(file, s.line1))?;
    print(out, "\n")
}

// A reason in words.
fn phrase(out: &mut impl Write, reason: Reason) -> io::Result<()> {
    let mut words = [0u8; 80];
    let n = reasons::reason(reason.number(), &mut words);
    write(out, fields::part(&words, 0, n))?;
    Ok(())
}

// A refusal's number, place and reason.
pub fn refusal(out: &mut impl Write, x: Refusal) -> io::Result<()> {
    print(
        out,
        format_args!("{} at place {}: ", x.reason.number(), x.place),
    )?;
    phrase(out, x.reason)
}

// The same in a song: the place of 27 to 31 names a pair, whose bytes are shown.
pub fn refusal_in_song(out: &mut impl Write, file: &[u8], x: Refusal) -> io::Result<()> {
    match x.reason {
        Reason::UnassignedPair
        | Reason::ValueRange
        | Reason::HltMisplaced
        | Reason::Structure
        | Reason::HedZero => {
            let first = fields::byte_at(file, x.place);
            let second = fields::byte_at(file, x.place.wrapping_add(1));
            print(
                out,
                format_args!("{} at place {} ", x.reason.number(), x.place),
            )?;
            print(out, format_args!("({first:02X} {second:02X}): "))?;
            phrase(out, x.reason)
        }
        _ => refusal(out, x),
    }
}

// The number of an error's words.
fn words_number(error: i32) -> usize {
    match error {
        errors::ENOENT => 1,
        errors::EACCES => 2,
        errors::EISDIR => 3,
        errors::ENOTDIR => 4,
        errors::ENAMETOOLONG => 5,
        errors::EINVAL => 6,
        errors::ELOOP => 7,
        errors::EIO => 8,
        _ => 0,
    }
}

// The words with a number, from 0 on, of those that say why a file is not opened or not read.
fn words_at(number: usize) -> &'static [u8]
    ensures { result.now ≡ get_or error_texts number [] }
{
    let words = b"the machine does not give it\n\
        there is no such file\n\
        no right to read it\n\
        it is a folder\n\
        a part of its path is no folder\n\
        its name is too long\n\
        its name cannot be a file's\n\
        its links go round in a circle\n\
        the disk or card does not give it\n";
    fields::entry_at(words, b'\n', number)
}

// Why a file is not opened or not read.
pub fn error_words(error: i32) -> &'static [u8] {
    words_at(words_number(error))
}

pub fn usage(out: &mut impl Write) -> io::Result<()> {
    print(
        out,
        "cardcheck reads the music files for a card, PSID, RSID, SAP and Sidplayer MUS, before it is pressed.\n",
    )?;
    print(out, "use: cardcheck FILE..\n")?;
    print(
        out,
        "It prints a line for each file, that the panel takes it or why not, and how many were accepted.\n",
    )
}

// The last line.
pub fn total(
    out: &mut impl Write,
    accepted: usize,
    refused: usize,
    unreadable: usize,
) -> io::Result<()> {
    print(
        out,
        format_args!("{accepted} accepted, {refused} refused, "),
    )?;
    print(out, format_args!("{unreadable} unreadable: "))?;
    if (refused == 0) & (unreadable == 0) {
        print(out, "the card can be pressed\n")
    } else {
        print(
            out,
            "leave out or mend what is not accepted before the card is pressed\n",
        )
    }
}
