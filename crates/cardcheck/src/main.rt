// Checks the files of a card before it is pressed. Each argument names a file; a line says what the file is,
// and that the panel takes it or why not. The last line counts them.
#![tactic(auto)]

use card::Judged;
use files::{LoadError, errors};
use printing::{print, write};
use refusals::Refusal;
use std::env::{Env, FillError};
use std::io;
use std::io::Write;
use std::rt::Files;

mod lines;
mod text;

// What came of a file.
#[derive(Clone, Copy)]
enum Checked {
    Accepted,
    Refused,
    Unreadable,
}

// Longer than any path that can be opened.
const NAME: usize = 8192;

// One byte more than the longest SAP file that is looked at. What is cut off of any other file changes no
// answer: the law `judged-held` of crates/card/specs/CutOff.antt.
const FILE: usize = 131073;

// The end of a line of a file that is none of the four kinds.
fn refuse_other(out: &mut impl Write, file: &[u8], x: Refusal) -> io::Result<()> {
    let empty = if file.is_empty() { " empty," } else { "" };
    print(
        out,
        format_args!(":{empty} neither PSID, RSID, SAP nor MUS (as MUS refused "),
    )?;
    lines::refusal(out, x)?;
    print(out, ")")
}

// The end of a line of a file that is refused.
fn refuse(out: &mut impl Write, file: &[u8], judged: Judged) -> io::Result<Checked> {
    match judged {
        Judged::RefusedTune(kind, x) => {
            print(out, format_args!(": {} refused ", lines::format_of(kind)))?;
            lines::refusal(out, x)?;
        }
        Judged::RefusedSap(x) => {
            print(out, ": SAP refused ")?;
            lines::refusal(out, x)?;
        }
        Judged::RefusedSong(x) => {
            print(out, ": MUS refused ")?;
            lines::refusal_in_song(out, file, x)?;
        }
        Judged::Neither(x) => refuse_other(out, file, x)?,
        Judged::Tune(_) | Judged::Sap(_) | Judged::Song(_) => {}
    }
    print(out, "\n")?;
    Ok(Checked::Refused)
}

fn check_file(out: &mut impl Write, name: &[u8], file: &[u8]) -> io::Result<Checked> {
    text::show_name(out, name)?;
    let judged = card::judge(file);
    match judged {
        Judged::Tune(h) => lines::tune(out, file, h)?,
        Judged::Sap(h) => lines::sap(out, file, h)?,
        Judged::Song(song) => lines::song(out, file, song)?,
        _ => return refuse(out, file, judged),
    }
    Ok(Checked::Accepted)
}

// A file that is not opened or not read, and why.
fn cannot(out: &mut impl Write, name: &[u8], what: &str, error: i32) -> io::Result<Checked> {
    text::show_name(out, name)?;
    print(out, what)?;
    write(out, lines::error_words(error))?;
    print(out, "\n")?;
    Ok(Checked::Unreadable)
}

// What was read of a file. Of a SAP file of which only a part is there no answer is given for the whole.
fn check_read(out: &mut impl Write, name: &[u8], file: &[u8]) -> io::Result<Checked> {
    if !card::is_cut_sap(file, FILE) {
        return check_file(out, name, file);
    }
    let what = "SAP not looked at: over 131,072 bytes, more than cardcheck holds";
    text::show_name(out, name)?;
    print(out, format_args!(": {what}\n"))?;
    Ok(Checked::Unreadable)
}

fn check_named(rt: &impl Files, out: &mut impl Write, name: &[u8]) -> io::Result<Checked> {
    let mut file = [0u8; FILE];
    match files::read_file(rt, name, &mut file) {
        Ok(len) => check_read(out, name, fields::part(&file, 0, len)),
        Err(LoadError::NotOpened(error)) => cannot(out, name, ": cannot be opened: ", error),
        Err(LoadError::NotRead(error)) => cannot(out, name, ": cannot be read: ", error),
    }
}

// Checks the file that argument i names. None: there is no such argument.
fn check_argument(
    rt: &(impl Env + Files),
    out: &mut impl Write,
    i: usize,
) -> io::Result<Option<Checked>> {
    let mut name = [0u8; NAME];
    match rt.arg(i, &mut name) {
        Ok(n) => Ok(Some(check_named(rt, out, fields::part(&name, 0, n))?)),
        Err(FillError::NotPresent) => Ok(None),
        Err(FillError::TooLong) => {
            // its first bytes are there
            let start = fields::part(&name, 0, 64);
            let why = "..: cannot be opened: ";
            Ok(Some(cannot(out, start, why, errors::ENAMETOOLONG)?))
        }
    }
}

fn check_all(rt: &(impl Env + Files), out: &mut impl Write) -> io::Result<()> {
    let mut accepted = 0;
    let mut refused = 0;
    let mut unreadable = 0;
    for i in 1..usize::MAX {
        match check_argument(rt, out, i)? {
            Some(Checked::Accepted) => accepted += 1,
            Some(Checked::Refused) => refused += 1,
            Some(Checked::Unreadable) => unreadable += 1,
            None => break,
        }
    }
    lines::total(out, accepted, refused, unreadable)
}

fn main(rt: HostRuntime) -> io::Result<()> {
    let mut out = rt.stdout();
    if files::arg(&rt, 1, &mut []).is_none() {
        return lines::usage(&mut out);
    }
    check_all(&rt, &mut out)
}
