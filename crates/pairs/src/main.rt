// Shows what each pair of standard input means and how the writer spells that, a line a pair. An odd last
// byte is no pair and is left out.
#![tactic(auto)]

use commands::{Words, put_words};
use meaning::Bytes;
use printing::{put, put_after, put_hex, write};
use refusals::Refusal;
use std::io;
use std::io::{Read, Write};

mod commands;
mod notes;

// Input is taken in parts of this many bytes: even, so that no pair is cut in two.
const PART: usize = 65536;

// The output's buffer is emptied from here on; no line is as long as what is left of PART bytes.
const NEARLY_FULL: usize = 65000;

fn put_refusal(out: &mut [u8], at: usize, refusal: Refusal) -> usize {
    put_after(out, at, b"refused ", u64::from(refusal.reason.number()))
}

// Two bytes, with a space between.
fn put_bytes(out: &mut [u8], at: usize, bytes: Bytes) -> usize {
    let to = put_hex(out, at, bytes.first);
    let to = put(out, to, b" ");
    put_hex(out, to, bytes.second)
}

// What a pair means, a space, and the writer's bytes for it.
fn put_answer(out: &mut [u8], at: usize, pair: Bytes) -> usize {
    match pair::read(pair.first, pair.second) {
        Ok(meaning) => {
            let to = put_words(out, at, Words::from(meaning));
            let to = put(out, to, b" ");
            match pair::write(meaning) {
                Ok(bytes) => put_bytes(out, to, bytes),
                Err(refusal) => put_refusal(out, to, refusal),
            }
        }
        Err(refusal) => put_refusal(out, at, refusal),
    }
}

fn put_line(out: &mut [u8], at: usize, pair: Bytes) -> usize {
    let to = put_bytes(out, at, pair);
    let to = put(out, to, b" ");
    let to = put_answer(out, to, pair);
    put(out, to, b"\n")
}

fn show_pairs(to: &mut impl Write, input: &[u8], out: &mut [u8]) -> io::Result<()> {
    let mut used = 0;
    for pair in input.chunks_exact(2) {
        if NEARLY_FULL <= used {
            write(to, fields::part(out, 0, used))?;
            used = 0;
        }
        used = put_line(out, used, Bytes::new(pair[0], pair[1]));
    }
    write(to, fields::part(out, 0, used))?;
    Ok(())
}

// Takes one part of the input; answers whether there may be another.
fn show_part(from: &mut impl Read, to: &mut impl Write) -> io::Result<bool> {
    let mut input = [0u8; PART];
    let mut out = [0u8; PART];
    let n = files::read_full(from, &mut input)?;
    show_pairs(to, &input[..n], &mut out)?;
    Ok(n == PART)
}

fn main(rt: HostRuntime) -> io::Result<()> {
    let mut from = rt.stdin();
    let mut to = rt.stdout();
    // nothing proves that input ends; so many parts no input has
    for _ in 0..u64::MAX {
        if !show_part(&mut from, &mut to)? {
            break;
        }
    }
    Ok(())
}
