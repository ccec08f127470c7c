// Lists the events of a Sidplayer MUS file on standard input in played order, a line an event with its voice,
// its number, the file offset of its pair and its jiffy; or shows the refusal's number and place.
#![tactic(auto)]

use mus::Song;
use printing::print;
use std::io;
use std::io::Write;

mod lines;

// A voice is listed a window of so many events at a time. The call walks to each window from the voice's
// start, so windows are to be few: at most 8 for the 1,048,576 pairs that an accepted voice walks.
const WINDOW: usize = 131072;

// Shows a voice's events from number first on, as many as a window holds; answers whether to go on. It stays a
// call of its own, so that a file that is refused needs no room for the two lists.
#[inline(never)]
fn show_window(out: &mut impl Write, file: &[u8], voice: u32, first: u32) -> io::Result<bool> {
    let mut offsets = [0u32; WINDOW];
    let mut jiffies = [0u32; WINDOW];
    match events::list(file, voice, u64::from(first), &mut offsets, &mut jiffies) {
        Ok(count) => {
            lines::show_events(out, voice, first, count, &offsets, &jiffies)?;
            Ok(true)
        }
        // no voice of an accepted file is refused
        Err(refusal) => {
            print(out, format_args!("{refusal}\n"))?;
            Ok(false)
        }
    }
}

// Shows a voice of so many events; answers whether to go on.
fn show_voice(out: &mut impl Write, file: &[u8], voice: u32, events: u32) -> io::Result<bool> {
    for first in (0..events).step_by(WINDOW) {
        if !show_window(out, file, voice, first)? {
            return Ok(false);
        }
    }
    Ok(true)
}

fn show_song(out: &mut impl Write, file: &[u8], song: Song) -> io::Result<()> {
    print(out, "voice event place jiffy\n")?;
    let voices = [
        (1, song.voice1.events),
        (2, song.voice2.events),
        (3, song.voice3.events),
    ];
    for (voice, events) in voices {
        if !show_voice(out, file, voice, events)? {
            break;
        }
    }
    Ok(())
}

fn report(out: &mut impl Write, file: &[u8]) -> io::Result<()> {
    match mus::accept(file) {
        Ok(song) => show_song(out, file, song),
        Err(refusal) => print(out, format_args!("{refusal}\n")),
    }
}

fn main(rt: HostRuntime) -> io::Result<()> {
    // longer than any accepted file, so that what is cut off changes no answer: past 65,536 bytes every file
    // is refused 22
    let mut file = [0u8; 66000];
    let n = files::read_full(&mut rt.stdin(), &mut file)?;
    report(&mut rt.stdout(), &file[..n])
}
