// Lines of numbers in a buffer, which is written out when it is nearly full. `printing` puts each number
// straight into its place in the buffer.
use printing::{put, put_after, put_number, write};
use std::io;
use std::io::Write;

const BUFFER: usize = 65536;

// The buffer is written out from here on; no line is as long as what is left of it.
const NEARLY_FULL: usize = 65000;

fn put_line(out: &mut [u8], at: usize, voice: u32, event: u32, place: u32, jiffy: u32) -> usize {
    let a = put_number(out, at, u64::from(voice));
    let b = put_after(out, a, b" ", u64::from(event));
    let c = put_after(out, b, b" ", u64::from(place));
    let d = put_after(out, c, b" ", u64::from(jiffy));
    put(out, d, b"\n")
}

// Shows a window's first events, so many of them, the first with its number.
pub fn show_events(
    to: &mut impl Write,
    voice: u32,
    first: u32,
    count: usize,
    offsets: &[u32],
    jiffies: &[u32],
) -> io::Result<()> {
    let mut out = [0u8; BUFFER];
    let mut used = 0;
    let mut event = first;
    for (&place, &jiffy) in offsets.iter().zip(jiffies).take(count) {
        if NEARLY_FULL < used {
            write(to, fields::part(&out, 0, used))?;
            used = 0;
        }
        used = put_line(&mut out, used, voice, event, place, jiffy);
        event = event.wrapping_add(1);
    }
    write(to, fields::part(&out, 0, used))?;
    Ok(())
}
