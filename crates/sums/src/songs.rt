// The sums of MUS files: the lines that the listing program prints of them.
use printing::print;
use std::io;
use std::io::Write;

// More cells than a voice here has events.
const CELLS: usize = 16;

fn show_voice(out: &mut impl Write, file: &[u8], voice: u32) -> io::Result<()> {
    let mut offsets = [0u32; CELLS];
    let mut jiffies = [0u32; CELLS];
    match events::list(file, voice, 0, &mut offsets, &mut jiffies) {
        Ok(count) => {
            let cells = offsets.iter().zip(&jiffies).take(count);
            for (event, (offset, jiffy)) in cells.enumerate() {
                print(out, format_args!("{voice} {event} {offset} {jiffy}\n"))?;
            }
            Ok(())
        }
        Err(refusal) => print(out, format_args!("{refusal}\n")),
    }
}

fn show_song(out: &mut impl Write, file: &[u8]) -> io::Result<()> {
    match mus::accept(file) {
        Ok(_) => {
            print(out, "voice event place jiffy\n")?;
            show_voice(out, file, 1)?;
            show_voice(out, file, 2)?;
            show_voice(out, file, 3)
        }
        Err(refusal) => print(out, format_args!("{refusal}\n")),
    }
}

// A song as it stands, and with its last byte cut.
fn show_whole_and_cut(out: &mut impl Write, file: &[u8]) -> io::Result<()> {
    show_song(out, file)?;
    if let Some((_, cut)) = file.split_last() {
        show_song(out, cut)?;
    }
    Ok(())
}

pub fn show_sums(out: &mut impl Write) -> io::Result<()> {
    // the paper's 28 bytes
    show_whole_and_cut(
        out,
        b"\x00\x09\x0A\x00\x02\x00\x02\x00\x06\x78\x36\x03\x20\x94\x01\x0F\x01\x4F\x01\x4F\x01\x4F\x0D\x0D\x0D\x0D\x0D\x00",
    )?;
    // voice 1 has eight plain 64ths, at the tempo that it starts with
    show_song(
        out,
        b"\x00\x09\x12\x00\x02\x00\x02\x00\x20\x94\x20\x94\x20\x94\x20\x94\x20\x94\x20\x94\x20\x94\x20\x94\x01\x4F\
        \x01\x4F\x01\x4F\x0D\x0D\x0D\x0D\x0D\x00",
    )
}
