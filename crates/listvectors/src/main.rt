// Runs the calls of args, five words each, through the listing of the files of data/, and shows every answer
// and every lent cell, a line a call. tools/listvectors makes the files and says what each call must give.
#![tactic(auto)]

use files::LoadError;
use printing::{print, write, write_failure};
use refusals::Refusal;
use std::io;
use std::io::Write;

// A call beside its file: of each list, how many cells are lent.
#[derive(Clone, Copy)]
struct Call {
    voice: u32,
    first: u64,
    offsets: u64,
    jiffies: u64,
}

// Puts a number, the next one, and so on into the cells, so that a changed cell shows.
fn mark(cells: &mut [u32], from: u32) {
    let mut value = from;
    for cell in cells {
        *cell = value;
        value = value.wrapping_add(1);
    }
}

fn number(text: &[u8]) -> u64 {
    let mut n: u64 = 0;
    for &digit in text {
        n = n
            .wrapping_mul(10)
            .wrapping_add((digit as u64).wrapping_sub(48));
    }
    n
}

// Argument i, shown with a space before it, as a number.
fn argument(rt: &HostRuntime, out: &mut impl Write, i: usize) -> io::Result<u64> {
    let mut word = [0u8; 32];
    let n = files::arg(rt, i, &mut word).unwrap_or(0);
    print(out, " ")?;
    write(out, &word[..n])?;
    Ok(number(&word[..n]))
}

// The first n of the cells that are lent, or all of them.
fn first_cells(cells: &mut [u32], n: u64) -> &mut [u32] {
    let len = (cells.len() as u64).min(n) as usize;
    &mut cells[..len]
}

// Shows the cells that were lent, and two after them.
fn show_lent(out: &mut impl Write, cells: &mut [u32], n: u64) -> io::Result<()> {
    for cell in first_cells(cells, n.wrapping_add(2)) {
        print(out, format_args!(" {cell}"))?;
    }
    Ok(())
}

// Lists into the first cells of each list.
fn list(
    file: &[u8],
    call: Call,
    offsets: &mut [u32],
    jiffies: &mut [u32],
) -> Result<usize, Refusal> {
    events::list(
        file,
        call.voice,
        call.first,
        first_cells(offsets, call.offsets),
        first_cells(jiffies, call.jiffies),
    )
}

fn run(
    out: &mut impl Write,
    file: &[u8],
    call: Call,
    offsets: &mut [u32],
    jiffies: &mut [u32],
) -> io::Result<()> {
    mark(offsets, 4000000000);
    mark(jiffies, 3000000000);
    match list(file, call, offsets, jiffies) {
        Ok(count) => print(out, format_args!(" count {count}"))?,
        Err(refusal) => print(out, format_args!(" refused {refusal}"))?,
    }
    print(out, " offsets")?;
    show_lent(out, offsets, call.offsets)?;
    print(out, " jiffies")?;
    show_lent(out, jiffies, call.jiffies)?;
    print(out, "\n")
}

// Each list has 48 cells.
fn report(out: &mut impl Write, file: &[u8], call: Call) -> io::Result<()> {
    let mut offsets = [0u32; 48];
    let mut jiffies = [0u32; 48];
    run(out, file, call, &mut offsets, &mut jiffies)
}

// What the arguments after argument i, the file's name, say.
fn call_after(rt: &HostRuntime, out: &mut impl Write, i: usize) -> io::Result<Call> {
    let voice = argument(rt, out, i.wrapping_add(1))?;
    let first = argument(rt, out, i.wrapping_add(2))?;
    let offsets = argument(rt, out, i.wrapping_add(3))?;
    let jiffies = argument(rt, out, i.wrapping_add(4))?;
    Ok(Call {
        voice: (voice % 4294967296) as u32,
        first,
        offsets,
        jiffies,
    })
}

fn report_call(rt: &HostRuntime, name: &[u8], file: &[u8], i: usize) -> io::Result<()> {
    let mut out = rt.stdout();
    write(&mut out, name)?;
    let call = call_after(rt, &mut out, i)?;
    report(&mut out, file, call)
}

// Whether the five arguments from i on are there.
fn has_row(rt: &HostRuntime, i: usize) -> bool {
    files::arg(rt, i.wrapping_add(4), &mut []).is_some()
}

// Reads the file that argument i names, and reports the call of it.
fn report_row(rt: &HostRuntime, i: usize) -> io::Result<()> {
    let mut name = [0u8; 64];
    let mut file = [0u8; 66000];
    let n = files::arg(rt, i, &mut name).unwrap_or(0);
    match files::read_file(rt, &name[..n], &mut file) {
        Ok(len) => report_call(rt, &name[..n], fields::part(&file, 0, len), i),
        Err(LoadError::NotOpened(error) | LoadError::NotRead(error)) => {
            write_failure(&mut rt.stderr(), &name[..n], error)
        }
    }
}

fn main(rt: HostRuntime) -> io::Result<()> {
    for row in 0..usize::MAX / 5 {
        if !has_row(&rt, 5 * row + 1) {
            break;
        }
        report_row(&rt, 5 * row + 1)?;
    }
    Ok(())
}
