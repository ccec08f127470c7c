// Writes the 65,536 bytes of a memory of zeros after a PSID or RSID file on standard input is loaded into it,
// or the refusal's number and place.
#![tactic(auto)]

use printing::{print, write};
use std::io;
use std::io::Write;

fn report(out: &mut impl Write, file: &[u8]) -> io::Result<()> {
    let mut memory = [0u8; 65536];
    match sidload::load(file, &mut memory) {
        Ok(_) => {
            write(out, &memory)?;
            Ok(())
        }
        Err(refusal) => print(out, format_args!("{refusal}\n")),
    }
}

fn main(rt: HostRuntime) -> io::Result<()> {
    // longer than any accepted file, so that what is cut off changes no answer (docs/DECISIONS.md)
    let mut file = [0u8; 66000];
    let n = files::read_full(&mut rt.stdin(), &mut file)?;
    report(&mut rt.stdout(), &file[..n])
}
