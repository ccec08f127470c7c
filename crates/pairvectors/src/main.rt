// Writes meanings that stand on either side of each range, and shows the bytes or the refusal.
// tools/pairvectors says what each must give.
#![tactic(auto)]

use std::io;

mod commands;
mod notes;
mod show;
mod signs;

fn main(rt: HostRuntime) -> io::Result<()> {
    let mut out = rt.stdout();
    notes::show_notes(&mut out)?;
    commands::show_seconds(&mut out)?;
    commands::show_others(&mut out)?;
    signs::show_signs(&mut out)?;
    notes::show_half_steps(&mut out)
}
