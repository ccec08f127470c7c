// Works document 01's 'Sums on the bench' out through the public calls, in the paper's order, and after them
// the eight 64ths of 'Easy to get wrong'.
#![tactic(auto)]

use std::io;

mod pairs;
mod rsid;
mod songs;

fn main(rt: HostRuntime) -> io::Result<()> {
    let mut out = rt.stdout();
    pairs::show_sums(&mut out)?;
    rsid::show_sums(&mut out)?;
    songs::show_sums(&mut out)
}
