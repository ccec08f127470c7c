// What a program is started with.
ghost use Rattle.std.specs.Prelude.{◌≤◌, IfSome, length};

use std::env::{Env, FillError};

// internal: puts argument i into the first cells, and answers how long it is: None where there is none, 0
// where it is longer than the list. Argument 0 is the program's own name.
pub fn arg(rt: &impl Env, i: usize, out: &mut [u8]) -> Option<usize>
    ensures { IfSome result (λ n. n ≤ length out.new) }
{
    match rt.arg(i, out) {
        Ok(n) => Some(n),
        Err(FillError::TooLong) => Some(0),
        Err(FillError::NotPresent) => None,
    }
}
