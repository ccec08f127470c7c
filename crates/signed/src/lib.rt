// Where unsigned numbers become signed ones and signed ones come apart again. Internal.
// All other code of the pairs stays with unsigned numbers.
#![tactic(auto)]

ghost use Rattle.std.specs.Prelude.{◌≡◌};
ghost use Rattle.std.proofs.Math.IntN.{sub_ℕ};
ghost use Rattle.signed.specs.Signs.{parts_of};

// A number's sign and its size. Each number has both, so an enum of the two signs would be no plainer.
#[derive(Clone, Copy)]
pub struct Parts {
    pub negative: bool,
    pub size: u32,
}

// internal: a less b.
pub fn less(a: u16, b: u16) -> i32
    ensures { result ≡ sub_ℕ a b }
{
    a as i32 - b as i32
}

// internal: a number's sign and its size.
pub fn parts_of(v: i32) -> Parts
    ensures { result ≡ parts_of v }
{
    Parts {
        negative: v < 0,
        size: v.unsigned_abs(),
    }
}
