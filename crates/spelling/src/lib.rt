// A command's two bytes by the kind of its value, in the writer's spelling. Internal.
// Each answers 43 where no pair has the value.
#![tactic(auto)]

ghost use Rattle.std.specs.Prelude.{◌≡◌, ◌+◌, ◌*◌, ◌/◌, ◌<◌};
ghost use Rattle.refusals.specs.Numbers.{outcome_of};
ghost use Rattle.spelling.specs.Counts.{no_bytes, bumped, switched, only_yes, counted, phrase, destination, alone, joined, tempo};

use meaning::{Bump, Bytes};
use refusals::{Reason, Refusal};

pub mod signs;

// internal: no pair has this meaning.
pub fn none() -> Result<Bytes, Refusal>
    ensures { outcome_of result ≡ no_bytes }
{
    Err(Reason::NoPair.into())
}

// internal: BMP.
pub fn bumped(bump: Bump) -> Result<Bytes, Refusal>
    ensures { outcome_of result ≡ bumped bump }
{
    match bump {
        Bump::Up => Ok(Bytes::new(1, 0x03)),
        Bump::Down => Ok(Bytes::new(1, 0x0B)),
    }
}

// internal: NO or YES, each with its second byte.
pub fn switched(set: bool, off: u8, on: u8) -> Result<Bytes, Refusal>
    ensures { outcome_of result ≡ switched set off on }
{
    if set {
        Ok(Bytes::new(1, on))
    } else {
        Ok(Bytes::new(1, off))
    }
}

// internal: YES, where NO has no pair.
pub fn only_yes(set: bool, on: u8) -> Result<Bytes, Refusal>
    ensures { outcome_of result ≡ only_yes set on }
{
    if set { Ok(Bytes::new(1, on)) } else { none() }
}

// internal: first byte 01 and a value in the second, from base on in steps. It shares with alone and joined
// the test of the value alone; one function for all three would take the arguments of all, and be no plainer.
#[tactic(auto, using(crate::proofs::Steps::stepped))]
pub fn counted(v: u16, most: u16, base: u16, step: u16) -> Result<Bytes, Refusal>
    requires { base + step * most < 256 }
    ensures { outcome_of result ≡ counted v most base step }
{
    if v <= most {
        Ok(Bytes::new(1, (base + step * v) as u8))
    } else {
        none()
    }
}

// internal: a phrase's number, 0 to 23.
pub fn phrase(v: u16, low: u16, high: u16) -> Result<Bytes, Refusal>
    requires { (low < 16) × (high < 144) }
    ensures { outcome_of result ≡ phrase v low high }
{
    if v <= 15 {
        return Ok(Bytes::new(1, (low + 16 * v) as u8));
    }
    if v <= 23 {
        Ok(Bytes::new(1, (high + 16 * (v - 16)) as u8))
    } else {
        none()
    }
}

// internal: DST's coded value.
pub fn destination(v: u16) -> Result<Bytes, Refusal>
    ensures { outcome_of result ≡ destination v }
{
    match v {
        0 => Ok(Bytes::new(1, 0x8F)),
        1 => Ok(Bytes::new(1, 0xAF)),
        2 => Ok(Bytes::new(1, 0xDF)),
        3 => Ok(Bytes::new(1, 0xEF)),
        _ => none(),
    }
}

// internal: a value that is the second byte.
pub fn alone(first: u8, v: u16, most: u8) -> Result<Bytes, Refusal>
    ensures { outcome_of result ≡ alone first v most }
{
    if v <= most as u16 {
        Ok(Bytes::new(first, v as u8))
    } else {
        none()
    }
}

// internal: a value whose bits above the second byte stand in the first, from base on in steps.
#[tactic(auto, using(crate::proofs::Steps::stepped))]
pub fn joined(v: u16, most: u16, base: u16, step: u16) -> Result<Bytes, Refusal>
    requires { base + step * (most / 256) < 256 }
    ensures { outcome_of result ≡ joined v most base step }
{
    if v <= most {
        Ok(Bytes::new((base + step * (v / 256)) as u8, (v % 256) as u8))
    } else {
        none()
    }
}

// internal: TEM, whose 256 is written 0.
pub fn tempo(v: u16) -> Result<Bytes, Refusal>
    ensures { outcome_of result ≡ tempo v }
{
    if (v == 0) | (256 < v) {
        none()
    } else {
        Ok(Bytes::new(0x06, (v % 256) as u8))
    }
}
