// Signed values, each as the number that stands for it in the bytes.
ghost use Rattle.std.specs.Prelude.{◌≡◌, ◌≤◌};
ghost use Rattle.signed.specs.Signs.{parts_of};
ghost use Rattle.refusals.specs.Numbers.{outcome_of};
ghost use Rattle.spelling.specs.Signs.{slot_of, dtn_of, tps_of, rtp_of, spelled_signed, jif, dtn, tps, rtp};

use meaning::Bytes;
use refusals::Refusal;
use signed::Parts;

// The number that stands for a signed value in a field: of a value of -below to above, its negative numbers
// counted down from whole.
fn slot_in(parts: Parts, below: u16, above: u16, whole: u16) -> Option<u16>
    requires { below ≤ whole }
    ensures { result ≡ slot_of parts below above whole }
{
    let size = parts.size;
    if parts.negative {
        if size <= below as u32 {
            Some(whole - size as u16)
        } else {
            None
        }
    } else if size <= above as u32 {
        Some(size as u16)
    } else {
        None
    }
}

fn slot_of(v: i32, below: u16, above: u16, whole: u16) -> Option<u16>
    requires { below ≤ whole }
    ensures { result ≡ slot_of (parts_of v) below above whole }
{
    slot_in(signed::parts_of(v), below, above, whole)
}

// internal: P-S, F-S, AUT and SCA.
pub fn signed_byte(first: u8, v: i32, below: u16, above: u16) -> Result<Bytes, Refusal>
    requires { below ≤ 256 }
    ensures { outcome_of result ≡ spelled_signed first v below above }
{
    let Some(slot) = slot_of(v, below, above, 256) else {
        return crate::none();
    };
    crate::alone(first, slot, 255)
}

// internal: JIF.
pub fn jif(v: i32) -> Result<Bytes, Refusal>
    ensures { outcome_of result ≡ jif v }
{
    let Some(slot) = slot_of(v, 200, 757, 1024) else {
        return crate::none();
    };
    crate::joined(slot, 1023, 0x3E, 64)
}

// The sign stands below the value's upper bits.
fn dtn_of(parts: Parts) -> Result<Bytes, Refusal>
    ensures { outcome_of result ≡ dtn_of parts }
{
    let size = parts.size;
    if parts.negative {
        if size <= 2048 {
            crate::joined(2048 - size as u16, 2047, 0x1A, 32)
        } else {
            crate::none()
        }
    } else if size <= 2047 {
        crate::joined(size as u16, 2047, 0x0A, 32)
    } else {
        crate::none()
    }
}

// internal: DTN.
pub fn dtn(v: i32) -> Result<Bytes, Refusal>
    ensures { outcome_of result ≡ dtn v }
{
    dtn_of(signed::parts_of(v))
}

fn tps_of(parts: Parts) -> Result<Bytes, Refusal>
    ensures { outcome_of result ≡ tps_of parts }
{
    let size = parts.size;
    if 95 < size {
        return crate::none();
    }
    let steps = size as u8 % 12;
    let octaves = size as u8 / 12;
    if parts.negative {
        Ok(Bytes::new(0xA6, 16 * (11 - steps) + 2 * octaves + 1))
    } else {
        Ok(Bytes::new(0xA6, 16 * steps + 2 * (7 - octaves)))
    }
}

// internal: TPS.
pub fn tps(v: i32) -> Result<Bytes, Refusal>
    ensures { outcome_of result ≡ tps v }
{
    tps_of(signed::parts_of(v))
}

fn rtp_of(parts: Parts) -> Result<Bytes, Refusal>
    ensures { outcome_of result ≡ rtp_of parts }
{
    let size = parts.size;
    if 47 < size {
        return crate::none();
    }
    let steps = size as u8 % 12;
    let octaves = size as u8 / 12;
    if parts.negative {
        Ok(Bytes::new(0x2E, 8 * (11 - steps) + 3 + octaves))
    } else {
        Ok(Bytes::new(0x2E, 8 * (11 + steps) + 3 - octaves))
    }
}

// internal: RTP.
pub fn rtp(v: i32) -> Result<Bytes, Refusal>
    ensures { outcome_of result ≡ rtp v }
{
    rtp_of(signed::parts_of(v))
}
