// Signed values of commands, made from the unsigned numbers that stand in the bytes.
#![tactic(auto)]

ghost use Rattle.std.specs.Prelude.{◌≡◌};
ghost use Rattle.refusals.specs.Numbers.{outcome_of};
ghost use Rattle.commandsigns.specs.Signs.{signed_byte, detuning_of, sca_outcome, tps_outcome, rtp_outcome, jif_outcome};

use meaning::Meaning;
use refusals::{Reason, Refusal};

// internal: a byte whose bit 7 is the sign.
pub fn signed_byte(n: u16) -> i32
    ensures { result ≡ signed_byte n }
{
    if n < 128 {
        signed::less(n, 0)
    } else {
        signed::less(n, 256)
    }
}

// internal: DTN, a number less 2,048 where the sign bit is set.
pub fn detuning(n: u16, sign: u16) -> i32
    ensures { result ≡ detuning_of n sign }
{
    if sign == 1 {
        signed::less(n, 2048)
    } else {
        signed::less(n, 0)
    }
}

// internal: SCA of its second byte, or 28.
pub fn read_sca(second: u8) -> Result<Meaning, Refusal>
    ensures { outcome_of result ≡ sca_outcome second }
{
    if (second <= 7) | (249 <= second) {
        Ok(Meaning::Sca(signed_byte(second as u16)))
    } else {
        Err(Reason::ValueRange.into())
    }
}

// internal: TPS of its second byte, or 28. Bit 0 is the sign; half-steps below an octave stand in bits 7-4,
// octaves in bits 3-1, both counted from the other end for one of the signs.
pub fn read_tps(second: u8) -> Result<Meaning, Refusal>
    ensures { outcome_of result ≡ tps_outcome second }
{
    let steps = second as u16 / 16;
    let octaves = second as u16 / 2 % 8;
    if 11 < steps {
        return Err(Reason::ValueRange.into());
    }
    if second % 2 == 0 {
        Ok(Meaning::Tps(signed::less(12 * (7 - octaves) + steps, 0)))
    } else {
        Ok(Meaning::Tps(signed::less(0, 12 * octaves + 11 - steps)))
    }
}

// internal: RTP of its second byte, or 28. The value 12 × (3 - octaves) + (steps - 11) is counted from the
// least, -59, so that it stays unsigned.
pub fn read_rtp(second: u8) -> Result<Meaning, Refusal>
    ensures { outcome_of result ≡ rtp_outcome second }
{
    let steps = second as u16 / 8;
    let octaves = second as u16 % 8;
    let above = 12 * (7 - octaves) + steps;
    if (22 < steps) | (above < 12) {
        Err(Reason::ValueRange.into())
    } else {
        Ok(Meaning::Rtp(signed::less(above, 59)))
    }
}

// internal: JIF of its ten bits, or 28.
pub fn read_jif(n: u16) -> Result<Meaning, Refusal>
    ensures { outcome_of result ≡ jif_outcome n }
{
    if n <= 757 {
        return Ok(Meaning::Jif(signed::less(n, 0)));
    }
    if n <= 823 {
        return Err(Reason::ValueRange.into());
    }
    Ok(Meaning::Jif(signed::less(n, 1024)))
}
