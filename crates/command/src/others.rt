// Commands whose first byte is not 01.
ghost use Rattle.std.specs.Prelude.{◌≡◌};
ghost use Rattle.refusals.specs.Numbers.{outcome_of};
ghost use Rattle.command.specs.Others.{up_to127, tempo_of, other_outcome, joined_outcome};

use meaning::Meaning;
use refusals::{Reason, Refusal};

fn tempo_of(n: u16) -> u16
    ensures { result ≡ tempo_of n }
{
    if n == 0 { 256 } else { n }
}

// A command whose value n is out of range above 127.
fn up_to_127(n: u16, meaning: Meaning) -> Result<Meaning, Refusal>
    ensures { outcome_of result ≡ up_to127 n meaning }
{
    if n <= 127 {
        Ok(meaning)
    } else {
        Err(Reason::ValueRange.into())
    }
}

// Commands whose value begins in the first byte.
fn read_joined(first: u8, second: u8) -> Result<Meaning, Refusal>
    ensures { outcome_of result ≡ joined_outcome first second }
{
    let high = first as u16;
    let n = second as u16;
    if first % 64 == 0x1E {
        return Ok(Meaning::Ms(high / 64 * 256 + n));
    }
    if first % 64 == 0x3E {
        return commandsigns::read_jif(high / 64 * 256 + n);
    }
    if first % 16 == 0xA {
        return Ok(Meaning::Dtn(commandsigns::detuning(high / 32 * 256 + n, high / 16 % 2)));
    }
    if first % 4 == 3 {
        return Ok(Meaning::Por(high / 4 * 256 + n));
    }
    Err(Reason::UnassignedPair.into())
}

pub fn read_other(first: u8, second: u8) -> Result<Meaning, Refusal>
    ensures { outcome_of result ≡ other_outcome first second }
{
    let n = second as u16;
    if first % 16 == 2 {
        return Ok(Meaning::Pw(first as u16 / 16 * 256 + n));
    }
    match first {
        0x06 => Ok(Meaning::Tem(tempo_of(n))),
        0x16 => Ok(Meaning::Utl(n)),
        0x26 => Ok(Meaning::Pnt(n)),
        0x36 => Ok(Meaning::Hed(n)),
        0x46 => Ok(Meaning::Flg(n)),
        0x56 => Ok(Meaning::Ps(commandsigns::signed_byte(n))),
        0x66 => Ok(Meaning::Fs(commandsigns::signed_byte(n))),
        0x6E => commandsigns::read_sca(second),
        0x76 => up_to_127(n, Meaning::Vdp(n)),
        0x86 => Ok(Meaning::Vrt(n)),
        0x96 => Ok(Meaning::Aut(commandsigns::signed_byte(n))),
        0xA6 => commandsigns::read_tps(second),
        0xB6 => Ok(Meaning::Aux(n)),
        0xC6 => up_to_127(n, Meaning::Pvd(n)),
        0xD6 => up_to_127(n, Meaning::Pvr(n)),
        0xE6 => Ok(Meaning::Max(n)),
        0xF6 => Ok(Meaning::Utv(n)),
        0x0E => Ok(Meaning::Fc(n)),
        0x2E => commandsigns::read_rtp(second),
        0x4E => Ok(Meaning::Hld(n)),
        _ => read_joined(first, second),
    }
}
