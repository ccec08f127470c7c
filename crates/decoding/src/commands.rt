// The command of a code, 2CCSVVVV or 3CCSVVVV, by its number.
ghost use Rattle.std.specs.Prelude.{◌≡◌, cond};
ghost use Rattle.refusals.specs.Numbers.{outcome_of};
ghost use Rattle.refusals.specs.Numbers.Outcome.{accepted};
ghost use Rattle.decoding.specs.Tables.{no_meaning, unsigned_commands, negative_commands};
ghost use Rattle.decoding.specs.Decoding.{command_at};

use meaning::Meaning;
use refusals::{Reason, Refusal};

// A command, where it can have its value.
fn only(allowed: bool, meaning: Meaning) -> Result<Meaning, Refusal>
    ensures { outcome_of result ≡ cond allowed (accepted meaning) no_meaning }
{
    if allowed {
        Ok(meaning)
    } else {
        Err(Reason::NoPair.into())
    }
}

// internal: the command of a number with sign digit 0. One line a command, in source 004's order.
pub fn unsigned_at(id: u32, v: u16) -> Result<Meaning, Refusal>
    ensures { outcome_of result ≡ command_at unsigned_commands id v }
{
    let above = signed::less(v, 0);
    let set = v == 1;
    let up_to_1 = v <= 1;
    let bare = v == 0;
    let command = match id {
        0x300 => Meaning::Dcy(v),
        0x301 => Meaning::Rup(v),
        0x302 => Meaning::Cal(v),
        0x303 => return only(up_to_1, Meaning::Bmp(v.into())),
        0x313 => return only(up_to_1, Meaning::Flt(set)),
        0x323 => return only(up_to_1, Meaning::Rng(set)),
        0x333 => return only(up_to_1, Meaning::Snc(set)),
        0x343 => return only(up_to_1, Meaning::Fx(set)),
        0x306 => Meaning::Def(v),
        0x304 => Meaning::Atk(v),
        0x384 => Meaning::Sus(v),
        0x363 => Meaning::Lfo(v),
        0x373 => return only(up_to_1, Meaning::Pv(set)),
        0x305 => Meaning::Rdn(v),
        0x307 => Meaning::Wav(v),
        0x317 => Meaning::Fm(v),
        0x308 => Meaning::Rls(v),
        0x30A => Meaning::Res(v),
        0x35B => return only(up_to_1, Meaning::ThreeOff(set)),
        0x30E => Meaning::Vol(v),
        0x30F => return only(bare, Meaning::Tal),
        0x32F => return only(bare, Meaning::End),
        0x34F => return only(bare, Meaning::Hlt),
        0x31F => Meaning::Src(v),
        0x38F => Meaning::Dst(v),
        0x202 => Meaning::Pw(v),
        0x206 => Meaning::Tem(v),
        0x216 => Meaning::Utl(v),
        0x226 => Meaning::Pnt(v),
        0x236 => Meaning::Hed(v),
        0x246 => Meaning::Flg(v),
        0x256 => Meaning::Ps(above),
        0x266 => Meaning::Fs(above),
        0x26E => Meaning::Sca(above),
        0x276 => Meaning::Vdp(v),
        0x286 => Meaning::Vrt(v),
        0x296 => Meaning::Aut(above),
        0x2A6 => Meaning::Tps(above),
        0x2B6 => Meaning::Aux(v),
        0x2C6 => Meaning::Pvd(v),
        0x2D6 => Meaning::Pvr(v),
        0x2E6 => Meaning::Max(v),
        0x2F6 => Meaning::Utv(v),
        0x20E => Meaning::Fc(v),
        0x22E => Meaning::Rtp(above),
        0x24E => Meaning::Hld(v),
        0x21E => Meaning::Ms(v),
        0x23E => Meaning::Jif(above),
        0x20A => Meaning::Dtn(above),
        0x203 => Meaning::Por(v),
        _ => return Err(Reason::NoPair.into()),
    };
    Ok(command)
}

// internal: the command of a number with sign digit 1.
pub fn negative_at(id: u32, v: u16) -> Result<Meaning, Refusal>
    ensures { outcome_of result ≡ command_at negative_commands id v }
{
    let below = signed::less(0, v);
    let command = match id {
        0x256 => Meaning::Ps(below),
        0x266 => Meaning::Fs(below),
        0x26E => Meaning::Sca(below),
        0x296 => Meaning::Aut(below),
        0x2A6 => Meaning::Tps(below),
        0x22E => Meaning::Rtp(below),
        0x23E => Meaning::Jif(below),
        0x20A => Meaning::Dtn(below),
        _ => return Err(Reason::NoPair.into()),
    };
    Ok(command)
}
