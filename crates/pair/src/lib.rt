// A pair of a MUS voice: read, and written. Each call answers for every value, and none has a requires.
#![tactic(auto)]

ghost use Rattle.std.specs.Prelude.{◌≡◌};
ghost use Rattle.refusals.specs.Numbers.{outcome_of};
ghost use Rattle.pair.specs.Pairs.{meaning_of, spelling_of};

use meaning::{Bytes, Meaning};
use refusals::Refusal;

// Reads a pair: what its two bytes mean, or 27 or 28.
pub fn read(first: u8, second: u8) -> Result<Meaning, Refusal>
    ensures { outcome_of result ≡ meaning_of first second }
{
    if first % 4 == 0 {
        Ok(Meaning::Note(note::read_note(first, second)))
    } else {
        command::read_command(first, second)
    }
}

// Writes a meaning: its two bytes in the writer's spelling, or 43 where no pair has it. One line a case, in
// source 004's order.
pub fn write(meaning: Meaning) -> Result<Bytes, Refusal>
    ensures { outcome_of result ≡ spelling_of meaning }
{
    match meaning {
        Meaning::Note(note) => note::write_note(note),
        Meaning::Dcy(v) => spelling::counted(v, 15, 0x00, 16),
        Meaning::Rup(v) => spelling::counted(v, 31, 0x01, 8),
        Meaning::Cal(v) => spelling::phrase(v, 0x02, 0x8B),
        Meaning::Bmp(b) => spelling::bumped(b),
        Meaning::Flt(y) => spelling::switched(y, 0x13, 0x1B),
        Meaning::Rng(y) => spelling::switched(y, 0x23, 0x2B),
        Meaning::Snc(y) => spelling::switched(y, 0x33, 0x3B),
        Meaning::Fx(y) => spelling::switched(y, 0x43, 0x4B),
        Meaning::Def(v) => spelling::phrase(v, 0x06, 0x83),
        Meaning::Atk(v) => spelling::counted(v, 15, 0x04, 8),
        Meaning::Sus(v) => spelling::counted(v, 15, 0x84, 8),
        Meaning::Lfo(v) => spelling::counted(v, 1, 0x63, 8),
        Meaning::Pv(y) => spelling::switched(y, 0x73, 0x7B),
        Meaning::Rdn(v) => spelling::counted(v, 31, 0x05, 8),
        Meaning::Wav(v) => spelling::counted(v, 7, 0x07, 32),
        Meaning::Fm(v) => spelling::counted(v, 7, 0x17, 32),
        Meaning::Rls(v) => spelling::counted(v, 15, 0x08, 16),
        Meaning::Res(v) => spelling::counted(v, 15, 0x0A, 16),
        Meaning::ThreeOff(y) => spelling::only_yes(y, 0x5B),
        Meaning::Vol(v) => spelling::counted(v, 15, 0x0E, 16),
        Meaning::Tal => Ok(Bytes::new(1, 0x0F)),
        Meaning::End => Ok(Bytes::new(1, 0x2F)),
        Meaning::Hlt => Ok(Bytes::new(1, 0x4F)),
        Meaning::Src(v) => spelling::counted(v, 2, 0x1F, 32),
        Meaning::Dst(v) => spelling::destination(v),
        Meaning::Pw(v) => spelling::joined(v, 4095, 0x02, 16),
        Meaning::Tem(v) => spelling::tempo(v),
        Meaning::Utl(v) => spelling::alone(0x16, v, 255),
        Meaning::Pnt(v) => spelling::alone(0x26, v, 255),
        Meaning::Hed(v) => spelling::alone(0x36, v, 255),
        Meaning::Flg(v) => spelling::alone(0x46, v, 255),
        Meaning::Ps(z) => spelling::signs::signed_byte(0x56, z, 128, 127),
        Meaning::Fs(z) => spelling::signs::signed_byte(0x66, z, 128, 127),
        Meaning::Sca(z) => spelling::signs::signed_byte(0x6E, z, 7, 7),
        Meaning::Vdp(v) => spelling::alone(0x76, v, 127),
        Meaning::Vrt(v) => spelling::alone(0x86, v, 255),
        Meaning::Aut(z) => spelling::signs::signed_byte(0x96, z, 128, 127),
        Meaning::Tps(z) => spelling::signs::tps(z),
        Meaning::Aux(v) => spelling::alone(0xB6, v, 255),
        Meaning::Pvd(v) => spelling::alone(0xC6, v, 127),
        Meaning::Pvr(v) => spelling::alone(0xD6, v, 127),
        Meaning::Max(v) => spelling::alone(0xE6, v, 255),
        Meaning::Utv(v) => spelling::alone(0xF6, v, 255),
        Meaning::Fc(v) => spelling::alone(0x0E, v, 255),
        Meaning::Rtp(z) => spelling::signs::rtp(z),
        Meaning::Hld(v) => spelling::alone(0x4E, v, 255),
        Meaning::Ms(v) => spelling::joined(v, 1023, 0x1E, 64),
        Meaning::Jif(z) => spelling::signs::jif(z),
        Meaning::Dtn(z) => spelling::signs::dtn(z),
        Meaning::Por(v) => spelling::joined(v, 16383, 0x03, 4),
    }
}
