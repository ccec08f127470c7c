// The code of a meaning, a number that a person can read in hex: docs/INTERFACE.md fixes it.
// The call answers for every meaning.
#![tactic(auto)]

ghost use Rattle.std.specs.Prelude.{◌≡◌};
ghost use Rattle.codes.specs.Coding.{code_of};

use meaning::Meaning;

mod commands;
pub mod notes;

// internal: the code of a meaning. One line a case, in source 004's order.
// It is one-to-one for the meanings that some pair has, and not for all: P-S 65,537 has the code of P-S -1.
pub fn code_of(meaning: Meaning) -> u64
    ensures { result ≡ code_of meaning }
{
    match meaning {
        Meaning::Note(note) => notes::note_code(note),
        Meaning::Dcy(v) => commands::count(0x300, v),
        Meaning::Rup(v) => commands::count(0x301, v),
        Meaning::Cal(v) => commands::count(0x302, v),
        Meaning::Bmp(b) => commands::count(0x303, b as u16),
        Meaning::Flt(y) => commands::count(0x313, y as u16),
        Meaning::Rng(y) => commands::count(0x323, y as u16),
        Meaning::Snc(y) => commands::count(0x333, y as u16),
        Meaning::Fx(y) => commands::count(0x343, y as u16),
        Meaning::Def(v) => commands::count(0x306, v),
        Meaning::Atk(v) => commands::count(0x304, v),
        Meaning::Sus(v) => commands::count(0x384, v),
        Meaning::Lfo(v) => commands::count(0x363, v),
        Meaning::Pv(y) => commands::count(0x373, y as u16),
        Meaning::Rdn(v) => commands::count(0x305, v),
        Meaning::Wav(v) => commands::count(0x307, v),
        Meaning::Fm(v) => commands::count(0x317, v),
        Meaning::Rls(v) => commands::count(0x308, v),
        Meaning::Res(v) => commands::count(0x30A, v),
        Meaning::ThreeOff(y) => commands::count(0x35B, y as u16),
        Meaning::Vol(v) => commands::count(0x30E, v),
        Meaning::Tal => commands::count(0x30F, 0),
        Meaning::End => commands::count(0x32F, 0),
        Meaning::Hlt => commands::count(0x34F, 0),
        Meaning::Src(v) => commands::count(0x31F, v),
        Meaning::Dst(v) => commands::count(0x38F, v),
        Meaning::Pw(v) => commands::count(0x202, v),
        Meaning::Tem(v) => commands::count(0x206, v),
        Meaning::Utl(v) => commands::count(0x216, v),
        Meaning::Pnt(v) => commands::count(0x226, v),
        Meaning::Hed(v) => commands::count(0x236, v),
        Meaning::Flg(v) => commands::count(0x246, v),
        Meaning::Ps(z) => commands::signed(0x256, z),
        Meaning::Fs(z) => commands::signed(0x266, z),
        Meaning::Sca(z) => commands::signed(0x26E, z),
        Meaning::Vdp(v) => commands::count(0x276, v),
        Meaning::Vrt(v) => commands::count(0x286, v),
        Meaning::Aut(z) => commands::signed(0x296, z),
        Meaning::Tps(z) => commands::signed(0x2A6, z),
        Meaning::Aux(v) => commands::count(0x2B6, v),
        Meaning::Pvd(v) => commands::count(0x2C6, v),
        Meaning::Pvr(v) => commands::count(0x2D6, v),
        Meaning::Max(v) => commands::count(0x2E6, v),
        Meaning::Utv(v) => commands::count(0x2F6, v),
        Meaning::Fc(v) => commands::count(0x20E, v),
        Meaning::Rtp(z) => commands::signed(0x22E, z),
        Meaning::Hld(v) => commands::count(0x24E, v),
        Meaning::Ms(v) => commands::count(0x21E, v),
        Meaning::Jif(z) => commands::signed(0x23E, z),
        Meaning::Dtn(z) => commands::signed(0x20A, z),
        Meaning::Por(v) => commands::count(0x203, v),
    }
}
