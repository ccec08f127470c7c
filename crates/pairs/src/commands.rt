// What a pair's meaning is called: source 004's abbreviation, and the value.
use crate::notes::put_note;
use meaning::{Bump, Meaning, Note};
use printing::{put, put_signed};

// A meaning by what is to be shown: a note, or a command's abbreviation and its value.
#[derive(Clone, Copy)]
pub enum Words {
    Note(Note),
    Bare(&'static str),
    Count(&'static str, u16),
    Integer(&'static str, i32),
    Switch(&'static str, bool),
    Bump(&'static str, Bump),
}

// One line a case, in source 004's order.
impl From<Meaning> for Words {
    fn from(meaning: Meaning) -> Words {
        match meaning {
            Meaning::Note(note) => Words::Note(note),
            Meaning::Dcy(v) => Words::Count("DCY", v),
            Meaning::Rup(v) => Words::Count("RUP", v),
            Meaning::Cal(v) => Words::Count("CAL", v),
            Meaning::Bmp(bump) => Words::Bump("BMP", bump),
            Meaning::Flt(yes) => Words::Switch("FLT", yes),
            Meaning::Rng(yes) => Words::Switch("RNG", yes),
            Meaning::Snc(yes) => Words::Switch("SNC", yes),
            Meaning::Fx(yes) => Words::Switch("F-X", yes),
            Meaning::Def(v) => Words::Count("DEF", v),
            Meaning::Atk(v) => Words::Count("ATK", v),
            Meaning::Sus(v) => Words::Count("SUS", v),
            Meaning::Lfo(v) => Words::Count("LFO", v),
            Meaning::Pv(yes) => Words::Switch("P&V", yes),
            Meaning::Rdn(v) => Words::Count("RDN", v),
            Meaning::Wav(v) => Words::Count("WAV", v),
            Meaning::Fm(v) => Words::Count("F-M", v),
            Meaning::Rls(v) => Words::Count("RLS", v),
            Meaning::Res(v) => Words::Count("RES", v),
            Meaning::ThreeOff(yes) => Words::Switch("3-0", yes),
            Meaning::Vol(v) => Words::Count("VOL", v),
            Meaning::Tal => Words::Bare("TAL"),
            Meaning::End => Words::Bare("END"),
            Meaning::Hlt => Words::Bare("HLT"),
            Meaning::Src(v) => Words::Count("SRC", v),
            Meaning::Dst(v) => Words::Count("DST", v),
            Meaning::Pw(v) => Words::Count("P-W", v),
            Meaning::Tem(v) => Words::Count("TEM", v),
            Meaning::Utl(v) => Words::Count("UTL", v),
            Meaning::Pnt(v) => Words::Count("PNT", v),
            Meaning::Hed(v) => Words::Count("HED", v),
            Meaning::Flg(v) => Words::Count("FLG", v),
            Meaning::Ps(z) => Words::Integer("P-S", z),
            Meaning::Fs(z) => Words::Integer("F-S", z),
            Meaning::Sca(z) => Words::Integer("SCA", z),
            Meaning::Vdp(v) => Words::Count("VDP", v),
            Meaning::Vrt(v) => Words::Count("VRT", v),
            Meaning::Aut(z) => Words::Integer("AUT", z),
            Meaning::Tps(z) => Words::Integer("TPS", z),
            Meaning::Aux(v) => Words::Count("AUX", v),
            Meaning::Pvd(v) => Words::Count("PVD", v),
            Meaning::Pvr(v) => Words::Count("PVR", v),
            Meaning::Max(v) => Words::Count("MAX", v),
            Meaning::Utv(v) => Words::Count("UTV", v),
            Meaning::Fc(v) => Words::Count("F-C", v),
            Meaning::Rtp(z) => Words::Integer("RTP", z),
            Meaning::Hld(v) => Words::Count("HLD", v),
            Meaning::Ms(v) => Words::Count("MS#", v),
            Meaning::Jif(z) => Words::Integer("JIF", z),
            Meaning::Dtn(z) => Words::Integer("DTN", z),
            Meaning::Por(v) => Words::Count("POR", v),
        }
    }
}

fn put_named(out: &mut [u8], at: usize, name: &str, word: &[u8]) -> usize {
    let to = put(out, at, name.as_bytes());
    put(out, to, word)
}

fn put_valued(out: &mut [u8], at: usize, name: &str, value: i32) -> usize {
    let to = put_named(out, at, name, b" ");
    put_signed(out, to, value)
}

pub fn put_words(out: &mut [u8], at: usize, words: Words) -> usize {
    match words {
        Words::Note(note) => put_note(out, at, note),
        Words::Bare(name) => put(out, at, name.as_bytes()),
        Words::Count(name, value) => put_valued(out, at, name, i32::from(value)),
        Words::Integer(name, value) => put_valued(out, at, name, value),
        Words::Switch(name, false) => put_named(out, at, name, b" NO"),
        Words::Switch(name, true) => put_named(out, at, name, b" YES"),
        Words::Bump(name, Bump::Up) => put_named(out, at, name, b" UP"),
        Words::Bump(name, Bump::Down) => put_named(out, at, name, b" DN"),
    }
}
