// What a pair of a MUS voice means: the types, and the half-step of a pitch.
#![tactic(auto)]

ghost use Rattle.std.specs.Prelude.{◌≡◌};
ghost use Rattle.meaning.specs.Bumps.{bump_of};
ghost use Rattle.refusals.specs.Numbers.{outcome_of};
ghost use Rattle.meaning.specs.Pitches.{in_tables, step_outcome};

use refusals::{Reason, Refusal};

mod pitches;

pub use pitches::double_is_sharp;

#[derive(Clone, Copy)]
pub enum Duration {
    Whole,
    Half,
    Quarter,
    Eighth,
    Sixteenth,
    ThirtySecond,
    SixtyFourth,
    UtilityDuration,
    UtilityVoice,
    AbsolutePitch,
}

#[derive(Clone, Copy)]
pub enum Shape {
    Plain,
    Dotted,
    DoubleDotted,
    Triplet,
}

#[derive(Clone, Copy)]
pub enum Letter {
    C,
    D,
    E,
    F,
    G,
    A,
    B,
}

#[derive(Clone, Copy)]
pub enum Accidental {
    Flat,
    Natural,
    Sharp,
    DoubleSharp,
    DoubleFlat,
}

// A pitch as it is written: C sharp is not D flat.
#[derive(Clone, Copy)]
pub struct Pitch {
    pub letter: Letter,
    pub accidental: Accidental,
    pub octave: u16,
}

// A rest is a thing that the second byte says, and not the lack of a pitch, so an Option would be no plainer.
#[derive(Clone, Copy)]
pub enum Tone {
    Rest,
    Sounds(Pitch),
}

#[derive(Clone, Copy)]
pub struct Note {
    pub duration: Duration,
    pub shape: Shape,
    pub tied: bool,
    pub tone: Tone,
}

// BMP's two values.
#[derive(Clone, Copy)]
pub enum Bump {
    Up,
    Down,
}

// BMP by the number that stands for its value: 0 is UP, any other DN.
impl From<u16> for Bump {
    ghost from_gives = { λ number bump. bump ≡ bump_of number };

    fn from(number: u16) -> Bump {
        if number == 0 { Bump::Up } else { Bump::Down }
    }
}

// A pair's meaning: a note, or a command by source 004's abbreviation with its value. Where 004 has NO and
// YES, false and true; Wav and Fm hold the number of bits 7-5.
#[derive(Clone, Copy)]
pub enum Meaning {
    Note(Note),
    Dcy(u16),
    Rup(u16),
    Cal(u16),
    Bmp(Bump),
    Flt(bool),
    Rng(bool),
    Snc(bool),
    Fx(bool),
    Def(u16),
    Atk(u16),
    Sus(u16),
    Lfo(u16),
    Pv(bool),
    Rdn(u16),
    Wav(u16),
    Fm(u16),
    Rls(u16),
    Res(u16),
    ThreeOff(bool),
    Vol(u16),
    Tal,
    End,
    Hlt,
    Src(u16),
    Dst(u16),
    Pw(u16),
    Tem(u16),
    Utl(u16),
    Pnt(u16),
    Hed(u16),
    Flg(u16),
    Ps(i32),
    Fs(i32),
    Sca(i32),
    Vdp(u16),
    Vrt(u16),
    Aut(i32),
    Tps(i32),
    Aux(u16),
    Pvd(u16),
    Pvr(u16),
    Max(u16),
    Utv(u16),
    Fc(u16),
    Rtp(i32),
    Hld(u16),
    Ms(u16),
    Jif(i32),
    Dtn(i32),
    Por(u16),
}

// The two bytes of a pair.
#[derive(Clone, Copy)]
pub struct Bytes {
    pub first: u8,
    pub second: u8,
}

impl Bytes {
    // internal: a pair of its two bytes.
    pub fn new(first: u8, second: u8) -> Bytes
        ensures { result ≡ record { first = first; second = second } }
    {
        Bytes { first, second }
    }
}

// internal: whether some second byte of a note has this pitch.
pub fn in_tables(pitch: Pitch) -> bool
    ensures { result ≡ in_tables pitch }
{
    pitches::has_accidental(pitch.letter, pitch.accidental) & (pitch.octave <= 7)
}

// The half-step of a pitch, -1 to 96, C natural of octave 0 being 0; a pitch that no pair has is refused
// with 43.
pub fn half_step(pitch: Pitch) -> Result<i32, Refusal>
    ensures { outcome_of result ≡ step_outcome pitch }
{
    if !in_tables(pitch) {
        return Err(Reason::NoPair.into());
    }
    let natural = 12 * pitch.octave + pitches::letter_step(pitch.letter);
    Ok(signed::less(
        natural + pitches::raised_by(pitch.accidental),
        pitches::lowered_by(pitch.accidental),
    ))
}
