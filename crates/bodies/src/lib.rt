// The stored pairs of a voice by number, and what each is to the bodies; the definitions of bodies are in
// specs/.
#![tactic(auto)]

ghost use Rattle.std.specs.Prelude.{◌≡◌, ◌+◌, ◌*◌, ◌<◌, length};
ghost use Rattle.kind.specs.Kinds.{kind_of, Numbered};
ghost use Rattle.bodies.specs.Voice.{bytes_at, pair_at, plain_at};
ghost use Rattle.bodies.specs.Places.{IsPart};

use kind::Kind;
use meaning::Bytes;

// internal: the bytes of pair number i of a voice's bytes. Callers see that the pair is there.
pub fn bytes_at(voice: &[u8], i: usize) -> Bytes
    requires { 2 * i + 1 < length voice.now }
    ensures { result ≡ bytes_at voice.now i }
{
    Bytes {
        first: voice[2 * i],
        second: voice[2 * i + 1],
    }
}

// internal: what pair number i of a voice's bytes is to the structure.
pub fn kind_at(voice: &[u8], i: usize) -> Kind
    requires { 2 * i + 1 < length voice.now }
    ensures { (result ≡ kind_of (pair_at voice.now i)) × Numbered result }
{
    let pair = bytes_at(voice, i);
    kind::kind_of(pair.first, pair.second)
}

// internal: whether pair number i of a voice's bytes passes tests that only events pass. Loops over pairs ask
// this first.
pub fn plain_at(voice: &[u8], i: usize) -> bool
    requires { 2 * i + 1 < length voice.now }
    ensures { result ≡ plain_at voice.now i }
{
    let pair = bytes_at(voice, i);
    kind::is_plain(pair.first, pair.second)
}

// What a pair is to the bodies: an event, a HED with its number of passes, a DEF or a CAL with its number, or
// a TAL or END. It is no `Option<moves::Move>`: TAL and END close a body alike, and who counts asks no more.
#[derive(Clone, Copy)]
pub enum Part {
    Plain,
    Repeat(u16),
    Phrase(u16),
    Call(u16),
    Close,
}

// internal: pair number i of a voice's bytes as a part of its bodies.
pub fn part_at(voice: &[u8], i: usize) -> Part
    requires { 2 * i + 1 < length voice.now }
    ensures { IsPart voice.now i result }
{
    if plain_at(voice, i) {
        return Part::Plain;
    }
    match kind_at(voice, i) {
        Kind::Event => Part::Plain,
        Kind::Hed(n) => Part::Repeat(n),
        Kind::Tal => Part::Close,
        Kind::Def(k) => Part::Phrase(k),
        Kind::End => Part::Close,
        Kind::Cal(k) => Part::Call(k),
        Kind::Hlt => Part::Plain,
        Kind::Bad(_) => Part::Plain,
    }
}
