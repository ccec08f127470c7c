// Internal: the pairs of a voice as a walk over it meets them, and where it goes on after one that is no
// event.
#![tactic(auto)]

ghost use Rattle.std.specs.Prelude.{◌≡◌, ◌+◌, ◌*◌, ◌<◌, ◌≤◌, length};
ghost use Rattle.pair.specs.Pairs.{meaning_of};
ghost use Rattle.kind.specs.Kinds.{kind_of};
ghost use Rattle.bodies.specs.Voice.{pair_at};
ghost use Rattle.moves.specs.Moves.{next_of, Bounded, Ready, tal, tal_frames, end, end_frames, place_after, frames_after};

use arrayvec::ArrayVec;
use kind::Kind;
use meaning::Bytes;

pub mod noted;

// The pairs that make bodies: HED with its number of passes, DEF and CAL with their numbers, TAL and END.
#[derive(Clone, Copy)]
pub enum Move {
    Repeat(u16),
    Phrase(u16),
    Call(u16),
    Tal,
    End,
}

// A repeat in progress, by the number of its body's first pair and the passes that are left, this one
// included; or a call, by the number of the pair after its CAL.
#[derive(Clone, Copy)]
pub enum Frame {
    Repeat(usize, u16),
    Call(usize),
}

// What fills the free cells of a list of frames. It has no variant without a number, so none is derived.
impl Default for Frame {
    fn default() -> Frame {
        Frame::Call(0)
    }
}

// The repeats and calls in progress, the innermost last.
pub type Frames = ArrayVec<Frame, 16>;

// internal: a pair as what it is to the walk: None for an event. Plain events, the commonest, come first.
pub fn move_of(pair: Bytes) -> Option<Move>
    ensures { (result ≡ next_of (kind_of (meaning_of pair.first pair.second))) × Bounded result }
{
    if kind::is_plain(pair.first, pair.second) {
        return None;
    }
    match kind::kind_of(pair.first, pair.second) {
        Kind::Hed(n) => Some(Move::Repeat(n)),
        Kind::Tal => Some(Move::Tal),
        Kind::Def(k) => Some(Move::Phrase(k)),
        Kind::End => Some(Move::End),
        Kind::Cal(k) => Some(Move::Call(k)),
        Kind::Event | Kind::Hlt | Kind::Bad(_) => None,
    }
}

// internal: pair number i of a voice's bytes as what it is to the walk.
pub fn next_at(voice: &[u8], i: usize) -> Option<Move>
    requires { 2 * i + 1 < length voice.now }
    ensures { (result ≡ next_of (kind_of (pair_at voice.now i))) × Bounded result }
{
    move_of(bodies::bytes_at(voice, i))
}

// TAL: back to the first pair of its body while passes are left, else on.
fn close_repeat(at: usize, frames: &mut Frames) -> usize
    requires { (at < 32768) × (length frames.old.items ≤ 16) }
    ensures { (result ≡ tal at frames.old.items) × (frames.new.items ≡ tal_frames frames.old.items) }
{
    match frames.pop() {
        Some(Frame::Repeat(body, left)) => {
            if 1 < left {
                frames.push(Frame::Repeat(body, left - 1));
                body
            } else {
                at + 1
            }
        }
        _ => at + 1,
    }
}

// END: to the pair after the CAL if a call is innermost, else on.
fn close_phrase(at: usize, frames: &mut Frames) -> usize
    requires { at < 32768 }
    ensures { (result ≡ end at frames.old.items) × (frames.new.items ≡ end_frames frames.old.items) }
{
    match frames.last() {
        Some(&Frame::Call(after)) => {
            frames.pop();
            after
        }
        _ => at + 1,
    }
}

// internal: the number of the pair after one that makes bodies. HED and CAL are kept as in progress. body is
// where the body that a CAL stands for begins; no other pair asks for it.
pub fn go_on(m: Move, at: usize, body: usize, frames: &mut Frames) -> usize
    requires { Ready m at frames.old.items }
    ensures { (result ≡ place_after m at body frames.old.items) × (frames.new.items ≡ frames_after m at frames.old.items) }
{
    match m {
        Move::Repeat(n) => {
            frames.push(Frame::Repeat(at + 1, n));
            at + 1
        }
        Move::Phrase(_) => at + 1,
        Move::Call(_) => {
            frames.push(Frame::Call(at + 1));
            body
        }
        Move::Tal => close_repeat(at, frames),
        Move::End => close_phrase(at, frames),
    }
}
