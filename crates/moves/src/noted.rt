// Where the bodies of DEFs begin, noted as a walk comes by. A walk that finds them in another way needs none
// of this.
ghost use Rattle.std.specs.Prelude.{◌≡◌, ◌<◌};
ghost use Rattle.moves.specs.Moves.{BoundedMove};
ghost use Rattle.moves.specs.Noted.{body_in, starts_after};

use crate::Move;

// internal: where the body that a CAL stands for begins, 0 for any other pair. A DEF's own is noted.
pub fn body_of(m: Move, at: usize, starts: &mut [u16; 24]) -> usize
    requires { (at < 32768) × BoundedMove m }
    ensures { (result ≡ body_in m starts.old) × (starts.new ≡ starts_after m at starts.old) }
{
    match m {
        Move::Phrase(k) => {
            starts[usize::from(k)] = (at + 1) as u16;
            0
        }
        Move::Call(k) => usize::from(starts[usize::from(k)]),
        Move::Repeat(_) | Move::Tal | Move::End => 0,
    }
}
