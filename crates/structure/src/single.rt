// 27 to 29 at one pair.
ghost use Rattle.std.specs.Prelude.{◌≡◌, [], ◌∷◌};
ghost use Rattle.refusals.specs.declared.Reason.TheVariants.{HltMisplaced};
ghost use Rattle.refusals.specs.Tests.{test, first_of};
ghost use Rattle.kind.specs.Kinds.{Numbered};
ghost use Rattle.structure.specs.Tests.{refused_pair, pair_tests};

use kind::Kind;
use refusals::Reason;

// A pair that is no HLT may not be the last.
fn unless_last(last: bool) -> Result<(), Reason>
    ensures { result ≡ first_of (test HltMisplaced last ∷ []) }
{
    if last {
        Err(Reason::HltMisplaced)
    } else {
        Ok(())
    }
}

// The reason of a pair that is refused with 27 or 28.
fn refused_pair(number: u32) -> Reason
    ensures { result ≡ refused_pair number }
{
    if number == 27 {
        Reason::UnassignedPair
    } else {
        Reason::ValueRange
    }
}

// internal: the first of 27 to 29 that applies to a pair, which is the voice's last or not. Callers see that
// a refused pair's number is 27 or 28.
pub fn test_pair(kind: Kind, last: bool) -> Result<(), Reason>
    requires { Numbered kind }
    ensures { result ≡ first_of (pair_tests kind last) }
{
    match kind {
        Kind::Event => unless_last(last),
        Kind::Hed(_) => unless_last(last),
        Kind::Tal => unless_last(last),
        Kind::Def(_) => unless_last(last),
        Kind::End => unless_last(last),
        Kind::Cal(_) => unless_last(last),
        Kind::Hlt => unless_last(!last),
        Kind::Bad(number) => Err(refused_pair(number)),
    }
}
