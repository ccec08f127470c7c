// What is open at a pair, and 30 and 31 there.
ghost use Rattle.std.specs.Prelude.{◌≡◌, true, ◌<◌, None, IfSome};
ghost use Rattle.kind.specs.Kinds.{Numbered};
ghost use Rattle.kind.specs.declared.Kind.TheVariants.{Hed, Tal, Def, End};
ghost use Rattle.structure.specs.Steps.{number_in, closed_with, Stepped};

use kind::Kind;
use refusals::Reason;

// The HEDs that are open in the open DEF and outside it, and that DEF's number. With no DEF open, inside
// counts every HED that is open.
#[derive(Clone, Copy)]
pub struct Open {
    pub inside: usize,
    pub outside: usize,
    pub phrase: Option<usize>,
}

// What a pair leaves: what is open after it, with the number that an END closes.
#[derive(Clone, Copy)]
pub struct Step {
    pub after: Open,
    pub closes: Option<usize>,
}

// A pair that closes no number.
fn on(after: Open) -> Step
    ensures { result ≡ record { after = after; closes = None } }
{
    Step {
        after,
        closes: None,
    }
}

// internal: the numbers that are closed, with one more where a pair closes it.
pub fn close(closed: &mut [bool; 24], number: Option<usize>)
    requires { IfSome number (λ k. k < 24) }
    ensures { closed.new ≡ closed_with closed.old number }
{
    if let Some(k) = number {
        closed[k] = true;
    }
}

// internal: the number of a DEF or a CAL; 0 for any other pair.
pub fn number_of(kind: Kind) -> usize
    ensures { result ≡ number_in kind }
{
    match kind {
        Kind::Event => 0,
        Kind::Hed(_) => 0,
        Kind::Tal => 0,
        Kind::Def(k) => k as usize,
        Kind::End => 0,
        Kind::Cal(k) => k as usize,
        Kind::Hlt => 0,
        Kind::Bad(_) => 0,
    }
}

// internal: 30 and 31 at a pair, and what is open after it. A DEF or CAL is given whether its number is
// closed.
pub fn pass(kind: Kind, o: Open, closed: bool) -> Result<Step, Reason>
    requires { (o.inside < 65536) × IfSome o.phrase (λ k. k < 24) × Numbered kind }
    ensures { Stepped kind o closed result }
{
    match kind {
        Kind::Event => Ok(on(o)),
        Kind::Hed(n) => opens_repeat(o, n),
        Kind::Tal => closes_repeat(o),
        Kind::Def(k) => opens_phrase(o, k as usize, closed),
        Kind::End => closes_phrase(o),
        Kind::Cal(_) => {
            if closed {
                Ok(on(o))
            } else {
                Err(Reason::Structure)
            }
        }
        Kind::Hlt => {
            if (o.inside == 0) & o.phrase.is_none() {
                Ok(on(o))
            } else {
                Err(Reason::Structure)
            }
        }
        Kind::Bad(_) => Ok(on(o)),
    }
}

fn opens_repeat(o: Open, n: u16) -> Result<Step, Reason>
    requires { o.inside < 65536 }
    ensures { Stepped (Hed n) o true result }
{
    if n == 0 {
        return Err(Reason::HedZero);
    }
    Ok(on(Open {
        inside: o.inside + 1,
        outside: o.outside,
        phrase: o.phrase,
    }))
}

// TAL without a HED still open and, in an open DEF, opened inside it.
fn closes_repeat(o: Open) -> Result<Step, Reason>
    ensures { Stepped Tal o true result }
{
    if o.inside == 0 {
        return Err(Reason::Structure);
    }
    Ok(on(Open {
        inside: o.inside - 1,
        outside: o.outside,
        phrase: o.phrase,
    }))
}

// DEF in DEF; a number defined twice in the voice.
fn opens_phrase(o: Open, k: usize, closed: bool) -> Result<Step, Reason>
    requires { k < 24 }
    ensures { Stepped (Def k) o closed result }
{
    if o.phrase.is_some() | closed {
        return Err(Reason::Structure);
    }
    Ok(on(Open {
        inside: 0,
        outside: o.inside,
        phrase: Some(k),
    }))
}

// END without DEF or over a HED still open in it.
fn closes_phrase(o: Open) -> Result<Step, Reason>
    requires { IfSome o.phrase (λ k. k < 24) }
    ensures { Stepped End o true result }
{
    let Some(k) = o.phrase else {
        return Err(Reason::Structure);
    };
    if o.inside != 0 {
        return Err(Reason::Structure);
    }
    let left = Open {
        inside: o.outside,
        outside: 0,
        phrase: None,
    };
    Ok(Step {
        after: left,
        closes: Some(k),
    })
}
