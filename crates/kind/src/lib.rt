// What a pair is to the structure of its voice, found fast from its two bytes. Internal: for our other
// crates.
#![tactic(auto)]

ghost use Rattle.std.specs.Prelude.{◌≡◌};
ghost use Rattle.pair.specs.Pairs.{meaning_of};
ghost use Rattle.kind.specs.Kinds.{kind_of};
ghost use Rattle.kind.specs.Plain.{is_plain};

mod others;
mod plain;
mod seconds;

// An event, one of the pairs that make bodies, HLT, or a pair that is refused, with the number 27 or 28. HLT
// is an event too; it has a kind of its own since tests 29 and 30 look for it. The bounds of its numbers
// (`Numbered`) are conditions of calls that docs/CONTRACTS.md names, so the type does not carry them. A
// pair that is refused is known by its number and not by a `Reason`: the definition of `kind_of` speaks of
// every outcome, and not every number is one of a reason.
#[derive(Clone, Copy)]
pub enum Kind {
    Event,
    Hed(u16),
    Tal,
    Def(u16),
    End,
    Cal(u16),
    Hlt,
    Bad(u32),
}

// internal: the kind of a pair. Notes, the commonest, come first, then the commands of the first byte 01.
pub fn kind_of(first: u8, second: u8) -> Kind
    ensures { result ≡ kind_of (meaning_of first second) }
{
    if first % 4 == 0 {
        return Kind::Event;
    }
    if first == 1 {
        seconds::second_kind(second)
    } else {
        others::other_kind(first, second)
    }
}

// internal: tests of a pair's two bytes that only events pass, and most events do. Loops over pairs ask this
// first: a yes or no costs less than a kind, which comes back through memory.
pub fn is_plain(first: u8, second: u8) -> bool
    ensures { result ≡ is_plain first second }
{
    if first % 4 == 0 {
        return true;
    }
    if first == 1 {
        plain::plain_second(second % 16)
    } else {
        plain::plain_first(first)
    }
}
