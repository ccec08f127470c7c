// The container of a Sidplayer MUS file in PRG form: its numbers, its three voices and its five lines of
// text, each as a part of the lent bytes. What the voices hold is not looked at here.
#![tactic(auto)]

ghost use Rattle.std.specs.Prelude.{◌≡◌};
ghost use Rattle.refusals.specs.Numbers.{outcome_of};
ghost use Rattle.container.specs.Head.{head_outcome};
ghost use Rattle.container.specs.Layout.{placed, container_outcome};

use fields::Span;
use refusals::Refusal;
use text::Text;

mod head;
mod text;

// What the numbers at the front of a file say: its load address, where its voices lie, and where they end and
// the text begins.
#[derive(Clone, Copy)]
pub struct Voices {
    pub load: u16,
    pub voice1: Span,
    pub voice2: Span,
    pub voice3: Span,
    pub end: usize,
}

// Where everything lies in a file whose container is right. Fields and no arrays: these are fields of
// `mus::Song` too, and laws of it name each of them.
#[derive(Clone, Copy)]
pub struct Layout {
    pub load: u16,
    pub voice1: Span,
    pub voice2: Span,
    pub voice3: Span,
    pub line1: Span,
    pub line2: Span,
    pub line3: Span,
    pub line4: Span,
    pub line5: Span,
}

// internal: where the voices of a file lie, or the first of 21 to 24 that applies. Neither the voices nor
// what comes after them is looked at.
pub fn read_head(file: &[u8]) -> Result<Voices, Refusal>
    ensures { outcome_of result ≡ head_outcome file.now }
{
    let x = head::read_numbers(file);
    head::test_head(x)?;
    Ok(head::voices_of(x))
}

fn place(v: Voices, t: Text) -> Layout
    ensures { result ≡ placed v t }
{
    let voice1 = v.voice1;
    let voice2 = v.voice2;
    let voice3 = v.voice3;
    let line1 = t.line1;
    let line2 = t.line2;
    let line3 = t.line3;
    let line4 = t.line4;
    let line5 = t.line5;
    Layout {
        load: v.load,
        voice1,
        voice2,
        voice3,
        line1,
        line2,
        line3,
        line4,
        line5,
    }
}

// internal: the container of a file, or the first of 21 to 26 that applies.
pub fn read_container(file: &[u8]) -> Result<Layout, Refusal>
    ensures { outcome_of result ≡ container_outcome file.now }
{
    let v = read_head(file)?;
    let t = text::read_text(file, v.end);
    text::test_text(t, file.len())?;
    Ok(place(v, t))
}
