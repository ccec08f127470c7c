// A line of a SAP header at the front of lent bytes: its tag and its argument. Each is found in one pass.
#![tactic(auto)]

ghost use Rattle.std.specs.Prelude.{◌≡◌};
ghost use Rattle.saplines.specs.Lines.{value_at, argument_after, line_at};

use saparguments::Argument;
use saptags::Tag;

// A line that fits: its tag, how many bytes it has, and its argument's value.
#[derive(Clone, Copy, Debug, PartialEq, Eq)]
pub struct Line {
    pub tag: Tag,
    pub len: usize,
    pub value: u32,
}

// The argument of a tag that takes one, after the space.
fn value_at(tag: Tag, bytes: &[u8]) -> Option<Argument>
    ensures { result ≡ value_at tag bytes.now }
{
    match tag {
        Tag::Author | Tag::Name | Tag::Date => saparguments::text_at(bytes),
        Tag::Songs => saparguments::decimal_at(bytes, 1, 32),
        Tag::DefSong => saparguments::decimal_at(bytes, 0, characters::MOST),
        Tag::Stereo | Tag::Ntsc => None,
        Tag::Type => saparguments::letter_at(bytes),
        Tag::FastPlay => saparguments::decimal_at(bytes, 1, 32767),
        Tag::Init | Tag::Music | Tag::Player => saparguments::address_at(bytes),
        Tag::Covox => saparguments::covox_at(bytes),
        Tag::Time => saptimes::time_at(bytes),
    }
}

// What follows the name of a tag: nothing, or a space and its argument.
#[tactic(auto, unfolding(crate::specs::Lines::argument_after))]
fn argument_after(tag: Tag, bytes: &[u8]) -> Option<Argument>
    ensures { result ≡ argument_after tag bytes.now }
{
    if (tag == Tag::Stereo) | (tag == Tag::Ntsc) {
        return Some(Argument { len: 0, value: 1 });
    }
    if fields::byte_at(bytes, 0) != b' ' {
        return None;
    }
    let argument = value_at(tag, characters::after(bytes, 1))?;
    Some(Argument {
        len: argument.len + 1,
        value: argument.value,
    })
}

// internal: the line that stands at the front of bytes, without what closes it.
#[tactic(auto, unfolding(crate::specs::Lines::line_at))]
pub fn line_at(bytes: &[u8]) -> Option<Line>
    ensures { result ≡ line_at bytes.now }
{
    let tag = saptags::tag_at(bytes)?;
    let name = saptags::name_length(tag);
    let argument = argument_after(tag, characters::after(bytes, name))?;
    Some(Line {
        tag,
        len: name + argument.len,
        value: argument.value,
    })
}
