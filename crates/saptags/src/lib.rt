// The tags of a SAP header: which one stands at a place, its number, and how long its name is.
#![tactic(auto)]

ghost use Rattle.std.specs.Prelude.{◌≡◌, None, length};
ghost use Rattle.saptags.specs.Tags.{name_of, index_of, tag_at, named_by};

// A tag, in source 002's order.
#[derive(Clone, Copy, Debug, PartialEq, Eq)]
pub enum Tag {
    Author,
    Name,
    Date,
    Songs,
    DefSong,
    Stereo,
    Ntsc,
    Type,
    FastPlay,
    Init,
    Music,
    Player,
    Covox,
    Time,
}

// A tag's name.
fn name_of(tag: Tag) -> &'static [u8]
    ensures { result.now ≡ name_of tag }
{
    match tag {
        Tag::Author => b"AUTHOR",
        Tag::Name => b"NAME",
        Tag::Date => b"DATE",
        Tag::Songs => b"SONGS",
        Tag::DefSong => b"DEFSONG",
        Tag::Stereo => b"STEREO",
        Tag::Ntsc => b"NTSC",
        Tag::Type => b"TYPE",
        Tag::FastPlay => b"FASTPLAY",
        Tag::Init => b"INIT",
        Tag::Music => b"MUSIC",
        Tag::Player => b"PLAYER",
        Tag::Covox => b"COVOX",
        Tag::Time => b"TIME",
    }
}

// A tag where its name stands at the front of bytes.
fn named(tag: Tag, bytes: &[u8]) -> Option<Tag>
    ensures { result ≡ named_by (name_of tag) tag bytes.now None }
{
    if characters::stands(name_of(tag), bytes) {
        Some(tag)
    } else {
        None
    }
}

// The first of two tags whose name stands at the front of bytes.
fn either(first: Tag, second: Tag, bytes: &[u8]) -> Option<Tag>
    ensures { result ≡ named_by (name_of first) first bytes.now (named_by (name_of second) second bytes.now None) }
{
    if characters::stands(name_of(first), bytes) {
        return Some(first);
    }
    named(second, bytes)
}

// internal: the tag whose name stands at the front of bytes. At most two names begin with the same letter.
pub fn tag_at(bytes: &[u8]) -> Option<Tag>
    ensures { result ≡ tag_at bytes.now }
{
    match fields::byte_at(bytes, 0) {
        b'A' => named(Tag::Author, bytes),
        b'N' => either(Tag::Name, Tag::Ntsc, bytes),
        b'D' => either(Tag::Date, Tag::DefSong, bytes),
        b'S' => either(Tag::Songs, Tag::Stereo, bytes),
        b'T' => either(Tag::Type, Tag::Time, bytes),
        b'F' => named(Tag::FastPlay, bytes),
        b'I' => named(Tag::Init, bytes),
        b'M' => named(Tag::Music, bytes),
        b'P' => named(Tag::Player, bytes),
        b'C' => named(Tag::Covox, bytes),
        _ => None,
    }
}

// internal: a tag's number, counted from 0 in the order above.
pub fn number_of(tag: Tag) -> usize
    ensures { result ≡ index_of tag }
{
    tag as usize
}

// internal: how many letters a tag's name has.
pub fn name_length(tag: Tag) -> usize
    ensures { result ≡ length (name_of tag) }
{
    name_of(tag).len()
}
