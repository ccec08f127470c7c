// The tests of a SAP file's tags against its type and its number of songs (53).
#![tactic(auto)]

ghost use Rattle.std.specs.Prelude.{◌≡◌};
ghost use Rattle.saptext.specs.Reading.{states_of};
ghost use Rattle.saprules.specs.Against.{value_or, type_against, against};

use saptags::Tag;
use saptext::{Lines, Stated};

// The tags against the type: its letter, and whether INIT, MUSIC and PLAYER are there.
fn type_against(letter: u32, init: bool, music: bool, player: bool) -> bool
    ensures { result ≡ type_against letter init music player }
{
    let b = letter == 0x42;
    let c = letter == 0x43;
    let other = b | (letter == 0x44) | (letter == 0x53);
    !(other | c) | other & !init | c & init | c & !music | other & music | (b | c) & !player
}

// internal: a value where its tag is there, else another one.
pub fn value_or(stated: Option<Stated>, other: u32) -> u32
    ensures { result ≡ value_or other stated }
{
    match stated {
        Some(stated) => stated.value,
        None => other,
    }
}

// internal: the test of the tags against the type and against SONGS.
#[tactic(auto, unfolding(crate::specs::Against::against))]
pub fn is_against(lines: &Lines) -> bool
    ensures { result ≡ against (states_of lines.now.cells) lines.now.times }
{
    let letter = value_or(lines.stated(Tag::Type), 0);
    let songs = value_or(lines.stated(Tag::Songs), 1);
    let first = value_or(lines.stated(Tag::DefSong), 0);
    let wrong = type_against(
        letter,
        lines.stated(Tag::Init).is_some(),
        lines.stated(Tag::Music).is_some(),
        lines.stated(Tag::Player).is_some(),
    );
    wrong | ((songs <= first) | ((songs as usize) < lines.times))
}
