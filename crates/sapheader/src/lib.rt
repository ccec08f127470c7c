// What a SAP file says of itself, made of what its tags state.
#![tactic(auto)]

ghost use Rattle.std.specs.Prelude.{◌≡◌, ◌≤◌};
ghost use Rattle.saptags.specs.declared.Tag.{Tag};
ghost use Rattle.saplines.specs.Laws.{most_of};
ghost use Rattle.saptext.specs.Reading.{states_of, value_of};
ghost use Rattle.sapheader.specs.Header.{text_for, number_for, usual_rate, player_with, player_for, header_for};

use fields::Span;
use saptags::Tag;
use saptext::{Lines, Stated};

// Type B: the addresses of its init and its player routine.
#[derive(Clone, Copy)]
pub struct Called {
    pub init: u16,
    pub player: u16,
}

// Type C: the addresses of its music and its player routine.
#[derive(Clone, Copy)]
pub struct Composed {
    pub music: u16,
    pub player: u16,
}

// Type D: the address of its init routine, and of its player routine, which it may not have.
#[derive(Clone, Copy)]
pub struct Digital {
    pub init: u16,
    pub player: Option<u16>,
}

// Type S: the address of its init routine.
#[derive(Clone, Copy)]
pub struct Synthetic {
    pub init: u16,
}

// The kinds of player, each with the addresses that it needs.
#[derive(Clone, Copy)]
pub enum Player {
    B(Called),
    C(Composed),
    D(Digital),
    S(Synthetic),
}

// What an accepted file says of itself. default is the song to begin with, counted from 0; stated is FASTPLAY
// as the file states it, if it does, and fastplay as it holds; author, name and date are where these texts
// lie in the file, without their quotes, where it has them; first is where the first FF FF stands.
#[derive(Clone, Copy)]
pub struct Header {
    pub player: Player,
    pub songs: u32,
    pub default: u32,
    pub stereo: bool,
    pub ntsc: bool,
    pub covox: bool,
    pub stated: Option<u16>,
    pub fastplay: u16,
    pub author: Option<Span>,
    pub name: Option<Span>,
    pub date: Option<Span>,
    pub times: usize,
    pub blocks: usize,
    pub first: usize,
}

// Where a text lies, if its tag is there.
fn text_for(stated: Option<Stated>) -> Option<Span>
    ensures { result ≡ text_for stated }
{
    stated.map(|s| Span {
        from: s.place,
        len: s.value as usize,
    })
}

// A number of 16 bits, an address or FASTPLAY, if its tag is there.
fn number_for(stated: Option<Stated>) -> Option<u16>
    requires { value_of stated ≤ 0xFFFF }
    ensures { result ≡ number_for stated }
{
    let s = stated?;
    Some(s.value as u16)
}

// FASTPLAY where it is not stated, by the type's letter and the machine.
fn usual_rate(letter: u32, ntsc: bool) -> u16
    ensures { result ≡ usual_rate letter ntsc }
{
    if letter == 0x53 {
        return 78;
    }
    if ntsc { 262 } else { 312 }
}

// The player of a type's letter, of the addresses that the tags state.
fn player_with(letter: u32, init: u16, music: u16, player: Option<u16>) -> Player
    ensures { result ≡ player_with letter init music player }
{
    match letter {
        0x42 => Player::B(Called {
            init,
            player: player.unwrap_or(0),
        }),
        0x43 => Player::C(Composed {
            music,
            player: player.unwrap_or(0),
        }),
        0x44 => Player::D(Digital { init, player }),
        _ => Player::S(Synthetic { init }),
    }
}

// The player of a file, of its lines.
fn player_of(lines: &Lines) -> Player
    requires { (t : Tag) → value_of (states_of lines.now.cells t) ≤ most_of t }
    ensures { result ≡ player_for (states_of lines.now.cells) }
{
    let letter = saprules::value_or(lines.stated(Tag::Type), 0);
    let init = number_for(lines.stated(Tag::Init)).unwrap_or(0);
    let music = number_for(lines.stated(Tag::Music)).unwrap_or(0);
    let player = number_for(lines.stated(Tag::Player));
    player_with(letter, init, music, player)
}

// internal: the header of a file, of its lines and how many blocks it has.
pub fn header_of(lines: &Lines, blocks: usize) -> Header
    requires { (t : Tag) → value_of (states_of lines.now.cells t) ≤ most_of t }
    ensures { result ≡ header_for (states_of lines.now.cells) lines.now.times blocks lines.now.end }
{
    let player = player_of(lines);
    let letter = saprules::value_or(lines.stated(Tag::Type), 0);
    let songs = saprules::value_or(lines.stated(Tag::Songs), 1);
    let default = saprules::value_or(lines.stated(Tag::DefSong), 0);
    let stereo = lines.stated(Tag::Stereo).is_some();
    let ntsc = lines.stated(Tag::Ntsc).is_some();
    let covox = lines.stated(Tag::Covox).is_some();
    let stated = number_for(lines.stated(Tag::FastPlay));
    let fastplay = stated.unwrap_or(usual_rate(letter, ntsc));
    let author = text_for(lines.stated(Tag::Author));
    let name = text_for(lines.stated(Tag::Name));
    let date = text_for(lines.stated(Tag::Date));
    Header {
        player,
        songs,
        default,
        stereo,
        ntsc,
        covox,
        stated,
        fastplay,
        author,
        name,
        date,
        times: lines.times,
        blocks,
        first: lines.end,
    }
}
