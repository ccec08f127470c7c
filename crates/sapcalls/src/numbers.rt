// The header of a SAP file as a list of numbers.
ghost use Rattle.std.specs.Prelude.{◌≡◌};
ghost use Rattle.sapcalls.specs.Lists.{narrowed, kind_numbers, text_numbers, sap_numbers};

use fields::Span;
use sapheader::{Header, Player};

// internal: a count or an offset in 32 bits, 4,294,967,295 for a greater one.
pub fn narrow(n: usize) -> u32
    ensures { result ≡ narrowed n }
{
    n.min(0xFFFFFFFF) as u32
}

// Where a text stands and how long it is.
fn text_numbers(place: Option<Span>) -> [u32; 2]
    ensures { result ≡ text_numbers place }
{
    match place {
        None => [0, 0],
        Some(s) => [narrow(s.from), narrow(s.len)],
    }
}

// The type's letter, init, music and player, and whether there is a player.
fn player_numbers(p: Player) -> [u32; 5]
    ensures { result ≡ kind_numbers p }
{
    match p {
        Player::B(a) => [0x42, a.init as u32, 0, a.player as u32, 1],
        Player::C(a) => [0x43, 0, a.music as u32, a.player as u32, 1],
        Player::D(a) => {
            let player = a.player.unwrap_or(0);
            [
                0x44,
                a.init as u32,
                0,
                player as u32,
                a.player.is_some() as u32,
            ]
        }
        Player::S(a) => [0x53, a.init as u32, 0, 0, 0],
    }
}

// internal: the fields in the order of docs/INTERFACE.md.
pub fn sap_numbers(h: Header) -> [u32; 21]
    ensures { result ≡ sap_numbers h }
{
    let player = h.player;
    let author = h.author;
    let name = h.name;
    let date = h.date;
    let kind = player_numbers(player);
    let stated = h.stated.is_some();
    let by = text_numbers(author);
    let called = text_numbers(name);
    let made = text_numbers(date);
    let times = narrow(h.times);
    let blocks = narrow(h.blocks);
    let first = narrow(h.first);
    [
        kind[0],
        h.songs,
        h.default,
        h.stereo as u32,
        h.ntsc as u32,
        h.covox as u32,
        h.fastplay as u32,
        stated as u32,
        kind[1],
        kind[2],
        kind[3],
        kind[4],
        by[0],
        by[1],
        called[0],
        called[1],
        made[0],
        made[1],
        times,
        blocks,
        first,
    ]
}
