// Pairs whose first byte is 01, by the low nibble of the second.
ghost use Rattle.std.specs.Prelude.{◌≡◌};
ghost use Rattle.commandtable.specs.Codes.{second_outcome};
ghost use Rattle.kind.specs.Kinds.{kind_of};
ghost use Rattle.kind.specs.Bytes.{event_unless, row3, row_b, row_f};

use crate::Kind;
use refusals::Reason;

// An event, or a pair that 004 does not assign.
fn event_unless(unassigned: bool) -> Kind
    ensures { result ≡ event_unless unassigned }
{
    if unassigned {
        Kind::Bad(Reason::UnassignedPair.number())
    } else {
        Kind::Event
    }
}

// DEF 16 to 23 from 83 on; below it switches.
fn row_3(second: u8) -> Kind
    ensures { result ≡ row3 second }
{
    if 0x80 <= second {
        Kind::Def(second as u16 / 16 + 8)
    } else {
        event_unless(second == 0x53)
    }
}

// CAL 16 to 23 from 8B on; below it switches.
fn row_b(second: u8) -> Kind
    ensures { result ≡ row_b second }
{
    if 0x80 <= second {
        Kind::Cal(second as u16 / 16 + 8)
    } else {
        Kind::Event
    }
}

// TAL, END, HLT; the others are SRC, DST and six bytes that 004 does not assign.
fn row_f(second: u8) -> Kind
    ensures { result ≡ row_f second }
{
    match second {
        0x0F => Kind::Tal,
        0x2F => Kind::End,
        0x4F => Kind::Hlt,
        _ => {
            let low = (second == 0x6F) | (second == 0x7F) | (second == 0x9F);
            event_unless(low | (second == 0xBF) | (second == 0xCF) | (second == 0xFF))
        }
    }
}

pub fn second_kind(second: u8) -> Kind
    ensures { result ≡ kind_of (second_outcome second) }
{
    match second % 16 {
        0x2 => Kind::Cal(second as u16 / 16),
        0x3 => row_3(second),
        0x6 => Kind::Def(second as u16 / 16),
        0xB => row_b(second),
        0xF => row_f(second),
        _ => Kind::Event,
    }
}
