// Commands whose first byte is not 01.
ghost use Rattle.std.specs.Prelude.{◌≡◌};
ghost use Rattle.command.specs.Others.{other_outcome};
ghost use Rattle.kind.specs.Kinds.{kind_of};
ghost use Rattle.kind.specs.Bytes.{event_if};

use crate::Kind;
use refusals::Reason;

// An event, or a value out of range.
fn event_if(within: bool) -> Kind
    ensures { result ≡ event_if within }
{
    if within {
        Kind::Event
    } else {
        Kind::Bad(Reason::ValueRange.number())
    }
}

// POR first, then what low bits leave unassigned; of low bits 10 only HED, the first bytes whose value has a
// range and 8E AE CE EE need a look. JIF's raw 758 to 823 are BE F6 to BE FF and FE 00 to FE 37. TPS is out
// of range from C0 on. RTP's five high bits exceed 22 from B8 on, and its result is below -47 where the low
// three bits are 7 and the second byte is below 60.
pub fn other_kind(first: u8, second: u8) -> Kind
    ensures { result ≡ kind_of (other_outcome first second) }
{
    if first % 4 == 3 {
        return Kind::Event;
    }
    if first % 4 != 2 {
        return Kind::Bad(Reason::UnassignedPair.number());
    }
    match first {
        0x36 => Kind::Hed(second as u16),
        0x76 => event_if(second <= 127),
        0xC6 => event_if(second <= 127),
        0xD6 => event_if(second <= 127),
        0x6E => event_if((second <= 7) | (249 <= second)),
        0xA6 => event_if(second < 0xC0),
        0x2E => event_if((second < 0xB8) & ((0x60 <= second) | (second % 8 < 7))),
        0xBE => event_if(second < 0xF6),
        0xFE => event_if(0x37 < second),
        0x8E => Kind::Bad(Reason::UnassignedPair.number()),
        0xAE => Kind::Bad(Reason::UnassignedPair.number()),
        0xCE => Kind::Bad(Reason::UnassignedPair.number()),
        0xEE => Kind::Bad(Reason::UnassignedPair.number()),
        _ => Kind::Event,
    }
}
