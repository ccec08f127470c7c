// Tests that only events pass.
ghost use Rattle.std.specs.Prelude.{◌≡◌};
ghost use Rattle.kind.specs.Plain.{plain_second, plain_first};

// A low nibble of a second byte after 01: those of CAL and DEF, and those with a pair that is no event, are
// left out.
pub fn plain_second(nibble: u8) -> bool
    ensures { result ≡ plain_second nibble }
{
    match nibble {
        0x2 => false,
        0x3 => false,
        0x6 => false,
        0xB => false,
        0xF => false,
        _ => true,
    }
}

// Any other first byte: POR, and of low bits 10 all but HED, those whose value has a range, and those that
// are unassigned.
pub fn plain_first(first: u8) -> bool
    ensures { result ≡ plain_first first }
{
    if first % 4 != 2 {
        return first % 4 == 3;
    }
    match first {
        0x36 => false,
        0x76 => false,
        0xC6 => false,
        0xD6 => false,
        0x6E => false,
        0xA6 => false,
        0x2E => false,
        0xBE => false,
        0xFE => false,
        0x8E => false,
        0xAE => false,
        0xCE => false,
        0xEE => false,
        _ => true,
    }
}
