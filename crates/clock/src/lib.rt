// How long an event lasts, exactly, in 384ths of a jiffy, and which values hold after it, by its pair's two
// bytes. Internal.
#![tactic(auto)]

ghost use Rattle.std.specs.Prelude.{◌≡◌};
ghost use Rattle.pair.specs.Pairs.{meaning_of};
ghost use Rattle.clock.specs.Lengths.{at_start, length_of, values_after};

mod notes;

// What TEM, UTL and UTV have set.
#[derive(Clone, Copy)]
pub struct Values {
    pub tempo: u16,
    pub utl: u16,
    pub utv: u16,
}

// internal: what each voice starts with.
pub fn at_start() -> Values
    ensures { result ≡ at_start }
{
    Values {
        tempo: 120,
        utl: 0,
        utv: 0,
    }
}

// internal: the length of an event. Only notes have one, and only their first byte counts.
pub fn length(values: Values, first: u8, second: u8) -> u32
    ensures { result ≡ length_of values (meaning_of first second) }
{
    if first % 4 == 0 {
        notes::note_length(values, first)
    } else {
        0
    }
}

// internal: the values that hold after an event. Notes, the commonest, set none.
pub fn values_after(values: Values, first: u8, second: u8) -> Values
    ensures { result ≡ values_after values (meaning_of first second) }
{
    if first % 4 == 0 {
        return values;
    }
    let n = u16::from(second);
    match first {
        0x06 => Values {
            tempo: if n == 0 { 256 } else { n },
            ..values
        },
        0x16 => Values { utl: n, ..values },
        0xF6 => Values { utv: n, ..values },
        _ => values,
    }
}
