// The length of a note from its first byte. A 32nd of tempo 1 has 12; each value is twice the next; dotted,
// triplet and double dotted have 18, 8 and 21 for each 12.
ghost use Rattle.std.specs.Prelude.{◌≡◌, ◌<◌};
ghost use Rattle.note.specs.Reading.{length_in_byte, utility_of};
ghost use Rattle.clock.specs.Lengths.{plain_length, shaped};
ghost use Rattle.clock.specs.Shares.{thirty_seconds, twelfths_of};

use crate::Values;

// How many 32nds a value from a whole note to a 32nd has, by the three-bit code.
fn thirty_seconds(code: u8) -> u32
    requires { (1 < code) × (code < 8) }
    ensures { result ≡ thirty_seconds code }
{
    128u32 >> code
}

// What a 32nd of tempo 1 has, by bits 7 and 5: plain, dotted, triplet, double dotted.
fn twelfths(bit7: u8, bit5: u8) -> u32
    ensures { result ≡ twelfths_of bit7 bit5 }
{
    match (bit7, bit5) {
        (0, 0) => 12,
        (0, _) => 18,
        (_, 0) => 8,
        _ => 21,
    }
}

// Utility voice goes by UTV, utility duration by UTL.
fn utility_length(values: Values, bit7: u8, bit5: u8) -> u32
    ensures { result ≡ shaped (utility_of bit7 bit5).shape (plain_length values (utility_of bit7 bit5).duration) }
{
    match (bit7, bit5) {
        (0, 0) => 384 * u32::from(values.utl),
        (_, 0) => 256 * u32::from(values.utl),
        _ => 384 * u32::from(values.utv),
    }
}

// The length of a note.
pub fn note_length(values: Values, first: u8) -> u32
    ensures { result ≡ shaped (length_in_byte first).shape (plain_length values (length_in_byte first).duration) }
{
    if first == 0 {
        return 0;
    }
    let bit7 = first / 128;
    let bit5 = first / 32 % 2;
    let code = first / 4 % 8;
    let tempo = u32::from(values.tempo);
    match (code, bit7) {
        (0, 0) => 6 * tempo,
        (0, _) => 4 * tempo,
        (1, _) => utility_length(values, bit7, bit5),
        _ => thirty_seconds(code) * twelfths(bit7, bit5) * tempo,
    }
}
