// A song's duration at the front of lent bytes: the argument of TIME. Each is found in one pass.
#![tactic(auto)]

ghost use Rattle.std.specs.Prelude.{Some, ◌≡◌, ◌<◌, ◌^◌};
ghost use Rattle.saptimes.specs.Times.{thousandths, fraction_at, looped_at, clock_at, time_at};

use saparguments::Argument;

// What one unit of a fraction's last digit is, in milliseconds.
fn unit_of(digits: usize) -> u32
    ensures { result ≡ thousandths digits }
{
    match digits {
        1 => 100,
        2 => 10,
        _ => 1,
    }
}

// The fraction of a second, where one stands there.
fn fraction_at(bytes: &[u8]) -> Option<Argument>
    ensures { result ≡ fraction_at bytes.now }
{
    if fields::byte_at(bytes, 0) != b'.' {
        return Some(Argument { len: 0, value: 0 });
    }
    let digits = characters::digits_of(characters::after(bytes, 1), 10);
    if (1 <= digits.len) & (digits.len <= 3) {
        Some(Argument {
            len: digits.len + 1,
            value: digits.value * unit_of(digits.len),
        })
    } else {
        None
    }
}

// A duration of so many bytes and milliseconds, with LOOP where it stands after them.
fn looped_at(bytes: &[u8], len: usize, milliseconds: u32) -> Argument
    requires { (len < 2 ^ 63) × (milliseconds < 2 ^ 31) }
    ensures { Some result ≡ looped_at len milliseconds bytes.now }
{
    if characters::stands(b" LOOP", bytes) {
        Argument {
            len: len + 5,
            value: 2 * milliseconds + 1,
        }
    } else {
        Argument {
            len,
            value: 2 * milliseconds,
        }
    }
}

// Minutes and seconds: the value is in seconds.
fn clock_at(bytes: &[u8]) -> Option<Argument>
    ensures { result ≡ clock_at bytes.now }
{
    let minutes = characters::digits_of(bytes, 10);
    let mark = fields::byte_at(bytes, minutes.len);
    let seconds = characters::digits_of(characters::after(bytes, minutes.len + 1), 10);
    if ((minutes.len == 1) | (minutes.len == 2)) & (mark == b':') & (seconds.len == 2) {
        Some(Argument {
            len: minutes.len + 1 + seconds.len,
            value: minutes.value * 60 + seconds.value,
        })
    } else {
        None
    }
}

// internal: a duration, with LOOP where it follows.
pub fn time_at(bytes: &[u8]) -> Option<Argument>
    ensures { result ≡ time_at bytes.now }
{
    let clock = clock_at(bytes)?;
    let rest = characters::after(bytes, clock.len);
    let fraction = fraction_at(rest)?;
    let len = clock.len + fraction.len;
    let milliseconds = clock.value * 1000 + fraction.value;
    Some(looped_at(characters::after(rest, fraction.len), len, milliseconds))
}
