// Characters at the front of lent bytes: the digits, the text and the words that stand there, each found in
// one pass.
#![tactic(auto)]

ghost use Rattle.std.specs.Prelude.{◌≡◌, ◌<◌, ◌≤◌, length, drop};
ghost use Rattle.characters.specs.Characters.{digit_value, is_text_character, leading, stands, digits_of};

// Greater than every number that a caller compares with; a greater number is given as this one.
pub const MOST: u32 = 0xFFFFFF;

// How many digits stand at the front of bytes, and their number, or MOST where it is greater.
#[derive(Clone, Copy, Debug, PartialEq, Eq)]
pub struct Digits {
    pub len: usize,
    pub value: u32,
}

// What a digit means, 16 for a byte that is no digit.
fn digit_value(b: u8) -> u32
    ensures { result ≡ digit_value b }
{
    if (0x30 <= b) & (b <= 0x39) {
        return b as u32 - 0x30;
    }
    if (0x41 <= b) & (b <= 0x46) {
        return b as u32 - 0x37;
    }
    16
}

// Whether a byte may stand in a text.
fn is_text_character(b: u8) -> bool
    ensures { result ≡ is_text_character b }
{
    ((0x20 <= b) & (b <= 0x5F) | (0x61 <= b) & (b <= 0x7A) | (b == 0x7C)) & !(b == 0x22)
}

// internal: the bytes from the nth on; none where there are fewer.
pub fn after(bytes: &[u8], n: usize) -> &[u8]
    ensures { result.now ≡ drop n bytes.now }
{
    &bytes[n.min(bytes.len())..]
}

// internal: the digits of a base that stand at the front of bytes.
pub fn digits_of(bytes: &[u8], base: u32) -> Digits
    requires { (0 < base) × (base ≤ 16) }
    ensures { result ≡ digits_of base bytes.now }
{
    let mut digits = Digits { len: 0, value: 0 };
    for &b in bytes {
        let digit = digit_value(b);
        if base <= digit {
            return digits;
        }
        digits.value = (digits.value * base + digit).min(MOST);
        digits.len += 1;
    }
    digits
}

// internal: how many characters of a text stand at the front of bytes.
pub fn text_length(bytes: &[u8]) -> usize
    ensures { result ≡ length (leading is_text_character bytes.now) }
{
    bytes.iter().take_while(|&&b| is_text_character(b)).count()
}

// internal: whether a word stands at the front of bytes. A byte past the end counts as 0, which no word has;
// so `starts_with` would answer otherwise for a word with a 0 in it.
pub fn stands(word: &[u8], bytes: &[u8]) -> bool
    ensures { result ≡ stands word.now bytes.now }
{
    for (n, &b) in word.iter().enumerate() {
        if fields::byte_at(bytes, n) != b {
            return false;
        }
    }
    true
}
