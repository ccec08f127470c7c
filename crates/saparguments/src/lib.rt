// The arguments of a SAP header's tags, each at the front of lent bytes. Each is found in one pass.
#![tactic(auto)]

ghost use Rattle.std.specs.Prelude.{◌≡◌};
ghost use Rattle.saparguments.specs.Arguments.{decimal_at, address_at, covox_at, letter_at, text_at};

// An argument that fits: its length in bytes and its value.
#[derive(Clone, Copy, Debug, PartialEq, Eq)]
pub struct Argument {
    pub len: usize,
    pub value: u32,
}

// internal: a decimal number within bounds, without leading zeros.
pub fn decimal_at(bytes: &[u8], low: u32, high: u32) -> Option<Argument>
    ensures { result ≡ decimal_at low high bytes.now }
{
    let digits = characters::digits_of(bytes, 10);
    let len = digits.len;
    let value = digits.value;
    let first = fields::byte_at(bytes, 0);
    if ((len == 1) | (1 < len) & !(first == 0x30)) & (low <= value) & (value <= high) {
        Some(Argument { len, value })
    } else {
        None
    }
}

// internal: an address of four hex digits.
pub fn address_at(bytes: &[u8]) -> Option<Argument>
    ensures { result ≡ address_at bytes.now }
{
    let digits = characters::digits_of(bytes, 16);
    let len = digits.len;
    let value = digits.value;
    if len == 4 {
        Some(Argument { len, value })
    } else {
        None
    }
}

// internal: the one address that COVOX can have.
pub fn covox_at(bytes: &[u8]) -> Option<Argument>
    ensures { result ≡ covox_at bytes.now }
{
    let digits = characters::digits_of(bytes, 16);
    let len = digits.len;
    let value = digits.value;
    if (len == 4) & (value == 0xD600) {
        Some(Argument { len, value })
    } else {
        None
    }
}

// internal: the letter of a type: B, C, D, S or R.
pub fn letter_at(bytes: &[u8]) -> Option<Argument>
    ensures { result ≡ letter_at bytes.now }
{
    let b = fields::byte_at(bytes, 0);
    if (b == b'B') | (b == b'C') | (b == b'D') | (b == b'S') | (b == b'R') {
        Some(Argument {
            len: 1,
            value: b as u32,
        })
    } else {
        None
    }
}

// internal: a text in quotes.
pub fn text_at(bytes: &[u8]) -> Option<Argument>
    ensures { result ≡ text_at bytes.now }
{
    let open = fields::byte_at(bytes, 0);
    let body = characters::after(bytes, 1);
    let n = characters::text_length(body);
    let close = fields::byte_at(body, n);
    if (open == b'"') & (close == b'"') & (n <= 120) {
        Some(Argument {
            len: n + 2,
            value: n as u32,
        })
    } else {
        None
    }
}
