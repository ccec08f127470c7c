// Numbers, parts and texts in lent bytes, and the copy of bytes into memory. A read past the end gives 0, so
// that no reader needs to know a length first.
#![tactic(auto)]

ghost use Rattle.std.specs.Prelude.{◌≡◌, ◌+◌, ◌*◌, ◌≤◌, length, get_or, take, drop};
ghost use Rattle.fields.specs.Numbers.{be16, be32, le16};
ghost use Rattle.fields.specs.Parts.{part_of, before, put};
ghost use Rattle.fields.specs.Entries.{entry_start, entry_at};

// A part of lent bytes: its first byte and how many.
#[derive(Clone, Copy)]
pub struct Span {
    pub from: usize,
    pub len: usize,
}

// internal: the byte at k, 0 past the end.
pub fn byte_at(s: &[u8], k: usize) -> u8
    ensures { result ≡ get_or s.now k 0 }
{
    s.get(k).copied().unwrap_or(0)
}

// The byte that stands so many after k, 0 past the end.
fn byte_after(s: &[u8], k: usize, count: usize) -> u8
    ensures { result ≡ get_or s.now (k + count) 0 }
{
    byte_at(s, k.saturating_add(count))
}

// internal: two bytes from k on, high byte first.
#[tactic(auto, unfolding(crate::specs::Numbers::be16))]
pub fn be16(s: &[u8], k: usize) -> u16
    ensures { result ≡ be16 s.now k }
{
    u16::from_be_bytes([byte_at(s, k), byte_after(s, k, 1)])
}

// internal: two bytes from k on, low byte first.
#[tactic(auto, unfolding(crate::specs::Numbers::le16))]
pub fn le16(s: &[u8], k: usize) -> u16
    ensures { result ≡ le16 s.now k }
{
    u16::from_le_bytes([byte_at(s, k), byte_after(s, k, 1)])
}

// internal: four bytes from k on, high byte first.
#[tactic(auto, unfolding(crate::specs::Numbers::be16, crate::specs::Numbers::be32))]
pub fn be32(s: &[u8], k: usize) -> u32
    ensures { result ≡ be32 s.now k }
{
    u32::from_be_bytes([
        byte_at(s, k),
        byte_after(s, k, 1),
        byte_after(s, k, 2),
        byte_after(s, k, 3),
    ])
}

// internal: the len bytes from from on; of them only those that lie in the slice.
pub fn part(s: &[u8], from: usize, len: usize) -> &[u8]
    ensures { result.now ≡ take len (drop from s.now) }
{
    let rest = &s[from.min(s.len())..];
    &rest[..len.min(rest.len())]
}

// The bytes of a file that a span names; of them those that lie in the file. Headers and the answers to text
// lines give spans.
pub fn span_part(s: &[u8], span: Span) -> &[u8]
    ensures { result.now ≡ part_of s.now span }
{
    let from = span.from;
    let len = span.len;
    part(s, from, len)
}

// internal: how many bytes stand before the first mark; all of them where there is none.
pub fn length_before(s: &[u8], mark: u8) -> usize
    ensures { result ≡ length (before mark s.now) }
{
    s.iter().position(|&byte| byte == mark).unwrap_or(s.len())
}

// internal: an entry by its number, from 0 on, of a list with a mark after each entry; nothing past the last.
pub fn entry_at(list: &[u8], mark: u8, number: usize) -> &[u8]
    ensures { result.now ≡ entry_at list.now mark number }
{
    list.split(|&byte| byte == mark).nth(number).unwrap_or(&[])
}

// internal: the bytes of src in the place of as many of memory's from at on. Callers see that they fit. A loop:
// for copy_from_slice the archive would need a memmove from outside.
pub fn copy_to(src: &[u8], memory: &mut [u8], at: usize)
    requires { at + length src.now ≤ length memory.old }
    ensures { memory.new ≡ put memory.old at src.now }
{
    for j in 0..src.len() {
        memory[at + j] = src[j];
    }
}
