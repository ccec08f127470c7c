// The blocks of a SAP file: where each lies in the file and in memory. Of a block's bytes only the four of
// its addresses are looked at. Every call answers for every file and number; none has a requires.
#![tactic(auto)]

ghost use Rattle.std.specs.Prelude.{◌≡◌, drop};
ghost use Rattle.sapblocks.specs.Blocks.{marker, blocks_in};
ghost use Rattle.sapblocks.specs.Answers.{found_at, walked_in};

// A block: its first and its last cell in memory, and where its first data byte stands in the file.
#[derive(Clone, Copy, Debug, PartialEq, Eq)]
pub struct Block {
    pub start: u16,
    pub end: u16,
    pub from: usize,
}

// What stands at an offset of a file: FF FF, or a block, each with the offset after it.
#[derive(Clone, Copy, Debug, PartialEq, Eq)]
pub enum Found {
    Marker(usize),
    Whole(Block, usize),
}

// What a walk over a file's blocks finds: how many there are, and the one asked for, if there is one.
#[derive(Clone, Copy, Debug, PartialEq, Eq)]
pub struct Walked {
    pub count: usize,
    pub wanted: Option<Block>,
}

// The bytes from at on; none past the end.
fn bytes_from(file: &[u8], at: usize) -> &[u8]
    ensures { result.now ≡ drop at file.now }
{
    fields::part(file, at, file.len())
}

// internal: FF FF stands at at.
pub fn is_marker(file: &[u8], at: usize) -> bool
    ensures { result ≡ marker (drop at file.now) }
{
    let s = bytes_from(file, at);
    let first = fields::byte_at(s, 0);
    let second = fields::byte_at(s, 1);
    (first == 0xFF) & (second == 0xFF)
}

// internal: what stands at at; None where neither does. Of a block only its addresses are read.
pub fn block_at(file: &[u8], at: usize) -> Option<Found>
    ensures { result ≡ found_at file.now at }
{
    if is_marker(file, at) {
        return Some(Found::Marker(at + 2));
    }
    let s = bytes_from(file, at);
    let start = fields::le16(s, 0);
    let end = fields::le16(s, 2);
    if (s.len() < 4) | (end < start) | ((start <= 0x02E3) & (0x02E0 <= end)) {
        return None;
    }
    let size = (end - start) as usize + 1;
    if s.len() < 4 + size {
        return None;
    }
    let from = at + 4;
    Some(Found::Whole(Block { start, end, from }, from + size))
}

// internal: goes once over the blocks from at on: how many there are, and the one of the number asked for,
// counted from 0; None where they are not whole. They end with a block, not with FF FF.
pub fn walk(file: &[u8], at: usize, number: u64) -> Option<Walked>
    ensures { result ≡ walked_in (blocks_in file.now at) number }
{
    let mut place = at;
    let mut count: usize = 0;
    let mut wanted = None;
    loop {
        let found = block_at(file, place)?;
        match found {
            Found::Marker(next) => {
                place = next;
            }
            Found::Whole(block, next) => {
                if count as u64 == number {
                    wanted = Some(block);
                }
                count += 1;
                if next >= file.len() {
                    return Some(Walked { count, wanted });
                }
                place = next;
            }
        }
    }
}
