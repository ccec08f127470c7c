// The calls of SAP files for C and Rust that go by a number: the time of a song, a block, with answers as
// docs/INTERFACE.md fixes them. Each answers for every file and every number; none has a requires.
#![tactic(auto)]

ghost use Rattle.std.specs.Prelude.{Some, ◌≡◌, length};
ghost use Rattle.sapparts.specs.Asked.{time_outcome, block_outcome};
ghost use Rattle.answers.specs.Answers.{packed, list_after};
ghost use Rattle.sapasked.specs.Lists.{time_number, block_numbers};

use sapblocks::Block;

// internal: the body of tt_sap_time.
pub fn time(file: &[u8], song: u32) -> u64
    ensures { result ≡ packed time_number (time_outcome file.now song) }
{
    match sapparts::time(file, song as u64) {
        Err(x) => answers::refused(x.reason.number(), x.place),
        Ok(None) => 0xFFFFFFFF,
        Ok(Some(d)) => 2 * d.milliseconds as u64 + d.looped as u64,
    }
}

// A block's start, its end and where its first data byte stands.
fn block_numbers(b: Block) -> [u32; 3]
    ensures { result ≡ block_numbers (Some b) }
{
    let from = sapcalls::numbers::narrow(b.from);
    [b.start as u32, b.end as u32, from]
}

// internal: the body of tt_sap_block.
pub fn block(file: &[u8], number: u32, out: &mut [u32]) -> u64
    ensures answer { result ≡ packed (λ b. length (block_numbers b)) (block_outcome file.now number) }
    ensures cells { out.new ≡ list_after block_numbers (block_outcome file.now number) out.old }
{
    match sapparts::block(file, number as u64) {
        Err(x) => answers::refused(x.reason.number(), x.place),
        Ok(None) => 0,
        Ok(Some(b)) => {
            let numbers = block_numbers(b);
            answers::fill(&numbers, out);
            3
        }
    }
}
