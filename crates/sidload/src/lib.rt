// A PSID or RSID file loaded into memory. The call answers for every file and memory; it has no requires.
#![tactic(auto)]

ghost use Rattle.std.specs.Prelude.{◌≡◌, length};
ghost use Rattle.refusals.specs.Numbers.{outcome_of};
ghost use Rattle.sidload.specs.Loading.{load_outcome, put_outcome, memory_after};

use refusals::{Reason, Refusal};
use sid::Header;
use sidheader::Parts;

// internal: what load does, without the header.
pub fn put_payload(file: &[u8], memory: &mut [u8]) -> Result<Parts, Refusal>
    ensures answer { outcome_of result ≡ put_outcome file.now (length memory.old) }
    ensures cells { memory.new ≡ memory_after file.now memory.old }
{
    if memory.len() != 65536 {
        return Err(Reason::MemorySize.into());
    }
    let parts = sid::test(file)?;
    let p = parts.payload;
    fields::copy_to(fields::part(file, p.from, p.len), memory, p.load as usize);
    Ok(parts)
}

#[tactic(auto, using(crate::proofs::Outcomes::load_refused, crate::proofs::Outcomes::load_done))]
// Loads a file: puts its payload into the 65,536 cells of memory, and nothing else.
// A refusal changes no cell.
pub fn load(file: &[u8], memory: &mut [u8]) -> Result<Header, Refusal>
    ensures answer { outcome_of result ≡ load_outcome file.now (length memory.old) }
    ensures cells { memory.new ≡ memory_after file.now memory.old }
{
    let parts = put_payload(file, memory)?;
    Ok(sid::accepted::header_of(file, parts))
}
