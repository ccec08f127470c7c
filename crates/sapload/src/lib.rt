// A SAP file loaded into memory. The call answers for every file and memory; it has no requires.
#![tactic(auto)]

ghost use Rattle.std.specs.Prelude.{◌≡◌, length};
ghost use Rattle.refusals.specs.Numbers.{outcome_of};
ghost use Rattle.sapload.specs.Loading.{sap_load_outcome, sap_memory_after};

use refusals::{Reason, Refusal};
use sapheader::Header;

// Loads a file: puts its blocks into the 65,536 cells of memory, one after the other, and nothing else.
// A refusal changes no cell.
pub fn load(file: &[u8], memory: &mut [u8]) -> Result<Header, Refusal>
    ensures answer { outcome_of result ≡ sap_load_outcome file.now (length memory.old) }
    ensures cells { memory.new ≡ sap_memory_after file.now memory.old }
{
    if memory.len() != 65536 {
        return Err(Reason::MemorySize.into());
    }
    let header = sap::read(file)?;
    sapput::put_blocks(file, header.first, memory);
    Ok(header)
}
