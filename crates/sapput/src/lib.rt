// The blocks of a SAP file put into memory, one after the other.
#![tactic(auto)]

ghost use Rattle.std.specs.Prelude.{◌≡◌, true, length};
ghost use Rattle.sapblocks.specs.Blocks.{blocks_in, are_whole, listed};
ghost use Rattle.sapput.specs.Putting.{blocks_put};

use sapblocks::Found;

// internal: puts the blocks from at on into memory, a later byte in the place of an earlier one, and changes
// no other cell. Callers see that the blocks are whole and that memory has 65,536 cells.
pub fn put_blocks(file: &[u8], at: usize, memory: &mut [u8])
    requires whole { are_whole (blocks_in file.now at) ≡ true }
    requires size { length memory.old ≡ 65536 }
    ensures { memory.new ≡ blocks_put file.now (listed (blocks_in file.now at)) memory.old }
{
    let mut place = at;
    // block_at answers None at the file's end alone: the blocks are whole
    while let Some(found) = sapblocks::block_at(file, place) {
        match found {
            Found::Marker(next) => {
                place = next;
            }
            Found::Whole(block, next) => {
                let len = (block.end - block.start) as usize + 1;
                fields::copy_to(
                    fields::part(file, block.from, len),
                    memory,
                    block.start as usize,
                );
                place = next;
            }
        }
    }
}
