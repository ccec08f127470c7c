// Two lent lists filled in step: offsets and jiffies of events, from one event on.
#![tactic(auto)]

ghost use Rattle.std.specs.Prelude.{◌≡◌, ◌<◌, length};
ghost use Rattle.cells.specs.Cells.{cursor_after, cells_after};

// How many events are passed over before the first one asked for, and how many cells are filled.
#[derive(Clone, Copy)]
pub struct Cursor {
    pub skip: u64,
    pub filled: usize,
}

// internal: an event goes by. It is passed over, or its offset and jiffy fill the next cells. The lists stand
// apart, as C lends them.
pub fn put(
    cursor: Cursor,
    offset: u32,
    jiffy: u32,
    offsets: &mut [u32],
    jiffies: &mut [u32],
) -> Cursor
    requires { (cursor.filled < length offsets.old) × (cursor.filled < length jiffies.old) }
    ensures { (result ≡ cursor_after cursor) × (offsets.new ≡ cells_after cursor offset offsets.old) × (jiffies.new ≡ cells_after cursor jiffy jiffies.old) }
{
    if cursor.skip == 0 {
        offsets[cursor.filled] = offset;
        jiffies[cursor.filled] = jiffy;
        Cursor {
            filled: cursor.filled + 1,
            ..cursor
        }
    } else {
        Cursor {
            skip: cursor.skip - 1,
            ..cursor
        }
    }
}
