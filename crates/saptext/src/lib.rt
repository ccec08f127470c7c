// The lines of a SAP header, read in one pass: what each tag states, in a cell of its own.
#![tactic(auto)]

ghost use Rattle.std.specs.Prelude.{◌≡◌, ◌<◌, length};
ghost use Rattle.saptext.specs.Text.{text_in};
ghost use Rattle.saptext.specs.Reading.{entry_at, states_of, text_read};

use saptags::Tag;

// What a line of a tag states: where a text that it has stands in the file, and its argument's value.
#[derive(Clone, Copy, Debug, PartialEq, Eq)]
pub struct Stated {
    pub place: usize,
    pub value: u32,
}

// A line with the CR LF that closes it: its tag, what it states, and where the next line begins.
#[derive(Clone, Copy, Debug, PartialEq, Eq)]
pub struct Entry {
    pub tag: Tag,
    pub stated: Stated,
    pub next: usize,
}

// What good lines state. FF FF stands at end; times is how many TIMEs there are; cells has what each tag
// states, by its number, and of TIME what that of the song asked for states.
#[derive(Clone, Copy, Debug, PartialEq, Eq)]
pub struct Lines {
    pub end: usize,
    pub times: usize,
    pub cells: [Option<Stated>; 14],
}

impl Lines {
    // internal: what a tag states, where the file has it.
    pub fn stated(&self, tag: Tag) -> Option<Stated>
        ensures { result ≡ states_of self.now.cells tag }
    {
        self.cells[saptags::number_of(tag)]
    }
}

// The line that stands at a place.
#[tactic(auto, unfolding(crate::specs::Reading::entry_at))]
fn entry_at(file: &[u8], at: usize) -> Option<Entry>
    requires { at < length file.now }
    ensures { result ≡ entry_at file.now at }
{
    let line = saplines::line_at(characters::after(file, at))?;
    let end = at + line.len;
    if !characters::stands(b"\r\n", characters::after(file, end)) {
        return None;
    }
    Some(Entry {
        tag: line.tag,
        stated: Stated {
            place: at + saptags::name_length(line.tag) + 2,
            value: line.value,
        },
        next: end + 2,
    })
}

// internal: the lines of a file after its first, with the TIME of a song, counted from 0; nothing where one
// is bad, or comes again, or where FF FF does not end them.
pub fn read_lines(file: &[u8], song: u64) -> Option<Lines>
    ensures { result ≡ text_read song (text_in file.now) }
{
    let mut cells = [None; 14];
    let mut times: usize = 0;
    let mut at: usize = 5;
    // It counts no index: each line says where the next begins, and no iterator of the library cuts at CR LF.
    while at < file.len() {
        if sapblocks::is_marker(file, at) {
            return Some(Lines {
                end: at,
                times,
                cells,
            });
        }
        let entry = entry_at(file, at)?;
        let number = saptags::number_of(entry.tag);
        if entry.tag == Tag::Time {
            if times as u64 == song {
                cells[number] = Some(entry.stated);
            }
            times += 1;
        } else {
            if cells[number].is_some() {
                return None;
            }
            cells[number] = Some(entry.stated);
        }
        at = entry.next;
    }
    None
}
