// The calls of MUS files for C and Rust, with answers as docs/INTERFACE.md fixes them.
// Each answers for every file and every number; none has a requires.
#![tactic(auto)]

ghost use Rattle.std.specs.Prelude.{◌≡◌, length};
ghost use Rattle.mus.specs.Song.{mus_outcome};
ghost use Rattle.events.specs.Listing.{listing};
ghost use Rattle.answers.specs.Answers.{packed, list_after};
ghost use Rattle.muscalls.specs.Lists.{song_numbers};

mod songs;

// internal: the body of tt_mus_accept.
pub fn accept(file: &[u8], out: &mut [u32]) -> u64
    ensures answer { result ≡ packed (λ s. length (song_numbers s)) (mus_outcome file.now) }
    ensures cells { out.new ≡ list_after song_numbers (mus_outcome file.now) out.old }
{
    match mus::accept(file) {
        Err(x) => answers::refused(x.reason.number(), x.place),
        Ok(s) => {
            let numbers = songs::song_numbers(s);
            answers::fill(&numbers, out);
            12
        }
    }
}

// internal: the body of tt_mus_list.
pub fn list(file: &[u8], voice: u32, first: u64, offsets: &mut [u32], jiffies: &mut [u32]) -> u64
    ensures answer { result ≡ packed (λ count. count) (listing file.now voice first offsets.old jiffies.old).answer }
    ensures places { offsets.new ≡ (listing file.now voice first offsets.old jiffies.old).offsets }
    ensures times { jiffies.new ≡ (listing file.now voice first offsets.old jiffies.old).jiffies }
{
    match events::list(file, voice, first, offsets, jiffies) {
        Err(x) => answers::refused(x.reason.number(), x.place),
        Ok(count) => count as u64,
    }
}
