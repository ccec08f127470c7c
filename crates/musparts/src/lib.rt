// Calls of MUS files for C and Rust, part by part: the load address, a text line, where the voices lie, and
// how long a voice lasts, with answers as docs/INTERFACE.md fixes them. Each answers for every file and every
// number; none has a requires.
#![tactic(auto)]

ghost use Rattle.std.specs.Prelude.{◌≡◌, length};
ghost use Rattle.container.specs.Head.{head_outcome};
ghost use Rattle.mus.specs.Song.{mus_outcome};
ghost use Rattle.mus.specs.Text.{line_asked};
ghost use Rattle.voicelength.specs.Length.{length_asked};
ghost use Rattle.answers.specs.Answers.{packed, list_after};
ghost use Rattle.musparts.specs.Lists.{line_numbers, place_numbers, time_numbers};

mod places;

// internal: the body of tt_mus_load.
pub fn load(file: &[u8]) -> u64
    ensures { result ≡ packed (λ s. s.load) (mus_outcome file.now) }
{
    match mus::accept(file) {
        Err(x) => answers::refused(x.reason.number(), x.place),
        Ok(s) => s.load as u64,
    }
}

// internal: the body of tt_mus_line.
pub fn line(file: &[u8], line: u32, out: &mut [u32]) -> u64
    ensures answer { result ≡ packed (λ l. length (line_numbers l)) (line_asked file.now line) }
    ensures cells { out.new ≡ list_after line_numbers (line_asked file.now line) out.old }
{
    match mus::text_line(file, line as u64) {
        Err(x) => answers::refused(x.reason.number(), x.place),
        // a match of its own: of `Ok(None)` and `Ok(Some(s))` the proof has no names for what is known
        Ok(place) => match place {
            None => 0,
            Some(s) => {
                let numbers = places::line_numbers(s);
                answers::fill(&numbers, out);
                2
            }
        },
    }
}

// internal: the body of tt_mus_voices.
pub fn voices(file: &[u8], out: &mut [u32]) -> u64
    ensures answer { result ≡ packed (λ v. length (place_numbers v)) (head_outcome file.now) }
    ensures cells { out.new ≡ list_after place_numbers (head_outcome file.now) out.old }
{
    match container::read_head(file) {
        Err(x) => answers::refused(x.reason.number(), x.place),
        Ok(v) => {
            let numbers = places::place_numbers(v);
            answers::fill(&numbers, out);
            6
        }
    }
}

// internal: the body of tt_mus_length.
pub fn voice_length(file: &[u8], voice: u32, out: &mut [u64]) -> u64
    ensures answer { result ≡ packed (λ t. length (time_numbers t)) (length_asked file.now voice) }
    ensures cells { out.new ≡ list_after time_numbers (length_asked file.now voice) out.old }
{
    match voicelength::length(file, voice) {
        Err(x) => answers::refused(x.reason.number(), x.place),
        Ok(t) => {
            answers::fill(&[t], out);
            1
        }
    }
}
