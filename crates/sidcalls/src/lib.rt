// The calls of PSID and RSID files for C and Rust, with answers as docs/INTERFACE.md fixes them.
// Each answers for every file and every number; none has a requires.
#![tactic(auto)]

ghost use Rattle.std.specs.Prelude.{◌≡◌, length};
ghost use Rattle.sid.specs.Answers.{sid_outcome};
ghost use Rattle.sidload.specs.Loading.{load_outcome, memory_after};
ghost use Rattle.sidspeed.specs.Speed.{speed_outcome};
ghost use Rattle.answers.specs.Answers.{packed, no_value, list_after};
ghost use Rattle.sidcalls.specs.Lists.{header_numbers};

mod tunes;

// internal: the body of tt_sid_read.
pub fn read(file: &[u8]) -> u64
    ensures { result ≡ packed no_value (sid_outcome file.now) }
{
    match sid::test(file) {
        Ok(_) => 0,
        Err(x) => answers::refused(x.reason.number(), x.place),
    }
}

// internal: the body of tt_sid_fields.
pub fn fields(file: &[u8], out: &mut [u32]) -> u64
    ensures answer { result ≡ packed (λ h. length (header_numbers h)) (sid_outcome file.now) }
    ensures cells { out.new ≡ list_after header_numbers (sid_outcome file.now) out.old }
{
    match sid::read(file) {
        Ok(h) => {
            let numbers = tunes::header_numbers(h);
            answers::fill(&numbers, out);
            21
        }
        Err(x) => answers::refused(x.reason.number(), x.place),
    }
}

// internal: the body of tt_sid_load.
pub fn load(file: &[u8], memory: &mut [u8]) -> u64
    ensures answer { result ≡ packed no_value (load_outcome file.now (length memory.old)) }
    ensures cells { memory.new ≡ memory_after file.now memory.old }
{
    match sidload::put_payload(file, memory) {
        Ok(_) => 0,
        Err(x) => answers::refused(x.reason.number(), x.place),
    }
}

// internal: the body of tt_sid_speed.
pub fn speed(file: &[u8], song: u32) -> u64
    ensures { result ≡ packed (λ bit. bit) (speed_outcome file.now song) }
{
    match sidspeed::speed_of_song(file, song as u64) {
        Ok(bit) => bit as u64,
        Err(x) => answers::refused(x.reason.number(), x.place),
    }
}
