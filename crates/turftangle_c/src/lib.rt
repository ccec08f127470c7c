// The static library for C and Rust: the twenty functions of the crate turftangle, each with its clauses.
// tools/archive makes target/staticlib/libturftangle.a of it.
#![tactic(auto)]

ghost use Rattle.std.specs.Prelude.{◌≡◌, length};
ghost use Rattle.fields.specs.Parts.{front};
ghost use Rattle.sid.specs.Answers.{sid_outcome};
ghost use Rattle.sidload.specs.Loading.{load_outcome, memory_after};
ghost use Rattle.sidspeed.specs.Speed.{speed_outcome};
ghost use Rattle.sap.specs.Answers.{sap_outcome};
ghost use Rattle.sapload.specs.Loading.{sap_load_outcome, sap_memory_after};
ghost use Rattle.sapparts.specs.Asked.{time_outcome, block_outcome};
ghost use Rattle.container.specs.Head.{head_outcome};
ghost use Rattle.mus.specs.Song.{mus_outcome};
ghost use Rattle.mus.specs.Text.{line_asked};
ghost use Rattle.events.specs.Listing.{listing};
ghost use Rattle.voicelength.specs.Length.{length_asked};
ghost use Rattle.pair.specs.Pairs.{meaning_of};
ghost use Rattle.codes.specs.Coding.{code_of};
ghost use Rattle.answers.specs.Answers.{packed, no_value, list_after};
ghost use Rattle.sidcalls.specs.Lists.{header_numbers};
ghost use Rattle.sapcalls.specs.Lists.{sap_numbers};
ghost use Rattle.sapasked.specs.Lists.{time_number, block_numbers};
ghost use Rattle.muscalls.specs.Lists.{song_numbers};
ghost use Rattle.musparts.specs.Lists.{line_numbers, place_numbers, time_numbers};
ghost use Rattle.paircalls.specs.Written.{bytes_number, written};
ghost use Rattle.paircalls.specs.HalfSteps.{half_step_outcome};
ghost use Rattle.card.specs.Kinds.{file_kind};
ghost use Rattle.reasons.specs.Phrases.{phrase_at};

// What a file is: 1 PSID, 2 RSID, 3 MUS, 4 SAP, 0 none of them; accepted or not.
#[unsafe(no_mangle)]
pub extern "C" fn tt_kind(file: &[u8]) -> u64
    ensures { result ≡ file_kind file.now }
{
    turftangle::tt_kind(file)
}

// The phrase of a refusal's number, as much of it as fits; how long it is, 0 for a number without one.
#[unsafe(no_mangle)]
pub extern "C" fn tt_reason(number: u32, out: &mut [u8]) -> u64
    ensures answer { result ≡ length (phrase_at number) }
    ensures cells { out.new ≡ front (phrase_at number) out.old }
{
    turftangle::tt_reason(number, out)
}

// Reads a PSID or RSID file: 0, or the first of 1 to 13 that applies.
#[unsafe(no_mangle)]
pub extern "C" fn tt_sid_read(file: &[u8]) -> u64
    ensures { result ≡ packed no_value (sid_outcome file.now) }
{
    turftangle::tt_sid_read(file)
}

// The header's fields of a PSID or RSID file, as many as fit; how many there are, 21.
#[unsafe(no_mangle)]
pub extern "C" fn tt_sid_fields(file: &[u8], out: &mut [u32]) -> u64
    ensures answer { result ≡ packed (λ h. length (header_numbers h)) (sid_outcome file.now) }
    ensures cells { out.new ≡ list_after header_numbers (sid_outcome file.now) out.old }
{
    turftangle::tt_sid_fields(file, out)
}

// Loads a PSID or RSID file into the 65,536 cells of memory: 0, or 40, or the file's refusal.
#[unsafe(no_mangle)]
pub extern "C" fn tt_sid_load(file: &[u8], memory: &mut [u8]) -> u64
    ensures answer { result ≡ packed no_value (load_outcome file.now (length memory.old)) }
    ensures cells { memory.new ≡ memory_after file.now memory.old }
{
    turftangle::tt_sid_load(file, memory)
}

// The speed bit of a song of a PSID or RSID file, counted from 1: 0 or 1, the file's refusal, or 44.
#[unsafe(no_mangle)]
pub extern "C" fn tt_sid_speed(file: &[u8], song: u32) -> u64
    ensures { result ≡ packed (λ bit. bit) (speed_outcome file.now song) }
{
    turftangle::tt_sid_speed(file, song)
}

// Reads a SAP file: 0, or the first of 51 to 54 that applies.
#[unsafe(no_mangle)]
pub extern "C" fn tt_sap_read(file: &[u8]) -> u64
    ensures { result ≡ packed no_value (sap_outcome file.now) }
{
    turftangle::tt_sap_read(file)
}

// The header's fields of a SAP file, as many as fit; how many there are, 21.
#[unsafe(no_mangle)]
pub extern "C" fn tt_sap_fields(file: &[u8], out: &mut [u32]) -> u64
    ensures answer { result ≡ packed (λ h. length (sap_numbers h)) (sap_outcome file.now) }
    ensures cells { out.new ≡ list_after sap_numbers (sap_outcome file.now) out.old }
{
    turftangle::tt_sap_fields(file, out)
}

// Loads a SAP file into the 65,536 cells of memory: 0, or 40, or the file's refusal.
#[unsafe(no_mangle)]
pub extern "C" fn tt_sap_load(file: &[u8], memory: &mut [u8]) -> u64
    ensures answer { result ≡ packed no_value (sap_load_outcome file.now (length memory.old)) }
    ensures cells { memory.new ≡ sap_memory_after file.now memory.old }
{
    turftangle::tt_sap_load(file, memory)
}

// The time of a song of a SAP file, counted from 0: 2 × milliseconds, plus 1 where LOOP follows;
// 4,294,967,295 where the file does not state it; the file's refusal, or 44.
#[unsafe(no_mangle)]
pub extern "C" fn tt_sap_time(file: &[u8], song: u32) -> u64
    ensures { result ≡ packed time_number (time_outcome file.now song) }
{
    turftangle::tt_sap_time(file, song)
}

// A block of a SAP file, counted from 0: 3, with as many of start, end and the offset of its first data byte
// as fit; 0 where there is no such block; or the file's refusal.
#[unsafe(no_mangle)]
pub extern "C" fn tt_sap_block(file: &[u8], number: u32, out: &mut [u32]) -> u64
    ensures answer { result ≡ packed (λ b. length (block_numbers b)) (block_outcome file.now number) }
    ensures cells { out.new ≡ list_after block_numbers (block_outcome file.now number) out.old }
{
    turftangle::tt_sap_block(file, number, out)
}

// Accepts a MUS file: 12, with as many of the voices' numbers as fit, or the first of 21 to 33 that applies.
#[unsafe(no_mangle)]
pub extern "C" fn tt_mus_accept(file: &[u8], out: &mut [u32]) -> u64
    ensures answer { result ≡ packed (λ s. length (song_numbers s)) (mus_outcome file.now) }
    ensures cells { out.new ≡ list_after song_numbers (mus_outcome file.now) out.old }
{
    turftangle::tt_mus_accept(file, out)
}

// Lists the events of a voice of a MUS file from event number first on: how many cells of each list are
// filled, or 41, 42, or the file's refusal.
#[unsafe(no_mangle)]
pub extern "C" fn tt_mus_list(
    file: &[u8],
    voice: u32,
    first: u64,
    offsets: &mut [u32],
    jiffies: &mut [u32],
) -> u64
    ensures answer { result ≡ packed (λ count. count) (listing file.now voice first offsets.old jiffies.old).answer }
    ensures places { offsets.new ≡ (listing file.now voice first offsets.old jiffies.old).offsets }
    ensures times { jiffies.new ≡ (listing file.now voice first offsets.old jiffies.old).jiffies }
{
    turftangle::tt_mus_list(file, voice, first, offsets, jiffies)
}

// The load address of a MUS file, or the first of 21 to 33 that applies.
#[unsafe(no_mangle)]
pub extern "C" fn tt_mus_load(file: &[u8]) -> u64
    ensures { result ≡ packed (λ s. s.load) (mus_outcome file.now) }
{
    turftangle::tt_mus_load(file)
}

// Where a text line of a MUS file lies, 1 to 5: 2, with as many of offset and length as fit; 0 for any other
// line; or the first of 21 to 33 that applies.
#[unsafe(no_mangle)]
pub extern "C" fn tt_mus_line(file: &[u8], line: u32, out: &mut [u32]) -> u64
    ensures answer { result ≡ packed (λ l. length (line_numbers l)) (line_asked file.now line) }
    ensures cells { out.new ≡ list_after line_numbers (line_asked file.now line) out.old }
{
    turftangle::tt_mus_line(file, line, out)
}

// Where the voices of a MUS file lie: 6, with as many of their offsets and pairs as fit, or the first of 21
// to 24 that applies.
#[unsafe(no_mangle)]
pub extern "C" fn tt_mus_voices(file: &[u8], out: &mut [u32]) -> u64
    ensures answer { result ≡ packed (λ v. length (place_numbers v)) (head_outcome file.now) }
    ensures cells { out.new ≡ list_after place_numbers (head_outcome file.now) out.old }
{
    turftangle::tt_mus_voices(file, out)
}

// How long a voice of a MUS file lasts: 1, with the exact time of its HLT in 384ths of a jiffy in the first
// cell if there is one; or 41 for any other voice than 1 to 3, then the first of 21 to 33 that applies.
#[unsafe(no_mangle)]
pub extern "C" fn tt_mus_length(file: &[u8], voice: u32, out: &mut [u64]) -> u64
    ensures answer { result ≡ packed (λ t. length (time_numbers t)) (length_asked file.now voice) }
    ensures cells { out.new ≡ list_after time_numbers (length_asked file.now voice) out.old }
{
    turftangle::tt_mus_length(file, voice, out)
}

// Reads a pair of a MUS voice: the code of its meaning, or 27 or 28.
#[unsafe(no_mangle)]
pub extern "C" fn tt_pair_read(first: u8, second: u8) -> u64
    ensures { result ≡ packed code_of (meaning_of first second) }
{
    turftangle::tt_pair_read(first, second)
}

// Writes a meaning by its code: first × 256 + second, or 43.
#[unsafe(no_mangle)]
pub extern "C" fn tt_pair_write(code: u32) -> u64
    ensures { result ≡ packed bytes_number (written code) }
{
    turftangle::tt_pair_write(code)
}

// The half-step of a note by its code: the half-step + 1, 0 to 97, or 43.
#[unsafe(no_mangle)]
pub extern "C" fn tt_half_step(code: u32) -> u64
    ensures { result ≡ packed (λ n. n) (half_step_outcome code) }
{
    turftangle::tt_half_step(code)
}
