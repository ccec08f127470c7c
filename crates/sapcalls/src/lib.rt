// The calls of SAP files for C and Rust, with answers as docs/INTERFACE.md fixes them: reading, the header's
// fields, loading. Each answers for every file and every number; none has a requires.
#![tactic(auto)]

ghost use Rattle.std.specs.Prelude.{◌≡◌, length};
ghost use Rattle.sap.specs.Answers.{sap_outcome};
ghost use Rattle.sapload.specs.Loading.{sap_load_outcome, sap_memory_after};
ghost use Rattle.answers.specs.Answers.{packed, no_value, list_after};
ghost use Rattle.sapcalls.specs.Lists.{sap_numbers};

pub mod numbers;

// internal: the body of tt_sap_read.
pub fn read(file: &[u8]) -> u64
    ensures { result ≡ packed no_value (sap_outcome file.now) }
{
    match sap::read(file) {
        Err(x) => answers::refused(x.reason.number(), x.place),
        Ok(_) => 0,
    }
}

// internal: the body of tt_sap_fields.
pub fn fields(file: &[u8], out: &mut [u32]) -> u64
    ensures answer { result ≡ packed (λ h. length (sap_numbers h)) (sap_outcome file.now) }
    ensures cells { out.new ≡ list_after sap_numbers (sap_outcome file.now) out.old }
{
    match sap::read(file) {
        Err(x) => answers::refused(x.reason.number(), x.place),
        Ok(h) => {
            let list = numbers::sap_numbers(h);
            answers::fill(&list, out);
            21
        }
    }
}

// internal: the body of tt_sap_load.
pub fn load(file: &[u8], memory: &mut [u8]) -> u64
    ensures answer { result ≡ packed no_value (sap_load_outcome file.now (length memory.old)) }
    ensures cells { memory.new ≡ sap_memory_after file.now memory.old }
{
    match sapload::load(file, memory) {
        Err(x) => answers::refused(x.reason.number(), x.place),
        Ok(_) => 0,
    }
}
