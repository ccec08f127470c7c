// The calls of a card's files for C and Rust, with answers as docs/INTERFACE.md fixes them: the kind of a
// file, and the reason for a number. Neither refuses, and neither has a requires.
#![tactic(auto)]

ghost use Rattle.std.specs.Prelude.{◌≡◌, length};
ghost use Rattle.fields.specs.Parts.{front};
ghost use Rattle.card.specs.Kinds.{file_kind};
ghost use Rattle.reasons.specs.Phrases.{phrase_at};

// internal: the body of tt_kind.
pub fn kind(file: &[u8]) -> u64
    ensures { result ≡ file_kind file.now }
{
    card::kind_of(file) as u64
}

// internal: the body of tt_reason.
pub fn reason(number: u32, out: &mut [u8]) -> u64
    ensures answer { result ≡ length (phrase_at number) }
    ensures cells { out.new ≡ front (phrase_at number) out.old }
{
    reasons::reason(number, out) as u64
}
