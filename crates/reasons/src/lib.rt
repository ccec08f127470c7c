// The reason for each number, in words for a person.
#![tactic(auto)]

ghost use Rattle.std.specs.Prelude.{◌≡◌, length};
ghost use Rattle.fields.specs.Parts.{byte_text, front};
ghost use Rattle.fields.specs.Entries.{entry_at, entries_joined};
ghost use Rattle.reasons.specs.Phrases.{phrase_of, phrase_at, phrase_lines};

use refusals::Reason;

// The phrase of a reason.
fn phrase_of(reason: Reason) -> &'static str
    ensures { result.now ≡ byte_text (phrase_of reason) }
{
    match reason {
        Reason::TooShort => "too short for a PSID or RSID header",
        Reason::Magic => "it begins neither with PSID nor with RSID",
        Reason::Version => "its version is not one that we read (PSID 1 and 2, RSID 2)",
        Reason::DataOffset => "its data offset is not that of its version",
        Reason::RsidReserved => "an RSID whose load, play or speed field is not 0",
        Reason::Songs => "no song, more than 256 songs, or a start song past the last",
        Reason::ReservedBits => "reserved flag bits or the reserved word are set",
        Reason::MusPayload =>
            "it is marked as a MUS song that needs a player: use the MUS file itself",
        Reason::NoPayload => "there is no byte to load after the header",
        Reason::PastMemory => "the payload runs past the end of memory, $FFFF",
        Reason::RsidLoad => "an RSID that loads below $07E8",
        Reason::RsidInit => "an RSID whose init address is not allowed",
        Reason::FreePages => "the free pages that it states cannot be free",
        Reason::MusShort => "under 8 bytes, too short for a MUS song",
        Reason::MusPastMemory =>
            "too long for a MUS song: over 65,536 bytes, or past the end of memory, $FFFF",
        Reason::VoiceLength => "a voice's length is 0 or odd",
        Reason::VoicesPastFile => "the voices run past the end of the file: is it cut off?",
        Reason::TextLines => "its text is not five lines of at most 32 letters and an end mark",
        Reason::BytesAfterText => "bytes follow the end of the text",
        Reason::UnassignedPair => "no command has these two bytes",
        Reason::ValueRange => "a command's value is out of its range",
        Reason::HltMisplaced => "HLT must be the last pair of a voice and stand nowhere else",
        Reason::Structure => "repeats (HED, TAL) or phrases (DEF, END, CAL) do not fit together",
        Reason::HedZero => "a repeat of 0 passes (HED 0)",
        Reason::TooDeep => "repeats and calls are nested more than 16 deep",
        Reason::TooLong => "the voice is too long when played: over 1,048,576 pairs",
        Reason::MemorySize => "the memory to load into has not 65,536 bytes",
        Reason::VoiceNumber => "the voice is not 1, 2 or 3",
        Reason::ListLengths => "the two lists have unequal lengths",
        Reason::NoPair => "no pair of bytes has this meaning",
        Reason::NoSuchSong => "the file has no song of this number",
        Reason::SapFirstLine => "its first line is not SAP",
        Reason::SapLine => "a line of its header is bad or stands twice, or no FF FF follows it",
        Reason::SapTags => "its tags do not fit its type or its number of songs",
        Reason::SapBlock => "a block is bad, cut off or missing",
    }
}

// Puts the phrase of a number into the first cells of a list, as much of it as fits, and answers the phrase's
// whole length; nothing and 0 for a number that the table does not have. Written as the lines of one text, in
// the order of the numbers from 0 on, the phrases have it as the line with this number.
pub fn reason(number: u32, out: &mut [u8]) -> usize
    ensures answer { result ≡ length (phrase_at number) }
    ensures cells { out.new ≡ front (phrase_at number) out.old }
    ensures line { out.new ≡ front (entry_at (entries_joined 10 phrase_lines) 10 number) out.old }
{
    let Ok(reason) = Reason::try_from(number) else {
        return 0;
    };
    let phrase = phrase_of(reason).as_bytes();
    answers::fill(phrase, out);
    phrase.len()
}
