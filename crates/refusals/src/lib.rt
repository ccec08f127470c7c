// What a refused call answers: the reasons of the table 'What comes back' and of the requests by name, a
// refusal with its place, and the verdict of tests made in order.
#![tactic(auto)]

ghost use Rattle.std.specs.Prelude.{Some, ◌≡◌};
ghost use Rattle.refusals.specs.Numbers.{number_of, numbered, reason_numbered, unplaced, unplaced_number, numbers_of, shown};
ghost use Rattle.refusals.specs.Tests.{first_of, tested};

use std::fmt;

// Why a call refuses. Each reason has the paper's number.
#[derive(Clone, Copy, Debug, PartialEq, Eq)]
pub enum Reason {
    // PSID and RSID
    TooShort = 1,
    Magic = 2,
    Version = 3,
    DataOffset = 4,
    RsidReserved = 5,
    Songs = 6,
    ReservedBits = 7,
    MusPayload = 8,
    NoPayload = 9,
    PastMemory = 10,
    RsidLoad = 11,
    RsidInit = 12,
    FreePages = 13,
    // A MUS container
    MusShort = 21,
    MusPastMemory = 22,
    VoiceLength = 23,
    VoicesPastFile = 24,
    TextLines = 25,
    BytesAfterText = 26,
    // A MUS voice; the first two also answer for a pair by itself
    UnassignedPair = 27,
    ValueRange = 28,
    HltMisplaced = 29,
    Structure = 30,
    HedZero = 31,
    TooDeep = 32,
    TooLong = 33,
    // What a caller hands in
    MemorySize = 40,
    VoiceNumber = 41,
    ListLengths = 42,
    NoPair = 43,
    NoSuchSong = 44,
    // A SAP file
    SapFirstLine = 51,
    SapLine = 52,
    SapTags = 53,
    SapBlock = 54,
}

impl Reason {
    // The paper's number.
    pub fn number(self) -> u32
        ensures { result ≡ number_of self }
    {
        self as u32
    }
}

// Every reason, in the order of the numbers.
const REASONS: [Reason; 35] = [
    Reason::TooShort,
    Reason::Magic,
    Reason::Version,
    Reason::DataOffset,
    Reason::RsidReserved,
    Reason::Songs,
    Reason::ReservedBits,
    Reason::MusPayload,
    Reason::NoPayload,
    Reason::PastMemory,
    Reason::RsidLoad,
    Reason::RsidInit,
    Reason::FreePages,
    Reason::MusShort,
    Reason::MusPastMemory,
    Reason::VoiceLength,
    Reason::VoicesPastFile,
    Reason::TextLines,
    Reason::BytesAfterText,
    Reason::UnassignedPair,
    Reason::ValueRange,
    Reason::HltMisplaced,
    Reason::Structure,
    Reason::HedZero,
    Reason::TooDeep,
    Reason::TooLong,
    Reason::MemorySize,
    Reason::VoiceNumber,
    Reason::ListLengths,
    Reason::NoPair,
    Reason::NoSuchSong,
    Reason::SapFirstLine,
    Reason::SapLine,
    Reason::SapTags,
    Reason::SapBlock,
];

// A number that the table does not have.
#[derive(Clone, Copy, Debug, PartialEq, Eq)]
pub struct UnknownNumber(pub u32);

// The first of a list of reasons that has a number.
fn reason_in(reasons: &[Reason], number: u32) -> Result<Reason, UnknownNumber>
    ensures { result ≡ numbered reasons.now number }
{
    for &reason in reasons {
        if reason.number() == number {
            return Ok(reason);
        }
    }
    Err(UnknownNumber(number))
}

// The reason that has a number.
impl TryFrom<u32> for Reason {
    type Error = UnknownNumber;

    ghost try_from_gives = { λ number answer. answer ≡ reason_numbered number };

    fn try_from(number: u32) -> Result<Reason, UnknownNumber> {
        reason_in(&REASONS, number)
    }
}

// A refusal: why, and the place in the file, 0 where the paper gives none.
#[derive(Clone, Copy, Debug, PartialEq, Eq)]
pub struct Refusal {
    pub reason: Reason,
    pub place: usize,
}

// A refusal with no place of its own.
impl From<Reason> for Refusal {
    ghost from_gives = { λ reason refusal. refusal ≡ unplaced reason };

    fn from(reason: Reason) -> Refusal {
        Refusal { reason, place: 0 }
    }
}

// The number and the place.
impl fmt::Display for Refusal {
    ghost output = { λ x. Some (shown x) };

    fn fmt<W: fmt::Write>(&self, f: &mut fmt::Formatter<W>) -> fmt::Result {
        write!(f, "{} {}", self.reason.number(), self.place)
    }
}

// A refusal as the paper writes it, by its number: any number, also one that the table does not have.
#[derive(Clone, Copy, Debug, PartialEq, Eq)]
pub struct RefusalNumbers {
    pub number: u32,
    pub place: usize,
}

impl RefusalNumbers {
    // internal: a number with no place of its own.
    pub fn unplaced(number: u32) -> RefusalNumbers
        ensures { result ≡ unplaced_number number }
    {
        RefusalNumbers { number, place: 0 }
    }
}

// A refusal's number and place.
impl From<Refusal> for RefusalNumbers {
    ghost from_gives = { λ x numbers. numbers ≡ numbers_of x };

    fn from(x: Refusal) -> RefusalNumbers {
        RefusalNumbers {
            number: x.reason.number(),
            place: x.place,
        }
    }
}

// A reason beside the condition under which it applies.
#[derive(Clone, Copy, Debug)]
pub struct Test {
    pub reason: Reason,
    pub applies: bool,
}

// internal: the verdict of tests made in order: none applies, or the reason of the first that does.
pub fn first_of(tests: &[Test]) -> Result<(), Reason>
    ensures { result ≡ first_of tests.now }
{
    let mut verdict = Ok(());
    for test in tests {
        verdict = tested(verdict, test.applies, test.reason);
    }
    verdict
}

// internal: the verdict after one more test, for tests that are made one by one: a verdict that refuses stays.
// What stands for a test may be a reason, a number, or what else a caller has.
pub fn tested<E: Copy>(verdict: Result<(), E>, applies: bool, reason: E) -> Result<(), E>
    ensures { result ≡ tested verdict applies reason }
{
    match verdict {
        Ok(()) => { if applies { Err(reason) } else { Ok(()) } }
        Err(first) => Err(first),
    }
}
