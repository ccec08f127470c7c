// PSID and RSID files, versions 1 and 2, read: tested, and what an accepted file says of itself, also of each
// song. Every call answers for every file and number; none has a requires.
#![tactic(auto)]

ghost use Rattle.std.specs.Prelude.{◌≡◌};
ghost use Rattle.refusals.specs.Numbers.{outcome_of};
ghost use Rattle.sid.specs.Answers.{sid_outcome, tested_outcome};
ghost use Rattle.sid.specs.Speed.{song_speed};

use fields::Span;
use refusals::{Reason, Refusal};
use sidheader::Parts;

pub mod accepted;
pub mod speed;

// The bytes of a version 1 header: no shorter file is accepted.
const SHORTEST: usize = 118;

// What the file's first four bytes say it is.
#[derive(Clone, Copy, Debug, PartialEq, Eq)]
pub enum Kind {
    Psid,
    Rsid,
}

// What an accepted file says of itself. load and init are the effective addresses; start is the start song, 1
// where the file has 0; basic is flag bit 1 (BASIC in an RSID, PlaySID-specific in a PSID), clock bits 2-3,
// model bits 4-5; page and pages are start page and page length.
#[derive(Clone, Copy)]
pub struct Header {
    pub kind: Kind,
    pub version: u16,
    pub load: u16,
    pub init: u16,
    pub play: u16,
    pub songs: u16,
    pub start: u16,
    pub speed: u32,
    pub basic: bool,
    pub clock: u16,
    pub model: u16,
    pub page: u16,
    pub pages: u16,
    pub title: Span,
    pub author: Span,
    pub released: Span,
    pub payload: Span,
}

// internal: tests a file, and does not look for the ends of its texts: only the header needs them. Answers
// what its header is made of, or the first refusal that applies.
pub fn test(file: &[u8]) -> Result<Parts, Refusal>
    ensures { outcome_of result ≡ tested_outcome file.now }
{
    // the first test by itself: past it the compiler knows that the header is there, and leaves out a check
    // at each byte
    if file.len() < SHORTEST {
        return Err(Reason::TooShort.into());
    }
    let fields = sidheader::read_fields(file);
    sidrefusals::test_header(fields)?;
    let payload = sidheader::payload_of(file, fields);
    let parts = Parts { fields, payload };
    sidrefusals::test_payload(parts)?;
    Ok(parts)
}

// Reads a file: its header, or the first refusal that applies.
pub fn read(file: &[u8]) -> Result<Header, Refusal>
    ensures { outcome_of result ≡ sid_outcome file.now }
{
    // as in test: past it the compiler knows that the texts are there, and unrolls the search for their ends
    if file.len() < SHORTEST {
        return Err(Reason::TooShort.into());
    }
    let parts = test(file)?;
    Ok(accepted::header_of(file, parts))
}

// The speed bit of a song, counted from 1, by the header of its file; 44 for a song that is not there.
pub fn song_speed(header: Header, song: u64) -> Result<u32, Refusal>
    ensures { outcome_of result ≡ song_speed header song }
{
    speed::speed_of(header.songs, header.speed, song)
}
