// Atari SAP files, types B, C, D and S, read: tested, and what an accepted file says of itself, of each song
// and of each block. Every call answers for every file and number; none has a requires.
#![tactic(auto)]

ghost use Rattle.std.specs.Prelude.{◌≡◌};
ghost use Rattle.refusals.specs.Numbers.{outcome_of};
ghost use Rattle.sap.specs.FirstLine.{first_line};
ghost use Rattle.sap.specs.Answers.{sap_outcome, moment_for, tested_outcome};

use refusals::{Reason, Refusal};
use sapblocks::Block;
use sapheader::Header;
use saptags::Tag;
use saptext::Stated;

// What a file that passes its tests is answered with: its header, what TIME states for the song, if it does,
// and the block asked for, if there is one. time is 2 × milliseconds, plus 1 where LOOP follows.
#[derive(Clone, Copy)]
pub struct Tested {
    pub header: Header,
    pub time: Option<u32>,
    pub block: Option<Block>,
}

// internal: whether a file begins with the line SAP.
pub fn begins(file: &[u8]) -> bool
    ensures { result ≡ first_line file.now }
{
    file.starts_with(b"SAP\r\n")
}

// What a line of TIME states.
fn moment_for(stated: Option<Stated>) -> Option<u32>
    ensures { result ≡ moment_for stated }
{
    stated.map(|s| s.value)
}

// internal: tests a file, and answers what its header, the TIME of a song and a block are made of.
pub fn test(file: &[u8], song: u64, block: u64) -> Result<Tested, Refusal>
    ensures { outcome_of result ≡ tested_outcome file.now song block }
{
    if !begins(file) {
        return Err(Reason::SapFirstLine.into());
    }
    let read = saptext::read_lines(file, song);
    let Some(lines) = &read else {
        return Err(Reason::SapLine.into());
    };
    if saprules::is_against(lines) {
        return Err(Reason::SapTags.into());
    }
    let walked = sapblocks::walk(file, lines.end, block).ok_or(Reason::SapBlock)?;
    let header = sapheader::header_of(lines, walked.count);
    let time = moment_for(lines.stated(Tag::Time));
    Ok(Tested {
        header,
        time,
        block: walked.wanted,
    })
}

// Reads a file: its header, or the first refusal that applies.
pub fn read(file: &[u8]) -> Result<Header, Refusal>
    ensures { outcome_of result ≡ sap_outcome file.now }
{
    let tested = test(file, 0, 0)?;
    Ok(tested.header)
}
