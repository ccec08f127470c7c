// Refusals 1 to 13: the tests of a PSID or RSID file, in the paper's order.
#![tactic(auto)]

ghost use Rattle.std.specs.Prelude.{◌≡◌, ◌+◌, ◌-◌, ◌/◌, ◌^◌, ◌<◌};
ghost use Rattle.refusals.specs.Tests.{first_of};
ghost use Rattle.sidrefusals.specs.HeaderTests.{header_tests};
ghost use Rattle.sidrefusals.specs.Pages.{any_page, between, bad_pages};
ghost use Rattle.sidrefusals.specs.PayloadTests.{barred_init, payload_tests};

use refusals::Reason;
use sidheader::{Fields, Parts};

// internal: the tests of the header's fields, 1 to 8.
pub fn test_header(x: Fields) -> Result<(), Reason>
    ensures { result ≡ first_of (header_tests x) }
{
    let psid = x.magic == sidheader::PSID;
    let rsid = x.magic == sidheader::RSID;
    let one = x.version == 1;
    let two = x.version == 2;
    let short = x.size < 118;
    let magic = !psid & !rsid;
    let version = !(one | two) | rsid & !two;
    let short_of_two = two & (x.size < 124);
    let offset = one & (x.offset != 0x76) | two & (x.offset != 0x7C);
    let reserved = rsid & ((x.load != 0) | (x.play != 0) | (x.speed != 0));
    let songs = (x.songs == 0) | (256 < x.songs) | (x.songs < x.start);
    let bits = (x.flags / 64 != 0) | (x.reserved != 0);
    let music = x.flags % 2 == 1;
    // a branch at each test, for speed: made without one, all of them are made (docs/SPEED.md)
    if short {
        Err(Reason::TooShort)
    } else if magic {
        Err(Reason::Magic)
    } else if version {
        Err(Reason::Version)
    } else if short_of_two {
        Err(Reason::TooShort)
    } else if offset {
        Err(Reason::DataOffset)
    } else if reserved {
        Err(Reason::RsidReserved)
    } else if songs {
        Err(Reason::Songs)
    } else if bits {
        Err(Reason::ReservedBits)
    } else if music {
        Err(Reason::MusPayload)
    } else {
        Ok(())
    }
}

#[tactic(auto, unfolding(crate::specs::PayloadTests::barred_init))]
// An address at which the init of an RSID may not stand.
fn is_barred_init(address: u16) -> bool
    ensures { result ≡ barred_init address }
{
    let rom = (0xA000 <= address) & (address <= 0xBFFF);
    let high = (0xD000 <= address) & (address <= 0xFFFF);
    (address < 0x07E8) | rom | high
}

// Some page of the count from start on lies between first and last.
fn meets(start: u16, count: u16, first: usize, last: usize) -> bool
    ensures { result ≡ any_page start count (between first last) }
{
    let from = start as usize;
    let n = count as usize;
    (n != 0) & (first <= last) & (from <= last) & (first < from + n)
}

// The page of the payload's last byte.
fn last_page(load: usize, len: usize) -> usize
    requires { load + len < 2 ^ 64 }
    ensures { result ≡ (load + len - 1) / 256 }
{
    let end = load + len;
    if end == 0 { 0 } else { (end - 1) / 256 }
}

// The stated free pages cannot be free.
fn has_bad_pages(parts: Parts) -> bool
    requires { parts.payload.load + parts.payload.len < 2 ^ 64 }
    ensures { result ≡ bad_pages parts.fields parts.payload }
{
    let start = parts.fields.page;
    let count = parts.fields.pages;
    if (start == 0) | (start == 0xFF) {
        return count != 0;
    }
    let load = parts.payload.load as usize;
    let last = last_page(load, parts.payload.len);
    let touched = meets(start, count, load / 256, last);
    let low = meets(start, count, 0x00, 0x03);
    let rom = meets(start, count, 0xA0, 0xBF);
    let high = meets(start, count, 0xD0, 0xFF);
    let rsid = parts.fields.magic == sidheader::RSID;
    let taken = touched | rsid & (low | rom | high);
    let over = 256 < start as usize + count as usize;
    (count == 0) | over | taken
}

#[tactic(auto, using(crate::proofs::Tests::no_payload_lem, crate::proofs::Tests::past_lem))]
// internal: the tests of where the payload lies, 9 to 13.
pub fn test_payload(parts: Parts) -> Result<(), Reason>
    ensures { result ≡ first_of (payload_tests parts.fields parts.payload) }
{
    let x = parts.fields;
    let p = parts.payload;
    let size = x.size;
    let offset = x.offset as usize;
    let load = p.load as usize;
    let rsid = x.magic == sidheader::RSID;
    let own = x.load == 0;
    let basic = x.flags / 2 % 2 == 1;
    let none = own & (size < offset + 3) | !own & (size <= offset);
    let past = 65536 - load < p.len;
    let low = rsid & (load < 0x07E8);
    let barred = is_barred_init(parts.init());
    let init = rsid & (basic & (x.init != 0) | !basic & barred);
    if none {
        Err(Reason::NoPayload)
    } else if past {
        Err(Reason::PastMemory)
    } else if low {
        Err(Reason::RsidLoad)
    } else if init {
        Err(Reason::RsidInit)
    } else if has_bad_pages(parts) {
        Err(Reason::FreePages)
    } else {
        Ok(())
    }
}
