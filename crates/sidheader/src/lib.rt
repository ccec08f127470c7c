// The fields of a PSID or RSID header as they stand in the file, where the payload lies, and the effective
// init. Nothing is tested here.
#![tactic(auto)]

ghost use Rattle.std.specs.Prelude.{◌≡◌, ◌-◌};
ghost use Rattle.sidheader.specs.Fields.{added, fields_of};
ghost use Rattle.sidheader.specs.Payload.{payload_of, init_of};

// The magic of each kind, four letters as a number with the first letter highest.
pub const PSID: u32 = 0x50534944;

pub const RSID: u32 = 0x52534944;

// The numbers of a header, each at its offset in source 003; size is the file's length.
#[derive(Clone, Copy)]
pub struct Fields {
    pub size: usize,
    pub magic: u32,
    pub version: u16,
    pub offset: u16,
    pub load: u16,
    pub init: u16,
    pub play: u16,
    pub songs: u16,
    pub start: u16,
    pub speed: u32,
    pub flags: u16,
    pub page: u16,
    pub pages: u16,
    pub reserved: u16,
}

// The payload: its address in memory, and its bytes in the file.
#[derive(Clone, Copy)]
pub struct Payload {
    pub load: u16,
    pub from: usize,
    pub len: usize,
}

// What a file is made of: its header's fields, and where its payload lies.
#[derive(Clone, Copy)]
pub struct Parts {
    pub fields: Fields,
    pub payload: Payload,
}

impl Parts {
    #[tactic(auto, unfolding(crate::specs::Payload::init_of))]
    // internal: the effective init address.
    pub fn init(self) -> u16
        ensures { result ≡ init_of self.fields self.payload }
    {
        if self.fields.init == 0 {
            self.payload.load
        } else {
            self.fields.init
        }
    }
}

// A field that version 1 does not have: it takes it as 0.
fn added_field(version: u16, field: u16) -> u16
    ensures { result ≡ added version field }
{
    if version == 1 { 0 } else { field }
}

#[tactic(auto, unfolding(crate::specs::Fields::fields_of))]
// internal: the header's fields.
pub fn read_fields(s: &[u8]) -> Fields
    ensures { result ≡ fields_of s.now }
{
    let version = fields::be16(s, 0x04);
    Fields {
        size: s.len(),
        magic: fields::be32(s, 0x00),
        version,
        offset: fields::be16(s, 0x06),
        load: fields::be16(s, 0x08),
        init: fields::be16(s, 0x0A),
        play: fields::be16(s, 0x0C),
        songs: fields::be16(s, 0x0E),
        start: fields::be16(s, 0x10),
        speed: fields::be32(s, 0x12),
        flags: added_field(version, fields::be16(s, 0x76)),
        page: added_field(version, fields::byte_at(s, 0x78) as u16),
        pages: added_field(version, fields::byte_at(s, 0x79) as u16),
        reserved: added_field(version, fields::be16(s, 0x7A)),
    }
}

#[tactic(auto, unfolding(crate::specs::Payload::payload_of))]
// internal: where the payload lies, by the header's fields.
pub fn payload_of(s: &[u8], x: Fields) -> Payload
    ensures { result ≡ payload_of s.now x }
{
    let offset = x.offset as usize;
    if x.load == 0 {
        let from = offset + 2;
        Payload {
            load: fields::le16(s, offset),
            from,
            len: x.size.saturating_sub(from),
        }
    } else {
        Payload {
            load: x.load,
            from: offset,
            len: x.size.saturating_sub(offset),
        }
    }
}
