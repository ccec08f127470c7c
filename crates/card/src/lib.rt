// What a file of a card is, found from its content: a PSID or RSID tune, a SAP file, a MUS song, or none of
// these. The calls answer for every file.
#![tactic(auto)]

ghost use Rattle.std.specs.Prelude.{◌≡◌};
ghost use Rattle.sid.specs.Answers.{sid_outcome};
ghost use Rattle.sap.specs.Answers.{sap_outcome};
ghost use Rattle.mus.specs.Song.{mus_outcome};
ghost use Rattle.card.specs.Judging.{judgement_of, as_tune, as_sap, as_song, judged};
ghost use Rattle.card.specs.Kinds.{sap_kind, file_kind, number_of_kind};
ghost use Rattle.card.specs.CutOff.{cut_sap};

use mus::Song;
use refusals::Refusal;
use sid::{Header, Kind};

// The answer to a file: a tune, a SAP file or a song that is accepted, one that is refused, or a file that is
// none of these, with the refusal that a MUS reader gives it. Each pair of cases is no Result of its own: a
// tune's kind would stand beside its header, which has it too, and two answers would be one judgement (the
// law judged-once).
#[derive(Clone, Copy)]
pub enum Judged {
    Tune(Header),
    RefusedTune(Kind, Refusal),
    Sap(sapheader::Header),
    RefusedSap(Refusal),
    Song(Song),
    RefusedSong(Refusal),
    Neither(Refusal),
}

// The kind of a file, accepted or not.
#[derive(Clone, Copy)]
pub enum FileKind {
    Neither,
    Psid,
    Rsid,
    Mus,
    Sap,
}

// A file that begins as a PSID or RSID.
fn as_tune(file: &[u8], kind: Kind) -> Judged
    ensures { judgement_of result ≡ as_tune kind (sid_outcome file.now) }
{
    match sid::read(file) {
        Ok(header) => Judged::Tune(header),
        Err(refusal) => Judged::RefusedTune(kind, refusal),
    }
}

// A file that begins with `SAP` CR LF. A MUS song can begin so too.
fn as_sap(file: &[u8]) -> Judged
    ensures { judgement_of result ≡ as_sap (sap_outcome file.now) (mus_outcome file.now) }
{
    match sap::read(file) {
        Ok(header) => Judged::Sap(header),
        Err(refusal) => match mus::accept(file) {
            Ok(song) => Judged::Song(song),
            Err(_) => Judged::RefusedSap(refusal),
        },
    }
}

// Any other file: a song where its first eight bytes describe it as one.
fn as_song(file: &[u8]) -> Judged
    ensures { judgement_of result ≡ as_song (mus_outcome file.now) }
{
    match container::read_head(file) {
        Err(refusal) => Judged::Neither(refusal),
        Ok(_) => match mus::accept(file) {
            Ok(song) => Judged::Song(song),
            Err(refusal) => Judged::RefusedSong(refusal),
        },
    }
}

// What a file is, and whether it is accepted.
pub fn judge(file: &[u8]) -> Judged
    ensures { judgement_of result ≡ judged file.now }
{
    let magic = fields::be32(file, 0);
    if magic == sidheader::PSID {
        as_tune(file, Kind::Psid)
    } else if magic == sidheader::RSID {
        as_tune(file, Kind::Rsid)
    } else if sap::begins(file) {
        as_sap(file)
    } else {
        as_song(file)
    }
}

// The kind of a file that begins with `SAP` CR LF.
fn sap_kind(file: &[u8]) -> FileKind
    ensures { number_of_kind result ≡ sap_kind (sap_outcome file.now) (mus_outcome file.now) }
{
    match sap::read(file) {
        Ok(_) => FileKind::Sap,
        Err(_) => match mus::accept(file) {
            Ok(_) => FileKind::Mus,
            Err(_) => FileKind::Sap,
        },
    }
}

// What a file is, accepted or not: by its first four bytes, of a file that begins with `SAP` CR LF by the two
// readers' answers, and of any other file by its head.
pub fn kind_of(file: &[u8]) -> FileKind
    ensures { number_of_kind result ≡ file_kind file.now }
{
    let magic = fields::be32(file, 0);
    if magic == sidheader::PSID {
        return FileKind::Psid;
    }
    if magic == sidheader::RSID {
        return FileKind::Rsid;
    }
    if sap::begins(file) {
        return sap_kind(file);
    }
    match container::read_head(file) {
        Err(_) => FileKind::Neither,
        Ok(_) => FileKind::Mus,
    }
}

// internal: whether the bytes that a program holds of a file may be only a part of a SAP file: they fill its
// room and begin with `SAP` CR LF. Where not, and the room is 65,663 bytes or more, they get the whole file's
// answer.
pub fn is_cut_sap(held: &[u8], room: usize) -> bool
    ensures { result ≡ cut_sap held.now room }
{
    (room <= held.len()) & sap::begins(held)
}
