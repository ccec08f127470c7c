// What programs read: a file by its name, whole or its first bytes, standard input, and the arguments.
#![tactic(auto)]

ghost use Rattle.std.specs.Prelude.{◌<◌, IfOk, OnErr, length, take};
ghost use Rattle.std.specs.Io.KnownBytes.{Consumes, IsAtEnd};
ghost use Rattle.files.specs.Reading.{Filled, FilledPart, ReadInto};

mod arguments;
pub mod errors;

pub use arguments::arg;
use std::io::{Error, Read};
use std::rt::Files;
use std::{fs, io, str};

// More bytes than the longest path has.
const PATH_MAX: usize = 4096;

// Why a file was not read, with the machine's error number.
#[derive(Clone, Copy, Debug, PartialEq, Eq)]
pub enum LoadError {
    NotOpened(i32),
    NotRead(i32),
}

// The machine's number of an error. Only std's own, that a name has a zero byte in it, has none.
fn number(error: Error) -> i32 {
    error.raw_os_error().unwrap_or(errors::EINVAL)
}

// internal: what a reader gives, until it ends or the list is full; the cells after that stay as they were.
// The loop goes on by what each read gives: std's read_exact does not say what a reader that fails has given.
// Where a read fails, what was read before it lies in the first cells.
// The reader is lent a list of its own: what it does to the cells after those that it counts, nobody says.
// That list has no multiple of 4,096 bytes: where both lists lie at such a distance, copying takes several
// times as long.
pub fn read_full<R: Read>(from: &mut R, out: &mut [u8]) -> io::Result<usize>
    ensures filled { IfOk result (λ n. Filled n out.old out.new) }
    ensures bytes { IfOk result (λ n.
        Consumes (R.remaining from.old) (R.remaining from.new) (take n out.new)) }
    ensures end { IfOk result (λ n. n < length out.new → IsAtEnd (R.remaining from.new)) }
    ensures failed { OnErr result
        (FilledPart (R.remaining from.old) (R.remaining from.new) out.old out.new) }
{
    let mut done = 0;
    let mut chunk = [0u8; 20000];
    while done < out.len() {
        let room = (out.len() - done).min(chunk.len());
        let n = from.read(&mut chunk[..room])?;
        if n == 0 {
            return Ok(done);
        }
        fields::copy_to(fields::part(&chunk, 0, n), out, done);
        done += n;
    }
    Ok(done)
}

// A file that is open, from its start, until it ends or the list is full.
fn read_open<R: Read>(file: &mut R, out: &mut [u8]) -> Result<usize, LoadError>
    ensures { ReadInto result out.old out.new }
{
    read_full(file, out).map_err(|error| LoadError::NotRead(number(error)))
}

// internal: reads the file that the path names, from its start, until it ends or the list is full, and
// answers how many bytes were read. The cells after those stay as they were, and all of them where the file
// is not opened.
pub fn read_file(rt: &impl Files, path: &[u8], out: &mut [u8]) -> Result<usize, LoadError>
    ensures { ReadInto result out.old out.new }
{
    if PATH_MAX <= path.len() {
        return Err(LoadError::NotOpened(errors::ENAMETOOLONG));
    }
    let Ok(name) = str::from_utf8(path) else {
        return Err(LoadError::NotOpened(errors::EILSEQ));
    };
    match fs::open(rt, name) {
        Ok(mut file) => read_open(&mut file, out),
        Err(error) => Err(LoadError::NotOpened(number(error))),
    }
}
