// A sheet or a list is read from standard input or a file. No contract can speak of what either gives.
ghost use Rattle.std.specs.Prelude.{IfOk, IfErr};
ghost use Rattle.answers.specs.Counts.{IsPrefixLen};

use crate::failures::fail;
use std::io::{ErrorKind, Read};
use std::rt::Files;
use std::{fs, io, str};

// A read that failed, said on standard error, and how many bytes were read before it.
#[derive(Clone, Copy, Debug, PartialEq, Eq)]
pub struct CutShort {
    pub length: usize,
}

// Opens a file for reading. std takes only text for a name.
pub fn open_input<R: Files>(rt: &R, path: &[u8]) -> io::Result<R::File> {
    match str::from_utf8(path) {
        Ok(path) => fs::open(rt, path),
        Err(_) => Err(io::Error::from(ErrorKind::InvalidFilename)),
    }
}

// Fills the buffer from its start, and answers how many bytes were read: all that there were, or all that there was
// room for. A read that fails ends it, and is said on standard error, of what was read. No heap: the buffer is the
// caller's, and the count is answered as std's `read` does.
pub fn read_whole<R: Read>(
    rt: &impl Eprint,
    input: &mut R,
    buffer: &mut [u8],
    what: &[u8],
) -> Result<usize, CutShort>
    ensures whole { IfOk result (λ length. IsPrefixLen length buffer.new) }
    ensures cut { IfErr result (λ e. IsPrefixLen e.length buffer.new) }
{
    let mut length = 0;
    // a `for` counts by ones, and this goes on by what a read gave
    while length < buffer.len() {
        match input.read(&mut buffer[length..]) {
            Ok(0) => break,
            Ok(count) => length += count,
            Err(error) => {
                fail(rt, what, error);
                return Err(CutShort { length });
            }
        }
    }
    Ok(length)
}

// A sheet's buffer has room for one byte more than a sheet can have: such an input is refused for its length, and the
// rest is left.
pub fn read_sheet<R: Read>(
    rt: &impl Eprint,
    input: &mut R,
    sheet: &mut [u8; 52241],
) -> Result<usize, CutShort>
    ensures whole { IfOk result (λ length. IsPrefixLen length sheet.new) }
    ensures cut { IfErr result (λ e. IsPrefixLen e.length sheet.new) }
{
    read_whole(rt, input, sheet, b"reading the sheet")
}
