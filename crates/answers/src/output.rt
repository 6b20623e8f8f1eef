// A new file for a sheet. No contract can speak of what a file holds.
use crate::failures::fail;
use std::fs::{OpenFile, OpenOptions};
use std::io::{ErrorKind, Write};
use std::rt::Files;
use std::{fs, io, str};

// Creates a file, which must not be there before. std takes only text for a name.
fn create<R: Files>(rt: &R, path: &str) -> io::Result<R::File> {
    OpenOptions::new()
        .write(true)
        .create_new(true)
        .open(rt, path)
}

// Writes these bytes, and sees them kept before the file is closed, since no error of closing it is told.
fn fill<F: Write + OpenFile + Drop>(mut file: F, bytes: &[u8]) -> io::Result<()> {
    file.write_all(bytes)?;
    file.sync_all()
}

// Makes the file; one that is cut short is removed.
fn make_named<R: Files>(rt: &R, path: &str, bytes: &[u8]) -> io::Result<()> {
    let file = create(rt, path)?;
    let filled = fill(file, bytes);
    if filled.is_err() {
        let _ = fs::remove_file(rt, path);
    }
    filled
}

// Makes a file that holds these bytes, and answers whether it could: what failed is said here. A file that was cut
// short is removed.
pub fn make_file(rt: &(impl Files + Eprint), path: &[u8], bytes: &[u8]) -> bool {
    let made = match str::from_utf8(path) {
        Ok(path) => make_named(rt, path, bytes),
        Err(_) => Err(io::Error::from(ErrorKind::InvalidFilename)),
    };
    match made {
        Ok(()) => true,
        Err(error) => {
            fail(rt, path, error);
            false
        }
    }
}
