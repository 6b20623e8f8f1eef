// Finds the lines of the sheet on standard input that state the judgments of a list, and prints `ok` with how many
// judgments there are and an answer a line, or `refused` with number and place. An answer is the line, or 65535 where
// none states the judgment. The list is the file LISTFILE, a judgment a line: the five numbers that `find` takes.
#![tactic(auto)]

use answers::BatchText;
use answers::arguments::only_argument;
use answers::failures::fail;
use answers::input::{open_input, read_sheet, read_whole};
use answers::listing::{ListError, read_list};
use answers::replies::batch_reply;
use std::io;
use std::rt::Files;

// Searches the sheet on standard input for judgments, five numbers each.
fn find_input(rt: &(impl Input + Print + Eprint), numbers: &[u32]) -> io::Result<()> {
    let mut sheet = [0u8; 52241];
    if let Ok(length) = read_sheet(rt, &mut rt.reader(), &mut sheet) {
        let mut text = BatchText::new();
        batch_reply(&sheet[..length], numbers, &mut text);
        rt.write_all(text.as_bytes())?;
    }
    Ok(())
}

// Says that a list is too long.
fn refuse_long(rt: &impl Eprint) -> io::Result<()> {
    rt.eprintln("find_all: the list has more than 1024 judgments or 65536 bytes")
}

// Searches for the judgments of a list.
fn find_listed(rt: &(impl Input + Print + Eprint), list: &[u8]) -> io::Result<()> {
    let mut numbers = [0u32; 5120];
    match read_list(list, &mut numbers) {
        Ok(count) => find_input(rt, &numbers[..5 * count]),
        Err(ListError::Unreadable) => rt.eprintln(
            "find_all: a line of the list is not five numbers below 4294967296",
        ),
        Err(ListError::TooMany) => refuse_long(rt),
    }
}

// The same for the list in an open file, which is closed. There is room for one byte more than a list may have.
fn find_from<R: Files + Input + Print + Eprint>(
    rt: &R,
    mut file: R::File,
    path: &[u8],
) -> io::Result<()> {
    let mut list = [0u8; 65537];
    let read = read_whole(rt, &mut file, &mut list, path);
    drop(file);
    match read {
        Ok(65537) => refuse_long(rt),
        Ok(length) => find_listed(rt, &list[..length]),
        Err(_) => Ok(()),
    }
}

// The same for the list in the file of this name.
fn find_named(rt: &(impl Files + Input + Print + Eprint), path: &[u8]) -> io::Result<()> {
    match open_input(rt, path) {
        Ok(file) => find_from(rt, file, path),
        Err(error) => {
            fail(rt, path, error);
            Ok(())
        }
    }
}

fn main(rt: HostRuntime) -> io::Result<()> {
    match only_argument(&rt, &mut [0; 4096]) {
        Some(path) => find_named(&rt, path),
        None => rt.eprintln(
            "usage: find_all LISTFILE < SHEET, a file with five numbers below 4294967296 a line",
        ),
    }
}
