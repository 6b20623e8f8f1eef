// Finds the line of the sheet on standard input that has the five numbers of the arguments, and prints `ok` with the
// line or `refused` with number and place.
#![tactic(auto)]

use answers::arguments::{argument, argument_count};
use answers::input::read_sheet;
use answers::numbers::{field_of, read_number, request_of};
use answers::replies::search_reply;
use sheets::finding::Wanted;
use std::io;
use std::rt::Env;

// The number that argument `i` spells.
fn number(rt: &impl Env, i: usize) -> Option<u32> {
    field_of(read_number(argument(rt, i, &mut [0; 32])?))
}

// What the arguments ask for. The program's own name is one of them.
fn request(rt: &impl Env) -> Option<Wanted> {
    if argument_count(rt) != 6 {
        return None;
    }
    request_of(
        number(rt, 1),
        number(rt, 2),
        number(rt, 3),
        number(rt, 4),
        number(rt, 5),
    )
}

// Searches the sheet on standard input.
fn find_input(rt: &(impl Input + Print + Eprint), wanted: Wanted) -> io::Result<()> {
    let mut sheet = [0u8; 52241];
    if let Ok(length) = read_sheet(rt, &mut rt.reader(), &mut sheet) {
        rt.write_all(search_reply(&sheet[..length], wanted).as_bytes())?;
    }
    Ok(())
}

fn main(rt: HostRuntime) -> io::Result<()> {
    match request(&rt) {
        Some(wanted) => find_input(&rt, wanted),
        None => rt.eprintln(
            "usage: find FORM CONTEXT S1 S2 S3 < SHEET, five numbers below 4294967296",
        ),
    }
}
