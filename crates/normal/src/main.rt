// Says whether term TERM of the sheet on standard input is normal, and prints `yes`, `no` or `refused` with number and
// place.
#![tactic(auto)]

use answers::arguments::only_argument;
use answers::input::read_sheet;
use answers::numbers::read_number;
use answers::replies::normality_reply;
use std::io;
use std::rt::Env;

// The number that the argument spells.
fn term_argument(rt: &impl Env) -> Option<usize> {
    read_number(only_argument(rt, &mut [0; 32])?)
}

// Asks about a term of the sheet on standard input.
fn mark_input(rt: &(impl Input + Print + Eprint), term: usize) -> io::Result<()> {
    let mut sheet = [0u8; 52241];
    if let Ok(length) = read_sheet(rt, &mut rt.reader(), &mut sheet) {
        rt.write_all(normality_reply(&sheet[..length], term).as_bytes())?;
    }
    Ok(())
}

fn main(rt: HostRuntime) -> io::Result<()> {
    match term_argument(&rt) {
        Some(term) => mark_input(&rt, term),
        None => rt.eprintln("usage: normal TERM < SHEET, a number below 18446744073709551616"),
    }
}
