// Converts the sheet on standard input to edition 3, and prints `ok` with the length or `refused` with number and
// place. The new sheet goes to NEWFILE, which is made only then and must not be there before.
#![tactic(auto)]

use answers::arguments::only_argument;
use answers::input::read_sheet;
use answers::output::make_file;
use answers::replies::conversion_reply;
use std::io;
use std::rt::Files;

// Converts a sheet, and makes the new file before it says so.
fn convert_to(rt: &(impl Files + Print + Eprint), sheet: &[u8], path: &[u8]) -> io::Result<()> {
    let mut out = [0u8; 52240];
    let reply = conversion_reply(sheet, &mut out);
    if let Ok(length) = reply.answer {
        if !make_file(rt, path, &out[..length]) {
            return Ok(());
        }
    }
    rt.write_all(reply.line.as_bytes())
}

// The same, for the sheet on standard input.
fn convert_input(rt: &(impl Files + Input + Print + Eprint), path: &[u8]) -> io::Result<()> {
    let mut sheet = [0u8; 52241];
    if let Ok(length) = read_sheet(rt, &mut rt.reader(), &mut sheet) {
        convert_to(rt, &sheet[..length], path)?;
    }
    Ok(())
}

fn main(rt: HostRuntime) -> io::Result<()> {
    match only_argument(&rt, &mut [0; 4096]) {
        Some(path) => convert_input(&rt, path),
        None => rt.eprintln("usage: convert NEWFILE < SHEET, a new file's name"),
    }
}
