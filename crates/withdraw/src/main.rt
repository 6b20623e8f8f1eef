// Withdraws the lines LINE.. of the sheet on standard input, and prints `ok` with the new length or `refused` with
// number and place. The new sheet goes to NEWFILE, which is made only then and must not be there before. The lines are
// handed over in the order given: a list that does not rise is refused for that.
#![tactic(auto)]

use answers::arguments::{argument, argument_count};
use answers::input::read_sheet;
use answers::numbers::read_number;
use answers::output::make_file;
use answers::replies::withdrawal_reply;
use std::io;
use std::rt::{Env, Files};

// Fills `set` with the numbers that the arguments from the first on spell, if each of them spells one.
fn read_lines(rt: &impl Env, set: &mut [usize]) -> Option<()> {
    for (i, line) in set.iter_mut().enumerate() {
        *line = read_number(argument(rt, i + 1, &mut [0; 32])?)?;
    }
    Some(())
}

// What the arguments name: one to 1,024 lines, then a file.
fn request<'a>(
    rt: &impl Env,
    set: &'a mut [usize; 1024],
    path: &'a mut [u8],
) -> Option<(&'a [usize], &'a [u8])> {
    let arguments = argument_count(rt);
    if !(3..=1026).contains(&arguments) {
        return None;
    }
    let lines = &mut set[..arguments - 2];
    read_lines(rt, lines)?;
    Some((lines, argument(rt, arguments - 1, path)?))
}

// Withdraws the lines of a set, and makes the new file before it says so.
fn withdraw_to(
    rt: &(impl Files + Print + Eprint),
    sheet: &[u8],
    set: &[usize],
    path: &[u8],
) -> io::Result<()> {
    let mut out = [0u8; 52240];
    let reply = withdrawal_reply(sheet, set, &mut out);
    if let Ok(length) = reply.answer {
        if !make_file(rt, path, &out[..length]) {
            return Ok(());
        }
    }
    rt.write_all(reply.line.as_bytes())
}

// The same, for the sheet on standard input.
fn withdraw_input(
    rt: &(impl Files + Input + Print + Eprint),
    set: &[usize],
    path: &[u8],
) -> io::Result<()> {
    let mut sheet = [0u8; 52241];
    if let Ok(length) = read_sheet(rt, &mut rt.reader(), &mut sheet) {
        withdraw_to(rt, &sheet[..length], set, path)?;
    }
    Ok(())
}

fn main(rt: HostRuntime) -> io::Result<()> {
    match request(&rt, &mut [0; 1024], &mut [0; 4096]) {
        Some((set, path)) => withdraw_input(&rt, set, path),
        None => rt.eprintln(
            "usage: withdraw LINE.. NEWFILE < SHEET, one to 1,024 numbers below 18446744073709551616 and a new file's name",
        ),
    }
}
