// Asks the reading window from the first date to the last with a third one, all three in the arguments, and prints
// `open`, `closed` or `refused` with number and place.
#![tactic(auto)]

use answers::Line;
use answers::arguments::{argument, argument_count};
use answers::replies::window_reply;
use std::io;
use std::rt::Env;

// The answer to the three arguments, if they are dates in text. Linux passes no argument of 131,072 bytes or more, so
// that none is too long. The arrays stand before any call, since behind one they are cleared twice.
fn answer(rt: &impl Env) -> Option<Line> {
    let mut first = [0; 131072];
    let mut last = [0; 131072];
    let mut day = [0; 131072];
    window_reply(
        argument(rt, 1, &mut first)?,
        argument(rt, 2, &mut last)?,
        argument(rt, 3, &mut day)?,
    )
}

// The same, if there are three arguments.
fn reply(rt: &impl Env) -> Option<Line> {
    if argument_count(rt) != 4 {
        return None;
    }
    answer(rt)
}

fn main(rt: HostRuntime) -> io::Result<()> {
    match reply(&rt) {
        Some(line) => rt.write_all(line.as_bytes()),
        None => rt.eprintln("usage: window FIRST LAST DAY, three dates as 1970-01-01"),
    }
}
