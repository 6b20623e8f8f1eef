// What could not be done, on standard error.
use arrayvec::ArrayString;
use std::fmt::Write;
use std::{io, str};

// Writes a line with what failed and why, in the system's words, without the number that std has behind them. Where
// standard error takes nothing, no one is left to tell.
pub fn fail(rt: &impl Eprint, what: &[u8], error: io::Error) {
    let mut text = ArrayString::<128>::new();
    let _ = write!(text, "{error}");
    let all = text.as_str();
    let words = match all.split_once(" (os error ") {
        Some((words, _)) => words,
        None => all,
    };
    // bytes that are no text show as escapes
    let _ = match str::from_utf8(what) {
        Ok(what) => eprintln!(rt; "{what}: {words}"),
        Err(_) => {
            let what = what.escape_ascii();
            eprintln!(rt; "{what}: {words}")
        }
    };
}
