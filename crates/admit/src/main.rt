// Admits the sheet on standard input, and prints `ok` with its counts or `refused` with number and place.
#![tactic(auto)]

use answers::input::read_sheet;
use answers::replies::admission_reply;
use std::io;

fn main(rt: HostRuntime) -> io::Result<()> {
    let mut sheet = [0u8; 52241];
    if let Ok(length) = read_sheet(&rt, &mut rt.reader(), &mut sheet) {
        rt.write_all(admission_reply(&sheet[..length]).as_bytes())?;
    }
    Ok(())
}
