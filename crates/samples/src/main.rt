// Runs the samples. Each line of a list names a sheet and the numbers that go with it, or dates; the program writes the
// line and the answer. A sheet that is left after a withdrawal is admitted on a line of its own. The sheets of a bundle
// stand one behind the other in one file, in the order of its list, where each has its length beside its name, and a
// word such as `until_A12` behind it if the answer holds only until that request of document 02. The sheets that
// withdrawals of sets are to leave are such a bundle too, without lengths: a line says whether the one that is left is
// the one expected. The sheets to convert are a bundle, and those that they become another: behind a sheet's length its
// line has that of the new one, 0 if there is none, and the lengths of the outputs. Each conversion is a line of its
// own, the new sheet is admitted and compared likewise, and a last line says whether the rest of the output is as it
// was. A batch of searches is a line with a sheet, the room for answers and the number of judgments, which follow it, a
// line each; every word of the buffer is written behind the answer.
#![tactic(auto)]

mod text;

ghost use Rattle.std.specs.Prelude.{◌≤◌, length, IfOk};
ghost use Rattle.answers.specs.Counts.{IsPrefixLen};

use crate::text::{behind_lines, length_in, number_in, numbers_from};
use answers::Line;
use answers::input::{CutShort, open_input, read_sheet, read_whole};
use answers::listing::read_list;
use answers::numbers::{field_of, request_of};
use answers::parts::{behind, place_of};
use answers::replies::{
    Reply, admission_reply, conversion_reply, day_reply, normality_reply, search_reply,
    window_reply, withdrawal_reply,
};
use sheets::batch::find_all_flat;
use sheets::refusals::Refusal;
use std::fs::File;
use std::io;
use std::io::Read;
use std::rt::Files;

// What is said where a bundle cannot be read.
const BUNDLE: &[u8] = b"reading a bundle";

// Fills a buffer from a file as far as the file can be read, and answers how many bytes were.
fn read_part<R: Read>(rt: &impl Eprint, file: &mut R, buffer: &mut [u8], what: &[u8]) -> usize
    ensures { IsPrefixLen result buffer.new }
{
    match read_whole(rt, file, buffer, what) {
        Ok(length) | Err(CutShort { length }) => length,
    }
}

// Admits a sheet.
fn admit_whole(rt: &impl Print, sheet: &[u8]) -> io::Result<()> {
    rt.write_all(admission_reply(sheet).as_bytes())
}

// Searches a sheet for the five numbers of a line of the list.
fn find_numbers(rt: &impl Print, sheet: &[u8], line: &[u8]) -> io::Result<()> {
    match request_of(
        field_of(number_in(line, 1)),
        field_of(number_in(line, 2)),
        field_of(number_in(line, 3)),
        field_of(number_in(line, 4)),
        field_of(number_in(line, 5)),
    ) {
        Some(wanted) => rt.write_all(search_reply(sheet, wanted).as_bytes()),
        None => rt.write_all(b"unreadable\n"),
    }
}

// Writes a space and a number.
fn write_word(rt: &impl Print, word: u16) -> io::Result<()> {
    print!(rt; " {word}")
}

// Writes every word of a buffer of answers.
fn write_words(rt: &impl Print, words: &[u16]) -> io::Result<()> {
    for word in words {
        write_word(rt, *word)?;
    }
    rt.write_all(b"\n")
}

// Writes the answer of a batch.
fn write_batch(rt: &impl Print, answer: Result<usize, Refusal>) -> io::Result<()> {
    match answer {
        Ok(count) => print!(rt; "ok {count}"),
        Err(Refusal { fault, place }) => print!(rt; "refused {} {place}", fault.number()),
    }
}

// Searches a sheet for the judgments of a batch, and writes every word of the buffer behind the answer.
fn find_judgments(
    rt: &impl Print,
    sheet: &[u8],
    numbers: &[u32],
    answers: &mut [u16],
) -> io::Result<()> {
    let mut work = [0u32; 3072];
    write_batch(rt, find_all_flat(sheet, &mut work, numbers, answers))?;
    write_words(rt, answers)
}

// Writes what a withdrawal or a conversion answers, and admits the new sheet if there is one.
fn write_reply(rt: &impl Print, reply: Reply, out: &[u8]) -> io::Result<()>
    requires { IfOk reply.answer (λ written. written ≤ length out.now) }
{
    let answer = reply.answer;
    rt.write_all(reply.line.as_bytes())?;
    if let Ok(length) = answer {
        admit_whole(rt, &out[..length])?;
    }
    Ok(())
}

// Withdraws the line whose number a line of the list has, with the output's length behind it.
fn withdraw_number(rt: &impl Print, sheet: &[u8], line: &[u8]) -> io::Result<()> {
    let Some(number) = number_in(line, 1) else {
        return rt.write_all(b"unreadable\n");
    };
    let room = length_in(line, 2);
    let mut out = [0u8; 52240];
    let reply = withdrawal_reply(sheet, &[number], &mut out[..room]);
    write_reply(rt, reply, &out[..room])
}

// Says whether these are the bytes expected.
fn compare(rt: &impl Print, got: &[u8], expected: &[u8]) -> io::Result<()> {
    if got == expected {
        rt.write_all(b"as expected\n")
    } else {
        rt.write_all(b"not as expected\n")
    }
}

// Says whether a sheet is the one that comes next in a bundle, which is read into a buffer of the sheet's length.
fn compare_next(
    rt: &(impl Print + Eprint),
    mut bundle: &File,
    sheet: &[u8],
    expected: &mut [u8],
) -> io::Result<()> {
    let length = read_part(rt, &mut bundle, expected, BUNDLE);
    compare(rt, sheet, &expected[..length])
}

// Withdraws a set of lines of a sheet, and compares the sheet that is left.
fn withdraw_compared(
    rt: &(impl Print + Eprint),
    sheet: &[u8],
    set: &[usize],
    out: &mut [u8],
    results: &File,
) -> io::Result<()>
    requires { length out.old ≤ 52240 }
{
    let reply = withdrawal_reply(sheet, set, out);
    let answer = reply.answer;
    write_reply(rt, reply, out)?;
    if let Ok(length) = answer {
        let mut expected = [0u8; 52240];
        compare_next(rt, results, &out[..length], &mut expected[..length])?;
    }
    Ok(())
}

// The same, for the output's length of a line of the list and the line numbers behind it.
fn withdraw_numbers(
    rt: &(impl Print + Eprint),
    sheet: &[u8],
    line: &[u8],
    results: &File,
) -> io::Result<()> {
    let mut set = [0usize; 1024];
    let count = numbers_from(line, 2, &mut set);
    let room = length_in(line, 1);
    let mut out = [0u8; 52240];
    withdraw_compared(rt, sheet, &set[..count], &mut out[..room], results)
}

// Converts a sheet, and compares every byte of the output: with the new sheet as far as one is written, and behind it
// with what was there before.
fn convert_compared(
    rt: &impl Print,
    sheet: &[u8],
    new: &[u8],
    before: &[u8],
    out: &mut [u8],
) -> io::Result<()>
    requires { length out.old ≤ length before.now }
{
    let reply = conversion_reply(sheet, out);
    let answer = reply.answer;
    write_reply(rt, reply, out)?;
    if let Ok(length) = answer {
        compare(rt, &out[..length], new)?;
    }
    let written = answer.unwrap_or(0);
    compare(rt, &out[written..], &before[written..])
}

// The same, for an output of so many bytes. Bytes that are not written show.
fn convert_into(rt: &impl Print, sheet: &[u8], new: &[u8], room: usize) -> io::Result<()> {
    print!(rt; "{room} ")?;
    if 65536 < room {
        return rt.write_all(b"unreadable\n");
    }
    let before = [165u8; 65536];
    let mut out = [165u8; 65536];
    convert_compared(rt, sheet, new, &before[..room], &mut out[..room])
}

// The same, for outputs of these lengths.
fn convert_each(rt: &impl Print, sheet: &[u8], new: &[u8], rooms: &[usize]) -> io::Result<()> {
    for room in rooms {
        convert_into(rt, sheet, new, *room)?;
    }
    Ok(())
}

// Admits and converts the sheet that comes next in a bundle. The new one comes next among the results; both fill their
// buffers.
fn convert_next(
    rt: &(impl Print + Eprint),
    mut bundle: &File,
    sheet: &mut [u8],
    mut results: &File,
    new: &mut [u8],
    rooms: &[usize],
) -> io::Result<()> {
    let length = read_part(rt, &mut bundle, sheet, BUNDLE);
    let new_length = read_part(rt, &mut results, new, BUNDLE);
    admit_whole(rt, &sheet[..length])?;
    convert_each(rt, &sheet[..length], &new[..new_length], rooms)
}

// The same, with the lengths of a line of the list.
fn convert_bundled(
    rt: &(impl Print + Eprint),
    bundle: &File,
    results: &File,
    line: &[u8],
) -> io::Result<()> {
    let length = length_in(line, 1);
    let new_length = length_in(line, 2);
    let mut rooms = [0usize; 4];
    let count = numbers_from(line, 3, &mut rooms);
    let mut sheet = [0u8; 52240];
    let mut new = [0u8; 52240];
    convert_next(
        rt,
        bundle,
        &mut sheet[..length],
        results,
        &mut new[..new_length],
        &rooms[..count],
    )
}

// Says whether the term whose number a line of the list has is normal.
fn mark_number(rt: &impl Print, sheet: &[u8], line: &[u8]) -> io::Result<()> {
    match number_in(line, 1) {
        Some(term) => rt.write_all(normality_reply(sheet, term).as_bytes()),
        None => rt.write_all(b"unreadable\n"),
    }
}

// Writes the line that is answered, if one is.
fn write_line(rt: &impl Print, reply: Option<Line>) -> io::Result<()> {
    match reply {
        Some(line) => rt.write_all(line.as_bytes()),
        None => rt.write_all(b"unreadable\n"),
    }
}

// Asks a window with the three dates of a line of the list.
fn ask_window(rt: &impl Print, line: &[u8]) -> io::Result<()> {
    let first_end = place_of(line, 0, b' ');
    let last = behind(line, first_end);
    let last_end = place_of(line, last, b' ');
    let day = behind(line, last_end);
    let reply = window_reply(&line[..first_end], &line[last..last_end], &line[day..]);
    write_line(rt, reply)
}

// Numbers the day of a line of the list.
fn number_day(rt: &impl Print, line: &[u8]) -> io::Result<()> {
    write_line(rt, day_reply(line))
}

// Admits the sheet that comes next in a bundle, which fills the buffer.
fn admit_next(rt: &(impl Print + Eprint), mut bundle: &File, sheet: &mut [u8]) -> io::Result<()> {
    let length = read_part(rt, &mut bundle, sheet, BUNDLE);
    admit_whole(rt, &sheet[..length])
}

// The same, as long as a line of the list says.
fn admit_bundled(rt: &(impl Print + Eprint), bundle: &File, line: &[u8]) -> io::Result<()> {
    let length = length_in(line, 1);
    let mut sheet = [0u8; 52240];
    admit_next(rt, bundle, &mut sheet[..length])
}

// Hands on the sheet that a line of a list names, if it can be opened and read whole.
fn run_sheet<F: FnOnce(&[u8]) -> io::Result<()>>(
    rt: &(impl Files + Print + Eprint),
    line: &[u8],
    run: F,
) -> io::Result<()>
    requires { F.IsAlwaysCallable run }
{
    let end = place_of(line, 0, b' ');
    let Ok(mut file) = open_input(rt, &line[..end]) else {
        return rt.write_all(b"not opened\n");
    };
    let mut sheet = [0u8; 52241];
    match read_sheet(rt, &mut file, &mut sheet) {
        Ok(length) => run(&sheet[..length]),
        Err(_) => Ok(()),
    }
}

// Writes every line of a list, and hands it on. Lines end where they say, so that no index is counted: a `while`.
fn run_lines<F: FnMut(&[u8]) -> io::Result<()>>(
    rt: &impl Print,
    list: &[u8],
    mut run: F,
) -> io::Result<()>
    requires { F.IsAlwaysCallable run }
{
    let mut start = 0;
    while start < list.len() {
        let end = place_of(list, start, b'\n');
        rt.write_all(&list[start..end])?;
        rt.write_all(b" ")?;
        run(&list[start..end])?;
        start = behind(list, end);
    }
    Ok(())
}

// Searches the sheet that a line names, with as much room for answers as it says. Words that are not written show.
fn find_in_named(
    rt: &(impl Files + Print + Eprint),
    line: &[u8],
    numbers: &[u32],
) -> io::Result<()> {
    let room = length_in(line, 1);
    let mut answers = [50505u16; 52240];
    run_sheet(
        rt,
        line,
        |sheet| find_judgments(rt, sheet, numbers, &mut answers[..room]),
    )
}

// Runs one batch: its first line, and its judgments.
fn run_batch(rt: &(impl Files + Print + Eprint), line: &[u8], judgments: &[u8]) -> io::Result<()> {
    rt.write_all(line)?;
    rt.write_all(b" ")?;
    let mut numbers = [0u32; 5120];
    match read_list(judgments, &mut numbers) {
        Ok(count) => find_in_named(rt, line, &numbers[..5 * count]),
        Err(_) => rt.write_all(b"unreadable\n"),
    }
}

// Runs every batch of a list; the next one begins behind as many lines as this one says.
fn run_batches(rt: &(impl Files + Print + Eprint), list: &[u8]) -> io::Result<()> {
    let mut start = 0;
    while start < list.len() {
        let end = place_of(list, start, b'\n');
        let judgments = behind(list, end);
        let next = behind_lines(list, judgments, length_in(&list[start..end], 2));
        run_batch(rt, &list[start..end], &list[judgments..next])?;
        start = next;
    }
    Ok(())
}

// Opens a file, or says that it was not opened.
fn open_named<R: Files + Print>(rt: &R, path: &[u8]) -> io::Result<Option<R::File>> {
    let Ok(file) = open_input(rt, path) else {
        rt.write_all(path)?;
        rt.write_all(b" not opened\n")?;
        return Ok(None);
    };
    Ok(Some(file))
}

// Hands on the list that a file holds.
fn with_list<F: FnOnce(&[u8]) -> io::Result<()>>(
    rt: &(impl Files + Print + Eprint),
    path: &[u8],
    run: F,
) -> io::Result<()>
    requires { F.IsAlwaysCallable run }
{
    let Some(mut file) = open_named(rt, path)? else {
        return Ok(());
    };
    // longer than any of the lists: one that was cut would lack answers
    let mut list = [0u8; 131072];
    let length = read_part(rt, &mut file, &mut list, path);
    drop(file);
    run(&list[..length])
}

// Runs the list that a file holds, line by line.
fn run_list<F: FnMut(&[u8]) -> io::Result<()>>(
    rt: &(impl Files + Print + Eprint),
    path: &[u8],
    run: F,
) -> io::Result<()>
    requires { F.IsAlwaysCallable run }
{
    with_list(rt, path, |list| run_lines(rt, list, run))
}

// Runs a list of sheets, each of which a line names.
fn run_sheets<F: Fn(&[u8], &[u8]) -> io::Result<()>>(
    rt: &(impl Files + Print + Eprint),
    path: &[u8],
    run: F,
) -> io::Result<()>
    requires { F.IsAlwaysCallable run }
{
    run_list(
        rt,
        path,
        |line| run_sheet(rt, line, |sheet| run(sheet, line)),
    )
}

// Runs the list of a bundle.
fn run_bundle(
    rt: &(impl Files<File = File> + Print + Eprint),
    bundle: &[u8],
    list: &[u8],
) -> io::Result<()> {
    if let Some(sheets) = open_named(rt, bundle)? {
        run_list(rt, list, |line| admit_bundled(rt, &sheets, line))?;
    }
    Ok(())
}

// Runs the list of sets to withdraw.
fn run_sets(rt: &(impl Files<File = File> + Print + Eprint)) -> io::Result<()> {
    if let Some(results) = open_named(rt, b"withdraw_set.results")? {
        run_sheets(rt, b"withdraw_set.list", |sheet, line| {
            withdraw_numbers(rt, sheet, line, &results)
        })?;
    }
    Ok(())
}

// Runs the list of conversions.
fn run_conversions(rt: &(impl Files<File = File> + Print + Eprint)) -> io::Result<()> {
    let sheets = open_named(rt, b"conversion.sheets")?;
    let results = open_named(rt, b"conversion.results")?;
    if let (Some(sheets), Some(results)) = (sheets, results) {
        run_list(
            rt,
            b"conversion.list",
            |line| convert_bundled(rt, &sheets, &results, line),
        )?;
    }
    Ok(())
}

fn main(rt: HostRuntime) -> io::Result<()> {
    let rt = &rt;
    run_sheets(rt, b"admit.list", |sheet, _| admit_whole(rt, sheet))?;
    run_sheets(
        rt,
        b"find.list",
        |sheet, line| find_numbers(rt, sheet, line),
    )?;
    run_sheets(
        rt,
        b"withdraw.list",
        |sheet, line| withdraw_number(rt, sheet, line),
    )?;
    run_list(rt, b"window.list", |line| ask_window(rt, line))?;
    run_list(rt, b"days.list", |line| number_day(rt, line))?;
    run_sheets(
        rt,
        b"normal.list",
        |sheet, line| mark_number(rt, sheet, line),
    )?;
    run_bundle(rt, b"normalisation.sheets", b"normalisation.list")?;
    run_bundle(rt, b"motives.sheets", b"motives.list")?;
    run_sets(rt)?;
    with_list(rt, b"batch.list", |list| run_batches(rt, list))?;
    with_list(rt, b"batch_heights.list", |list| run_batches(rt, list))?;
    run_conversions(rt)
}
