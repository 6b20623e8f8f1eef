// The line of text that is answered: every byte of it follows from what is asked and, where a sheet is asked about,
// from its bytes. A work buffer of 3,072 words serves every sheet.
ghost use Rattle.std.specs.Prelude.{◌≡◌, ◌≤◌, length, option_map, IfOk};
ghost use Rattle.sheets.specs.Admission.{admit_of};
ghost use Rattle.sheets.specs.Finding.{find_of};
ghost use Rattle.sheets.specs.Batch.{wanted_in, batch_of, search_answers};
ghost use Rattle.sheets.specs.WithdrawalSet.{withdraw_set_of, set_out_after, KeepsTheUnlisted};
ghost use Rattle.sheets.specs.Conversion.{convert_of, converted_after, KeepsEveryLine};
ghost use Rattle.sheets.specs.Normality.{normality_of};
ghost use Rattle.answers.specs.Text.{admission_text, value_text, normality_text, window_text, date_text, batch_text};
ghost use Rattle.answers.specs.Dates.{date_in};

use crate::dates::read_date;
use crate::lines::{Answer, BatchText, Line, push_answers};
use sheets::admission::admit;
use sheets::batch::find_all_flat;
use sheets::conversion::convert;
use sheets::finding::{Wanted, find};
use sheets::normality::mark_normal;
use sheets::refusals::Refusal;
use sheets::withdrawal::withdraw_set;
use windows::access::Window;

// What a withdrawal or a conversion answers, the new length or a refusal, and the line that says so.
#[derive(Clone, Copy, Debug, PartialEq, Eq)]
pub struct Reply {
    pub answer: Result<usize, Refusal>,
    pub line: Line,
}

impl Reply {
    fn new(answer: Result<usize, Refusal>) -> Reply
        ensures answer { result.answer ≡ answer }
        ensures line { result.line.bytes ≡ value_text answer }
    {
        Reply {
            answer,
            line: answer.line(),
        }
    }
}

// Admits a sheet.
pub fn admission_reply(sheet: &[u8]) -> Line
    ensures { result.bytes ≡ admission_text (admit_of sheet.now 3072) }
{
    let mut work = [0u32; 3072];
    admit(sheet, &mut work).line()
}

// Searches a sheet likewise.
pub fn search_reply(sheet: &[u8], wanted: Wanted) -> Line
    ensures { result.bytes ≡ value_text (find_of sheet.now 3072 wanted) }
{
    let mut work = [0u32; 3072];
    find(sheet, &mut work, wanted).line()
}

// Searches a sheet for many judgments, five numbers each, and puts the lines in place of a text. More than 1,024 are
// refused.
#[tactic(auto, using(crate::proofs::BatchTextLaws::batch))]
pub fn batch_reply(sheet: &[u8], numbers: &[u32], text: &mut BatchText)
    ensures { text.new.bytes ≡ batch_text (batch_of sheet.now 3072 (length (wanted_in numbers.now)) 1024) (search_answers sheet.now 3072 (wanted_in numbers.now)) }
{
    let mut work = [0u32; 3072];
    let mut answers = [0u16; 1024];
    let answer = find_all_flat(sheet, &mut work, numbers, &mut answers);
    text.clear();
    text.push_str(answer.line().as_str());
    push_answers(text, &answers[..answer.unwrap_or(0)]);
}

// Withdraws a set of lines of a sheet; the new sheet goes to `out`.
pub fn withdrawal_reply(sheet: &[u8], set: &[usize], out: &mut [u8]) -> Reply
    ensures answer { result.answer ≡ withdraw_set_of sheet.now set.now 3072 (length out.old) }
    ensures written { out.new ≡ set_out_after sheet.now set.now 3072 out.old }
    ensures kept { KeepsTheUnlisted sheet.now set.now out.new result.answer }
    ensures within { IfOk result.answer (λ new. new ≤ length out.old) }
    ensures line { result.line.bytes ≡ value_text result.answer }
{
    let mut work = [0u32; 3072];
    let answer = withdraw_set(sheet, set, &mut work, out);
    Reply::new(answer)
}

// Converts a sheet to edition 3 likewise.
pub fn conversion_reply(sheet: &[u8], out: &mut [u8]) -> Reply
    ensures answer { result.answer ≡ convert_of sheet.now 3072 (length out.old) }
    ensures written { out.new ≡ converted_after sheet.now 3072 out.old }
    ensures kept { KeepsEveryLine sheet.now out.new result.answer }
    ensures within { IfOk result.answer (λ new. new ≤ length out.old) }
    ensures line { result.line.bytes ≡ value_text result.answer }
{
    let mut work = [0u32; 3072];
    let answer = convert(sheet, &mut work, out);
    Reply::new(answer)
}

// Says whether term `term` of a sheet is normal.
pub fn normality_reply(sheet: &[u8], term: usize) -> Line
    ensures { result.bytes ≡ normality_text (normality_of sheet.now term 3072) }
{
    let mut work = [0u32; 3072];
    mark_normal(sheet, term, &mut work).line()
}

// Asks a window with a date, three texts; there is no line if one of them is no date in text. No `Window` is handed
// over, since it needs dates.
#[tactic(auto, using(crate::proofs::DateLaws::asking))]
pub fn window_reply(first: &[u8], last: &[u8], day: &[u8]) -> Option<Line>
    ensures { option_map (λ line. line.bytes) result ≡ window_text (date_in first.now) (date_in last.now) (date_in day.now) }
{
    let first = read_date(first)?;
    let last = read_date(last)?;
    let day = read_date(day)?;
    Some(Window::new(first, last).open_on(day).line())
}

// Numbers the day of a date likewise.
#[tactic(auto, using(crate::proofs::DateLaws::date_unread, crate::proofs::DateLaws::date_read))]
pub fn day_reply(date: &[u8]) -> Option<Line>
    ensures { option_map (λ line. line.bytes) result ≡ date_text (date_in date.now) }
{
    Some(read_date(date)?.day_number().line())
}
