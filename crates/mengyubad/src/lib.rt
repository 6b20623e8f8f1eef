// The library for programs in other languages. Every function answers a number, 0 or that of a refusal, and puts three
// values: if the number is 0 the counts, the line, how many judgments were sought, the length, the day number, or 1 for
// normal or open and 0 for not; else the place. What is left over is 0.
#![tactic(auto)]

ghost use Rattle.std.specs.Prelude.{◌≡◌, length, MatchResult};
ghost use Rattle.sheets.specs.Admission.{admit_of, work_after};
ghost use Rattle.sheets.specs.Finding.{find_of};
ghost use Rattle.sheets.specs.Batch.{wanted_of, wanted_in, batch_of, answers_after};
ghost use Rattle.sheets.specs.Withdrawal.{withdraw_of, out_after, KeepsTheOthers};
ghost use Rattle.sheets.specs.WithdrawalSet.{withdraw_set_of, set_out_after, KeepsTheUnlisted};
ghost use Rattle.sheets.specs.Conversion.{convert_of, converted_after, KeepsEveryLine};
ghost use Rattle.sheets.specs.Normality.{normality_of};
ghost use Rattle.windows.specs.Dates.{day_number_of};
ghost use Rattle.windows.specs.Access.{window_of, open_on};
ghost use Rattle.mengyubad.specs.Replies.{one_value, admission_reply, found_reply, batch_reply, withdrawal_reply};
ghost use Rattle.mengyubad.specs.Replies.{conversion_reply, normality_reply, day_reply, access_reply};
ghost use Rattle.mengyubad.specs.Replies.{counts_value, yes_or_no, refused_reply, access_value, window_refusal};
ghost use Rattle.mengyubad.specs.Replies.{date_from, Given};

use sheets::admission::admit;
use sheets::batch::find_all_flat;
use sheets::conversion::convert;
use sheets::finding::find;
use sheets::normality::mark_normal;
use sheets::refusals::{Counts, Refusal};
use sheets::withdrawal::{withdraw, withdraw_set};
use windows::access::{Access, Window};
use windows::dates::Date;
use windows::errors::WindowError;

// What C is given: a number, 0 or that of a refusal, and three values.
#[derive(Clone, Copy)]
struct Reply {
    number: usize,
    first: usize,
    second: usize,
    third: usize,
}

// The reply with one value.
fn single(number: usize, value: usize) -> Reply
    ensures { result ≡ one_value number value }
{
    Reply {
        number,
        first: value,
        second: 0,
        third: 0,
    }
}

// A number alone.
impl From<usize> for Reply {
    ghost from_gives = { λ value reply. reply ≡ one_value 0 value };

    fn from(value: usize) -> Reply {
        single(0, value)
    }
}

// The counts T, C and L.
impl From<Counts> for Reply {
    ghost from_gives = { λ counts reply. reply ≡ counts_value counts };

    fn from(counts: Counts) -> Reply {
        Reply {
            number: 0,
            first: counts.terms,
            second: counts.contexts,
            third: counts.lines,
        }
    }
}

// 1 for yes, 0 for no.
impl From<bool> for Reply {
    ghost from_gives = { λ yes reply. reply ≡ yes_or_no yes };

    fn from(yes: bool) -> Reply {
        single(0, usize::from(yes))
    }
}

// Its number and its place.
impl From<Refusal> for Reply {
    ghost from_gives = { λ refusal reply. reply ≡ refused_reply refusal };

    fn from(refusal: Refusal) -> Reply {
        single(refusal.fault.number(), refusal.place)
    }
}

// 1 for open, 0 for closed.
impl From<Access> for Reply {
    ghost from_gives = { λ access reply. reply ≡ access_value access };

    fn from(access: Access) -> Reply {
        match access {
            Access::Open => single(0, 1),
            Access::Closed => single(0, 0),
        }
    }
}

// Its number; no place goes with it.
impl From<WindowError> for Reply {
    ghost from_gives = { λ refusal reply. reply ≡ window_refusal refusal };

    fn from(refusal: WindowError) -> Reply {
        single(refusal.number(), 0)
    }
}

// What is answered, or why not.
impl<T: Into<Reply>, E: Into<Reply>> From<Result<T, E>> for Reply {
    ghost from_gives = { λ answer reply. MatchResult answer (λ value. T.Into.converts value reply) (λ refusal. E.Into.converts refusal reply) };

    fn from(answer: Result<T, E>) -> Reply {
        match answer {
            Ok(value) => value.into(),
            Err(refusal) => refusal.into(),
        }
    }
}

// The date of three numbers.
#[tactic(auto, unfolding(crate::specs::Replies::date_from, windows::specs::Dates::date_of))]
fn date_from(numbers: &[u32; 3]) -> Date
    ensures { result ≡ date_from numbers.now }
{
    let [year, month, day] = *numbers;
    Date {
        year: year as usize,
        month: month as usize,
        day: day as usize,
    }
}

// Puts a reply's values, and answers its number.
fn give(reply: Reply, values: &mut [usize; 3]) -> usize
    ensures { Given reply result values.new }
{
    *values = [reply.first, reply.second, reply.third];
    reply.number
}

// Admits a sheet: the counts T, C and L.
#[unsafe(no_mangle)]
pub extern "C" fn mengyubad_admit(sheet: &[u8], work: &mut [u32], values: &mut [usize; 3]) -> usize
    ensures answer { Given (admission_reply (admit_of sheet.now (length work.old))) result values.new }
    ensures left { work.new ≡ work_after sheet.now work.old }
{
    give(admit(sheet, work).into(), values)
}

// The line of a sheet with this form, context and three subjects: of several the one of least height, and of those the
// one with the highest number.
#[unsafe(no_mangle)]
pub extern "C" fn mengyubad_find(
    sheet: &[u8],
    work: &mut [u32],
    wanted: &[u32; 5],
    values: &mut [usize; 3],
) -> usize
    ensures answer { Given (found_reply (find_of sheet.now (length work.old) (wanted_of wanted.now))) result values.new }
    ensures left { work.new ≡ work_after sheet.now work.old }
{
    give(find(sheet, work, (*wanted).into()).into(), values)
}

// The lines of many judgments, five numbers a judgment, in a buffer of answers, 65,535 for a judgment that no line has:
// how many were sought.
#[unsafe(no_mangle)]
pub extern "C" fn mengyubad_find_all(
    sheet: &[u8],
    work: &mut [u32],
    wanted: &[u32],
    answers: &mut [u16],
    values: &mut [usize; 3],
) -> usize
    ensures answer { Given (batch_reply (batch_of sheet.now (length work.old) (length (wanted_in wanted.now)) (length answers.old))) result values.new }
    ensures left { work.new ≡ work_after sheet.now work.old }
    ensures put { answers.new ≡ answers_after sheet.now (length work.old) (wanted_in wanted.now) answers.old }
{
    give(find_all_flat(sheet, work, wanted, answers).into(), values)
}

// Writes a sheet without one of its lines: the new length.
#[unsafe(no_mangle)]
pub extern "C" fn mengyubad_withdraw(
    sheet: &[u8],
    line: usize,
    work: &mut [u32],
    out: &mut [u8],
    values: &mut [usize; 3],
) -> usize
    ensures answer { Given (withdrawal_reply (withdraw_of sheet.now line (length work.old) (length out.old))) result values.new }
    ensures left { work.new ≡ work_after sheet.now work.old }
    ensures written { out.new ≡ out_after sheet.now line (length work.old) out.old }
    ensures kept { KeepsTheOthers sheet.now line out.new (withdraw_of sheet.now line (length work.old) (length out.old)) }
{
    give(withdraw(sheet, line, work, out).into(), values)
}

// Writes a sheet without the lines of a set, whose numbers rise: the new length.
#[unsafe(no_mangle)]
pub extern "C" fn mengyubad_withdraw_set(
    sheet: &[u8],
    lines: &[usize],
    work: &mut [u32],
    out: &mut [u8],
    values: &mut [usize; 3],
) -> usize
    ensures answer { Given (withdrawal_reply (withdraw_set_of sheet.now lines.now (length work.old) (length out.old))) result values.new }
    ensures left { work.new ≡ work_after sheet.now work.old }
    ensures written { out.new ≡ set_out_after sheet.now lines.now (length work.old) out.old }
    ensures kept { KeepsTheUnlisted sheet.now lines.now out.new (withdraw_set_of sheet.now lines.now (length work.old) (length out.old)) }
{
    give(withdraw_set(sheet, lines, work, out).into(), values)
}

// Writes a sheet in edition 3, where the lines of rules 33 and 34 cite their motives: the length, which stays.
#[unsafe(no_mangle)]
pub extern "C" fn mengyubad_convert(
    sheet: &[u8],
    work: &mut [u32],
    out: &mut [u8],
    values: &mut [usize; 3],
) -> usize
    ensures answer { Given (conversion_reply (convert_of sheet.now (length work.old) (length out.old))) result values.new }
    ensures left { work.new ≡ work_after sheet.now work.old }
    ensures written { out.new ≡ converted_after sheet.now (length work.old) out.old }
    ensures kept { KeepsEveryLine sheet.now out.new (convert_of sheet.now (length work.old) (length out.old)) }
{
    give(convert(sheet, work, out).into(), values)
}

// Whether a term of a sheet is normal: 1 or 0.
#[unsafe(no_mangle)]
pub extern "C" fn mengyubad_normal(
    sheet: &[u8],
    term: usize,
    work: &mut [u32],
    values: &mut [usize; 3],
) -> usize
    ensures answer { Given (normality_reply (normality_of sheet.now term (length work.old))) result values.new }
    ensures left { work.new ≡ work_after sheet.now work.old }
{
    give(mark_normal(sheet, term, work).into(), values)
}

// How many days after 1 January 1970 a date is.
#[unsafe(no_mangle)]
pub extern "C" fn mengyubad_day_number(date: &[u32; 3], values: &mut [usize; 3]) -> usize
    ensures { Given (day_reply (day_number_of (date_from date.now))) result values.new }
{
    give(date_from(date).day_number().into(), values)
}

// Whether a window is open on a day: 1 or 0.
#[unsafe(no_mangle)]
pub extern "C" fn mengyubad_window(
    first: &[u32; 3],
    last: &[u32; 3],
    day: &[u32; 3],
    values: &mut [usize; 3],
) -> usize
    ensures { Given (access_reply (open_on (window_of (date_from first.now) (date_from last.now)) (date_from day.now))) result values.new }
{
    let window = Window::new(date_from(first), date_from(last));
    give(window.open_on(date_from(day)).into(), values)
}
