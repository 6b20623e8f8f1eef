// Withdrawal of a line, and of a set of lines.
ghost use Rattle.std.specs.Prelude.{◌≡◌, length};
ghost use Rattle.sheets.specs.Admission.{work_after};
ghost use Rattle.sheets.specs.Withdrawal.{withdraw_of, out_from, out_after, KeepsTheOthers};
ghost use Rattle.sheets.specs.WithdrawalSet.{AllLines, kept_answer, after_set, withdraw_set_of, without_lines};
ghost use Rattle.sheets.specs.WithdrawalSet.{set_out_after, KeepsTheUnlisted};

use crate::copying::{trailer_for, write_sheet};
use crate::good_sheet::GoodSheet;
use crate::line_sets::{LineNumbers, LineSet};
use crate::refusals::{Counts, Fault, Refusal};
use crate::uses::kept_use;

// Numbers 12 and 13 on a sheet that is admitted, for a set of its lines, or the new sheet.
fn withdraw_lines(sheet: GoodSheet, set: LineSet, out: &mut [u8]) -> Result<usize, Refusal>
    requires all_lines { AllLines sheet.counts.lines set.numbers.now }
    ensures answer { result ≡ kept_answer sheet.entry.bytes.now sheet.entry.counts.terms sheet.entry.counts.contexts sheet.entry.counts.lines set.entry.numbers.now (length out.old) }
    ensures left { out.new ≡ out_from (without_lines sheet.entry.bytes.now set.entry.numbers.now) out.old result }
{
    let edition = sheet.edition;
    let Counts {
        terms,
        contexts,
        lines,
    } = sheet.counts;
    let numbers = LineNumbers::new(set, lines);
    if let Some(place) = kept_use(sheet.lines(), set, &numbers) {
        return Err(Refusal::at(Fault::LineUsed, place));
    }
    let left = lines - set.numbers.len();
    let length = 10 * terms + 4 * contexts + 20 * left + 16;
    if out.len() < length {
        return Err(Fault::Room.into());
    }
    let trailer = trailer_for(
        edition,
        Counts {
            lines: left,
            ..sheet.counts
        },
    );
    write_sheet(sheet.bytes, trailer, &numbers, out);
    Ok(length)
}

// Numbers 18 and 11 on a sheet that is admitted, then 12 and 13, or the new sheet.
fn withdraw_listed(sheet: GoodSheet, set: &[usize], out: &mut [u8]) -> Result<usize, Refusal>
    ensures answer { result ≡ after_set sheet.entry.bytes.now sheet.entry.counts.terms sheet.entry.counts.contexts sheet.entry.counts.lines set.now (length out.old) }
    ensures left { out.new ≡ out_from (without_lines sheet.entry.bytes.now set.now) out.old result }
{
    let Some(rising) = LineSet::new(set) else {
        return Err(Fault::NotRising.into());
    };
    let count = set.len();
    if 0 < count {
        let last = set[count - 1];
        if sheet.counts.lines <= last {
            return Err(Refusal::at(Fault::NoLine, last));
        }
    }
    withdraw_lines(sheet, rising, out)
}

// Admits a sheet, and writes it to `out` without the lines of the set, if no other line uses one of them.
pub fn withdraw_set(
    sheet: &[u8],
    set: &[usize],
    work: &mut [u32],
    out: &mut [u8],
) -> Result<usize, Refusal>
    ensures answer { result ≡ withdraw_set_of sheet.now set.now (length work.old) (length out.old) }
    ensures left { work.new ≡ work_after sheet.now work.old }
    ensures written { out.new ≡ set_out_after sheet.now set.now (length work.old) out.old }
    ensures kept { KeepsTheUnlisted sheet.now set.now out.new result }
{
    let admitted = GoodSheet::admit(sheet, work)?;
    withdraw_listed(admitted, set, out)
}

// Admits a sheet, and writes it to `out` without line `line`, if no later line uses that: the set of one line.
pub fn withdraw(
    sheet: &[u8],
    line: usize,
    work: &mut [u32],
    out: &mut [u8],
) -> Result<usize, Refusal>
    ensures answer { result ≡ withdraw_of sheet.now line (length work.old) (length out.old) }
    ensures left { work.new ≡ work_after sheet.now work.old }
    ensures written { out.new ≡ out_after sheet.now line (length work.old) out.old }
    ensures kept { KeepsTheOthers sheet.now line out.new result }
{
    let set = [line];
    withdraw_set(sheet, &set, work, out)
}
