// Conversion to edition 3: the lines of rules 33 and 34 cite their motives.
ghost use Rattle.std.specs.Prelude.{◌≡◌, ◌+◌, ◌*◌, ◌≤◌, ◌<◌, length, get_or};
ghost use Rattle.terms.specs.Words.{word_at, bytes_of};
ghost use Rattle.terms.specs.Buffers.{over};
ghost use Rattle.terms.specs.Lists.{listed};
ghost use Rattle.sheets.specs.Admission.{work_after};
ghost use Rattle.sheets.specs.Conversion.{converted_word, converted, convert_admitted, convert_of, output_from};
ghost use Rattle.sheets.specs.Conversion.{converted_after, KeepsEveryLine};
ghost use Rattle.sheets.specs.MotiveSteps.{with_word};

use crate::copying::{copy_bytes, put_word};
use crate::good_sheet::GoodSheet;
use crate::motive_lines::{NEW_EDITION, find_motives};
use crate::refusals::{Counts, Fault, Refusal};
use terms::words::word_at;

// Puts line `first` before a line's premises, which begin at word `at`; the last of four drops out.
fn add_premise(sheet: &[u8], at: usize, first: usize, out: &mut [u8])
    requires at_in_bounds { (2 * at + 8 ≤ length sheet.now) × (2 * at + 8 ≤ length out.old) × (first < 65536) }
    requires at_bound { at ≤ 65536 }
    ensures { out.new ≡ with_word (with_word (with_word (with_word out.old at first) (at + 1) (word_at sheet.now at)) (at + 2) (word_at sheet.now (at + 1))) (at + 3) (word_at sheet.now (at + 2)) }
{
    put_word(out, at, first);
    put_word(out, at + 1, word_at(sheet, at));
    put_word(out, at + 2, word_at(sheet, at + 1));
    put_word(out, at + 3, word_at(sheet, at + 2));
}

// Writes the new sheet, in which each line cites the line that is given for it first, if that is an earlier one.
fn write_converted(sheet: &[u8], start: usize, lines: usize, first: &[u16; 1024], out: &mut [u8])
    requires start_bound { (start ≤ 15872) × (lines ≤ 1024) × (2 * (start + 10 * lines + 8) ≡ length sheet.now) }
    requires sheet_in_bounds { length sheet.now ≤ length out.old }
    ensures { out.new ≡ over (bytes_of (listed (converted_word sheet.now start lines (λ n. get_or first.now n 0)) (start + 10 * lines + 8))) out.old }
{
    copy_bytes(sheet, sheet.len(), out);
    put_word(out, start + 10 * lines + 3, NEW_EDITION);
    for n in 0..lines {
        // Compared before it is widened, since no bound is known of an array's element.
        let premise = first[n];
        if premise < n as u16 {
            add_premise(sheet, start + (10 * n + 6), premise as usize, out);
        }
    }
}

// Numbers 20, 21 and 13 on a sheet that is admitted, or the new sheet.
fn convert_admitted(sheet: GoodSheet, out: &mut [u8]) -> Result<usize, Refusal>
    ensures answer { result ≡ convert_admitted sheet.entry.bytes.now sheet.entry.counts.terms sheet.entry.counts.contexts sheet.entry.counts.lines (length out.old) }
    ensures left { out.new ≡ output_from (converted sheet.entry.bytes.now) out.old result }
{
    let up_to_date = NEW_EDITION <= sheet.edition;
    if up_to_date {
        return Err(Fault::UpToDate.into());
    }
    let mut first = [0u16; 1024];
    if let Err(place) = find_motives(sheet, &mut first) {
        return Err(Refusal::at(Fault::NoMotive, place));
    }
    let length = sheet.bytes.len();
    if out.len() < length {
        return Err(Fault::Room.into());
    }
    let Counts {
        terms,
        contexts,
        lines,
    } = sheet.counts;
    write_converted(sheet.bytes, 5 * terms + 2 * contexts, lines, &first, out);
    Ok(length)
}

// Admits a sheet of edition 1 or 2, and writes it to `out` in edition 3, with the motive of each line of rule 33 or 34
// as its first premise.
pub fn convert(sheet: &[u8], work: &mut [u32], out: &mut [u8]) -> Result<usize, Refusal>
    ensures answer { result ≡ convert_of sheet.now (length work.old) (length out.old) }
    ensures left { work.new ≡ work_after sheet.now work.old }
    ensures written { out.new ≡ converted_after sheet.now (length work.old) out.old }
    ensures kept { KeepsEveryLine sheet.now out.new result }
{
    let admitted = GoodSheet::admit(sheet, work)?;
    convert_admitted(admitted, out)
}
