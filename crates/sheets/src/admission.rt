// Admission of a sheet.
ghost use Rattle.std.specs.Prelude.{◌≡◌, length};
ghost use Rattle.sheets.specs.Admission.{admit_of, work_after};

use crate::layout::read_layout;
use crate::lines::check_lines;
use crate::refusals::{Counts, Refusal};
use rules::contexts::check_contexts;
use terms::sizes::check_terms;

// Admits a sheet, or says what is wrong with it first. The words of `work` take the terms' sizes.
pub fn admit(sheet: &[u8], work: &mut [u32]) -> Result<Counts, Refusal>
    ensures answer { result ≡ admit_of sheet.now (length work.old) }
    ensures left { work.new ≡ work_after sheet.now work.old }
{
    let counts = read_layout(sheet, work.len())?;
    check_terms(sheet, counts.terms, work)?;
    let start = 10 * counts.terms;
    check_contexts(&sheet[start..], counts.terms, counts.contexts)?;
    check_lines(sheet, counts)?;
    Ok(counts)
}
