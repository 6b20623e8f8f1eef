// Whether a term of a sheet is normal.
ghost use Rattle.std.specs.Prelude.{◌≡◌, length};
ghost use Rattle.sheets.specs.Normality.{normality_of};
ghost use Rattle.sheets.specs.Admission.{work_after};

use crate::admission::admit;
use crate::refusals::{Fault, Refusal};
use terms::normal::is_normal;

// Admits a sheet, and says whether its term `term` is normal.
pub fn mark_normal(sheet: &[u8], term: usize, work: &mut [u32]) -> Result<bool, Refusal>
    ensures answer { result ≡ normality_of sheet.now term (length work.old) }
    ensures left { work.new ≡ work_after sheet.now work.old }
{
    let counts = admit(sheet, work)?;
    if counts.terms <= term {
        return Err(Refusal::at(Fault::NoTerm, term));
    }
    Ok(is_normal(sheet, term))
}
