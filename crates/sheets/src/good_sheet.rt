// A sheet that is admitted, for what is done with it behind the admission.
ghost use Rattle.std.specs.Prelude.{◌≡◌, ℕ, ◌<◌, Ok, Err, MatchResult, length, get_or};
ghost use Rattle.sheets.specs.Layout.{edition_of, contexts_in, lines_in};
ghost use Rattle.sheets.specs.Admission.{admit_of, work_after};

use crate::admission::admit;
use crate::layout::edition_of;
use crate::lines::Lines;
use crate::refusals::{Counts, Refusal};
use rules::tables::Tables;

// The bytes, the edition that they name, and the counts with which they are accepted, given a work buffer of as many
// words as there are terms.
#[derive(Clone, Copy)]
pub struct GoodSheet<'a> {
    pub bytes: &'a [u8],
    pub edition: usize,
    pub counts: Counts,
    ghost accepted: { admit_of bytes.now counts.terms ≡ Ok counts },
    ghost own: { edition ≡ edition_of bytes.now },
    ghost small: { (i : ℕ) → get_or bytes.now i 0 < 256 },
}

impl<'a> GoodSheet<'a> {
    pub fn admit(bytes: &'a [u8], work: &mut [u32]) -> Result<GoodSheet<'a>, Refusal>
        ensures answer { MatchResult result (λ s. (s.bytes.now ≡ bytes.now) × (admit_of bytes.now (length work.old) ≡ Ok s.counts)) (λ r. admit_of bytes.now (length work.old) ≡ Err r) }
        ensures left { work.new ≡ work_after bytes.now work.old }
    {
        let counts = admit(bytes, work)?;
        Ok(GoodSheet {
            bytes,
            edition: edition_of(bytes),
            counts,
        })
    }

    // The tables of terms and of contexts.
    pub fn tables(self) -> Tables<'a>
        ensures terms { result.terms.now ≡ self.entry.bytes.now }
        ensures contexts { result.contexts.now ≡ contexts_in self.entry.bytes.now self.entry.counts.terms }
    {
        let start = 10 * self.counts.terms;
        Tables {
            terms: self.bytes,
            contexts: &self.bytes[start..],
        }
    }

    pub fn lines(self) -> Lines<'a>
        ensures edition { result.edition ≡ edition_of self.entry.bytes.now }
        ensures rows { result.rows.now ≡ lines_in self.entry.bytes.now self.entry.counts.terms self.entry.counts.contexts }
        ensures count { result.count ≡ self.entry.counts.lines }
    {
        let start = 10 * self.counts.terms + 4 * self.counts.contexts;
        Lines {
            edition: self.edition,
            rows: &self.bytes[start..],
            count: self.counts.lines,
        }
    }
}
