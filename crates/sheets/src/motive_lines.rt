// Number 21: the lines that give the motives of the lines of rules 33 and 34.
ghost use Rattle.std.specs.Prelude.{◌≡◌, ◌≤◌, ◌<◌, eqb, length, get_or, Some, None, MatchResult};
ghost use Rattle.terms.specs.Search.{first_at};
ghost use Rattle.rules.specs.MotiveNumbers.{MotiveGivenBy};
ghost use Rattle.sheets.specs.Layout.{contexts_in};
ghost use Rattle.sheets.specs.Lines.{judgment_of, line_at};
ghost use Rattle.sheets.specs.Conversion.{first_without, new_premise};
ghost use Rattle.sheets.specs.MotiveSteps.{MotivesGiven, NewPremises};

use crate::good_sheet::GoodSheet;
use crate::lines::Line;
use rules::editions::asks_motive;
use rules::motives::{motive_asked_by, motive_given_by};

// The edition that is written.
pub const NEW_EDITION: usize = 3;

// The first of `count` places that holds the number. The others of the array, of which `MotivesGiven` speaks whole, are
// not filled yet.
fn first_equal(numbers: &[u32; 1024], count: usize, wanted: usize) -> Option<usize>
    requires { count ≤ 1024 }
    ensures { result ≡ first_at (λ k. eqb (get_or numbers.now k 0) wanted) Some None count 0 }
{
    numbers[..count]
        .iter()
        .position(|number| *number as usize == wanted)
}

// The lowest line before line `n` that gives its motive; `n` if none does, or it wants none.
// No Option: `converted` of specs/Conversion says the new sheet by `new_premise`, which is `n` for none.
fn new_premise(sheet: GoodSheet, given: &[u32; 1024], line: Line, n: usize) -> usize
    requires line_value { (n < sheet.counts.lines) × (line ≡ line_at sheet.bytes.now sheet.counts.terms sheet.counts.contexts n) }
    requires motives_given { MotivesGiven sheet.bytes.now sheet.counts.terms sheet.counts.contexts given.now n }
    ensures { result ≡ new_premise sheet.entry.bytes.now sheet.entry.counts.terms sheet.entry.counts.contexts n }
{
    if asks_motive(NEW_EDITION, line.rule) {
        let asked = motive_asked_by(sheet.tables(), line.into());
        return first_equal(given, n, asked).unwrap_or(n);
    }
    n
}

// The number of the motive to which line `n` gives a universe.
fn motive_given(sheet: GoodSheet, line: Line, n: usize) -> u32
    requires { (n < sheet.counts.lines) × (line ≡ line_at sheet.bytes.now sheet.counts.terms sheet.counts.contexts n) }
    ensures { MotiveGivenBy sheet.entry.bytes.now (contexts_in sheet.entry.bytes.now sheet.entry.counts.terms) (judgment_of (line_at sheet.entry.bytes.now sheet.entry.counts.terms sheet.entry.counts.contexts n)) result }
{
    motive_given_by(sheet.tables(), line.into()) as u32
}

// Puts for each line the line that it is to cite first, itself where it wants no motive, up to the lowest line that
// wants a motive and has none, whose number is the error. No heap: the array is the caller's.
pub fn find_motives(sheet: GoodSheet, first: &mut [u16; 1024]) -> Result<(), usize>
    requires { length first.old ≡ 1024 }
    ensures place { MatchResult result (λ _. first_without sheet.entry.bytes.now sheet.entry.counts.terms sheet.entry.counts.contexts sheet.entry.counts.lines ≡ sheet.entry.counts.lines) (λ n. (n < sheet.entry.counts.lines) × (first_without sheet.entry.bytes.now sheet.entry.counts.terms sheet.entry.counts.contexts sheet.entry.counts.lines ≡ n)) }
    ensures found { NewPremises sheet.entry.bytes.now sheet.entry.counts.terms sheet.entry.counts.contexts first.new (first_without sheet.entry.bytes.now sheet.entry.counts.terms sheet.entry.counts.contexts sheet.entry.counts.lines) }
{
    let lines = sheet.lines();
    let mut given = [0u32; 1024];
    for n in 0..sheet.counts.lines {
        let line = lines.line(n);
        let premise = new_premise(sheet, &given, line, n);
        if asks_motive(NEW_EDITION, line.rule) & (premise == n) {
            return Err(n);
        }
        first[n] = premise as u16;
        given[n] = motive_given(sheet, line, n);
    }
    Ok(())
}
