// Lines: ten words each.
ghost use Rattle.std.specs.Prelude.{◌≡◌, ◌+◌, ◌*◌, ◌<◌, ◌≤◌, length};
ghost use Rattle.terms.specs.Decides.{Decides};
ghost use Rattle.rules.specs.RuleTable.{form_of, premise_count};
ghost use Rattle.sheets.specs.Layout.{edition_of};
ghost use Rattle.sheets.specs.Lines.{line_word, line_of, judgment_of, below, subjects_fit, premises_fit, rule_fits, numbers_fit, line_fits, line_at, LineFollows, check_lines};
ghost use Rattle.sheets.specs.Good.{WellFormedTables, GoodBefore};
ghost use Rattle.sheets.specs.GoodLines.{LineOk};
ghost use Rattle.sheets.specs.Citing.{CitingLines};

use crate::layout::edition_of;
use crate::refusals::{Counts, Fault, Refusal};
use rules::editions::row_in;
use rules::instances::{is_cited_instance, is_instance};
use rules::judgments::{LineJudgment, Premises, last_context, subject_use};
use rules::table::{RuleTable, cites_motive, conclusion_form, is_rule, rule_table};
use rules::tables::Tables;
use terms::words::word_at;

// A line as its edition reads it: its words, but that `rule` is the row of the rule table, 0 where the edition does not
// admit the rule.
#[derive(Clone, Copy, Debug, PartialEq, Eq)]
pub struct Line {
    pub form: usize,
    pub rule: usize,
    pub context: usize,
    pub s1: usize,
    pub s2: usize,
    pub s3: usize,
    pub p0: usize,
    pub p1: usize,
    pub p2: usize,
    pub p3: usize,
}

// The lines of an admitted sheet, the bytes of which begin with them: each cites earlier ones alone.
#[derive(Clone, Copy)]
pub struct Lines<'a> {
    pub edition: usize,
    pub rows: &'a [u8],
    pub count: usize,
    ghost citing: { (20 * count ≤ length rows.now) × (count ≤ 1024) × CitingLines edition rows.now count },
}

impl<'a> Lines<'a> {
    pub fn line(self, n: usize) -> Line
        requires { n < self.count }
        ensures { result ≡ line_of self.entry.edition self.entry.rows.now n }
    {
        read_line(self.edition, self.rows, n)
    }
}

// Word `j` of line `n`.
fn line_word(lines: &[u8], n: usize, j: usize) -> usize
    requires { (20 * n + 20 ≤ length lines.now) × (j < 10) }
    ensures { result ≡ line_word lines.now n j }
{
    word_at(lines, 10 * n + j)
}

// Line `n`, its words assembled once; the rule is the row by which the edition judges it.
fn read_line(edition: usize, lines: &[u8], n: usize) -> Line
    requires { 20 * n + 20 ≤ length lines.now }
    ensures { result ≡ line_of edition lines.now n }
{
    Line {
        form: line_word(lines, n, 0),
        rule: row_in(edition, line_word(lines, n, 1)),
        context: line_word(lines, n, 2),
        s1: line_word(lines, n, 3),
        s2: line_word(lines, n, 4),
        s3: line_word(lines, n, 5),
        p0: line_word(lines, n, 6),
        p1: line_word(lines, n, 7),
        p2: line_word(lines, n, 8),
        p3: line_word(lines, n, 9),
    }
}

// What a line states.
impl From<Line> for LineJudgment {
    ghost from_gives = { λ line j. j ≡ judgment_of line };

    #[tactic(auto, unfolding(crate::specs::Lines::judgment_of))]
    fn from(line: Line) -> LineJudgment {
        LineJudgment {
            form: line.form,
            context: line.context,
            s1: line.s1,
            s2: line.s2,
            s3: line.s3,
        }
    }
}

// What a number is below: the bound if it is used, else 1.
fn bound(used: bool, n: usize) -> usize
    ensures { result ≡ below used n }
{
    if used { n } else { 1 }
}

// Number 9, the subjects, for the given number of terms.
fn subjects_fit(j: LineJudgment, terms: usize) -> bool
    ensures { result ≡ subjects_fit j terms }
{
    let used = subject_use(j.form);
    (j.s1 < bound(used.s1, terms)) & (j.s2 < bound(used.s2, terms)) & (j.s3 < bound(used.s3, terms))
}

// Number 9, the premises of line `n`, of which the first `count` are used.
fn premises_fit(line: Line, count: usize, n: usize) -> bool
    ensures { result ≡ premises_fit line count n }
{
    (line.p0 < bound(0 < count, n))
        & (line.p1 < bound(1 < count, n))
        & (line.p2 < bound(2 < count, n))
        & (line.p3 < bound(3 < count, n))
}

// Number 9, the rule and its form, which is the one given.
fn rule_fits(line: Line, form: usize) -> bool
    requires { form ≡ form_of line.rule }
    ensures { result ≡ rule_fits line }
{
    is_rule(line.rule) & (LineJudgment::from(line).form == form)
}

// Number 9, the numbers of line `n`, whose rule has `count` premises.
fn numbers_fit(line: Line, count: usize, n: usize, counts: Counts) -> bool
    requires { count ≡ premise_count line.rule }
    ensures { result ≡ numbers_fit line n counts.terms counts.contexts }
{
    let j = LineJudgment::from(line);
    (line.context <= last_context(j.form, counts.contexts))
        & subjects_fit(j, counts.terms)
        & premises_fit(line, count, n)
}

// Number 9 at line `n`, over the given numbers of terms and of contexts.
fn line_fits(table: &RuleTable, line: Line, n: usize, counts: Counts) -> bool
    ensures { result ≡ line_fits line n counts.terms counts.contexts }
{
    let rule = line.rule;
    if rule_fits(line, conclusion_form(rule)) {
        numbers_fit(line, table.premise_count(rule), n, counts)
    } else {
        false
    }
}

// Number 10 at line `n`. An unused premise word is 0, and line 0 is there; what it states is not looked at. No
// `GoodSheet`: the sheet is not admitted yet.
fn line_follows(
    table: &RuleTable,
    sheet: &[u8],
    edition: usize,
    counts: Counts,
    line: Line,
    n: usize,
) -> bool
    requires edition_value { edition ≡ edition_of sheet.now }
    requires good_before { GoodBefore sheet.now counts.terms counts.contexts n × (line ≡ line_at sheet.now counts.terms counts.contexts n) × LineOk line n counts.terms counts.contexts }
    ensures { Decides result (LineFollows sheet.now counts.terms counts.contexts n) }
{
    let after_terms = 10 * counts.terms;
    let after_contexts = 10 * counts.terms + 4 * counts.contexts;
    let tables = Tables {
        terms: sheet,
        contexts: &sheet[after_terms..],
    };
    let lines = &sheet[after_contexts..];
    let ps = Premises {
        p: read_line(edition, lines, line.p0).into(),
        q: read_line(edition, lines, line.p1).into(),
        r: read_line(edition, lines, line.p2).into(),
        s: read_line(edition, lines, line.p3).into(),
    };
    let c = LineJudgment::from(line);
    let rule = line.rule;
    if cites_motive(rule) {
        is_cited_instance(table, tables, rule, c, &ps)
    } else {
        is_instance(table, tables, rule, c, &ps)
    }
}

// Checks the lines in order: 9, then 10, at each.
pub fn check_lines(sheet: &[u8], counts: Counts) -> Result<(), Refusal>
    requires { WellFormedTables sheet.now counts.terms counts.contexts counts.lines }
    ensures { result ≡ check_lines sheet.now counts.terms counts.contexts counts.lines }
{
    let count = counts.lines;
    // where there is no line, no table is made
    if count == 0 {
        return Ok(());
    }
    let start = 10 * counts.terms + 4 * counts.contexts;
    let lines = &sheet[start..];
    let edition = edition_of(sheet);
    let table = rule_table();
    for n in 0..count {
        let line = read_line(edition, lines, n);
        if !line_fits(&table, line, n, counts) {
            return Err(Refusal::at(Fault::Numbers, n));
        }
        if !line_follows(&table, sheet, edition, counts, line, n) {
            return Err(Refusal::at(Fault::NoInstance, n));
        }
    }
    Ok(())
}
