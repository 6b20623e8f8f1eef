// Cases, 26 words each: the rule, the conclusion and four premises, zeros for those that there are not.
ghost use Rattle.std.specs.Prelude.{◌≡◌, ◌+◌, ◌*◌, ◌<◌, ◌≤◌, length};
ghost use Rattle.terms.specs.Decides.{Decides};
ghost use Rattle.rules.specs.Stated.{Numbered, Follows};
ghost use Rattle.rules.specs.RuleChecks.{in_order, LineInTables};
ghost use Rattle.rules_demo.specs.Cases.{case_judgment, Case, Answered};

use crate::tables::CheckedTables;
use rules::instances::{is_cited_instance, is_instance};
use rules::judgments::{LineJudgment, Premises, last_context, subject_use};
use rules::table::{RuleTable, cites_motive, conclusion_form, is_rule};
use rules::tables::Tables;
use std::io;
use terms::words::word_at;

// Forms count from 0.
const LAST_FORM: usize = 6;

#[derive(Drop)]
pub enum Answer {
    Instance,
    Refused,
    NoCase,
}

// Judgment `j` of case `number`: the conclusion is 0, the premises 1 to 4.
fn judgment_at(cases: &[u8], number: usize, j: usize) -> LineJudgment
    requires { (52 * number + 52 ≤ length cases.now) × (j < 5) }
    ensures { result ≡ case_judgment cases.now number j }
{
    let at = 26 * number + 5 * j + 1;
    LineJudgment {
        form: word_at(cases, at),
        context: word_at(cases, at + 1),
        s1: word_at(cases, at + 2),
        s2: word_at(cases, at + 3),
        s3: word_at(cases, at + 4),
    }
}

// Are the numbers that the judgment's form uses in range, and does it stand in a context where its form may? The two
// counts alone, as the definitions `Numbered` and `Case` have them: no table is read.
fn is_numbered(t: usize, n: usize, j: LineJudgment) -> bool
    ensures { Decides result (Numbered t n j) }
{
    let used = subject_use(j.form);
    (j.form <= LAST_FORM)
        & (j.context <= last_context(j.form, n))
        & (!used.s1 | (j.s1 < t))
        & (!used.s2 | (j.s2 < t))
        & (!used.s3 | (j.s3 < t))
}

// Do these numbers make a case: a rule, its form, and numbers in range?
fn is_case(t: usize, n: usize, rule: usize, c: LineJudgment, ps: &Premises) -> bool
    ensures { Decides result (Case t n rule (in_order ps.now) c) }
{
    is_rule(rule)
        & (c.form == conclusion_form(rule))
        & is_numbered(t, n, c)
        & is_numbered(t, n, ps.p)
        & is_numbered(t, n, ps.q)
        & is_numbered(t, n, ps.r)
        & is_numbered(t, n, ps.s)
}

// Does the judgment `c` follow by the rule, rows 68 and 69 among them, from the premises that the rule uses?
fn follows(table: &RuleTable, tables: Tables, rule: usize, c: LineJudgment, ps: &Premises) -> bool
    requires { LineInTables tables.terms.now tables.contexts.now rule (in_order ps.now) c }
    ensures { Decides result (Follows tables.entry.terms.now tables.entry.contexts.now rule (in_order ps.now) c) }
{
    if cites_motive(rule) {
        is_cited_instance(table, tables, rule, c, ps)
    } else {
        is_instance(table, tables, rule, c, ps)
    }
}

fn answer_to(
    table: &RuleTable,
    checked: CheckedTables,
    rule: usize,
    c: LineJudgment,
    ps: &Premises,
) -> Answer
    ensures { Answered result (Case checked.entry.t checked.entry.n rule (in_order ps.now) c) (Follows checked.entry.tables.terms.now checked.entry.tables.contexts.now rule (in_order ps.now) c) }
{
    if is_case(checked.t, checked.n, rule, c, ps) {
        if follows(table, checked.tables, rule, c, ps) {
            return Answer::Instance;
        }
        return Answer::Refused;
    }
    Answer::NoCase
}

fn write_line(rt: &impl Print, rule: usize, number: usize, answer: Answer) -> io::Result<()> {
    print!(rt; "rule {rule} case {number}")?;
    match answer {
        Answer::Instance => rt.write_all(b": instance\n"),
        Answer::Refused => rt.write_all(b": no instance\n"),
        Answer::NoCase => rt.write_all(b": no case\n"),
    }
}

// Runs case `number`.
fn run(
    rt: &impl Print,
    table: &RuleTable,
    checked: CheckedTables,
    cases: &[u8],
    number: usize,
) -> io::Result<()>
    requires { 52 * number + 52 ≤ length cases.now }
{
    let rule = word_at(cases, 26 * number);
    let c = judgment_at(cases, number, 0);
    let ps = Premises {
        p: judgment_at(cases, number, 1),
        q: judgment_at(cases, number, 2),
        r: judgment_at(cases, number, 3),
        s: judgment_at(cases, number, 4),
    };
    write_line(rt, rule, number, answer_to(table, checked, rule, c, &ps))
}

// Runs so many cases.
pub fn run_all(
    rt: &impl Print,
    table: &RuleTable,
    checked: CheckedTables,
    cases: &[u8],
    many: usize,
) -> io::Result<()>
    requires { 52 * many ≤ length cases.now }
{
    for number in 0..many {
        run(rt, table, checked, cases, number)?;
    }
    Ok(())
}
