// Does a line give the motive of another's induction a universe? Of one line, and of many by their numbers.
ghost use Rattle.std.specs.Prelude.{◌≡◌, [], ◌∷◌, ◌≤◌, ◌<◌};
ghost use Rattle.terms.specs.Decides.{Decides};
ghost use Rattle.rules.specs.MotiveNumbers.{motive_number, MotiveAskedBy, MotiveGivenBy};
ghost use Rattle.rules.specs.Motives.{GivesMotive};
ghost use Rattle.rules.specs.RuleChecks.{JudgmentsInTables};
ghost use Rattle.rules.specs.Stated.{stated};

use crate::contexts::{parent, type_of};
use crate::judgments::LineJudgment;
use crate::tables::Tables;
use crate::universes::is_universe;
use terms::nodes::{Node, child, is_node, same_term};

// Is `p` G,Nat |- P : U_i, where `c`, of form 2, stands in G and P is the first part of its subject `s1`?
pub fn gives_motive(tables: Tables, c: LineJudgment, p: LineJudgment) -> bool
    requires judgments_in_tables { JudgmentsInTables tables.terms.now tables.contexts.now (c ∷ p ∷ []) }
    requires form_value { c.form ≡ 2 }
    ensures { Decides result (GivesMotive (stated tables.entry.terms.now tables.entry.contexts.now p) (stated tables.entry.terms.now tables.entry.contexts.now c)) }
{
    if p.form == 1 {
        let motive = child(tables.terms, c.s1, 1);
        tables.extends_nat(p.context, c.context)
            & same_term(tables.terms, p.s1, motive)
            & is_universe(tables.terms, p.s3)
    } else {
        false
    }
}

// The number of the motive of row `row` in a context.
fn motive_number(context: usize, row: usize) -> usize
    requires { (context ≤ 256) × (row < 4096) }
    ensures { result ≡ motive_number context row }
{
    4096 * context + row + 1
}

// The number of the motive that `c`, of form 2, asks for.
pub fn motive_asked_by(tables: Tables, c: LineJudgment) -> usize
    requires judgments_in_tables { JudgmentsInTables tables.terms.now tables.contexts.now (c ∷ []) }
    requires form_value { c.form ≡ 2 }
    ensures { MotiveAskedBy tables.entry.terms.now c result }
{
    motive_number(c.context, child(tables.terms, c.s1, 1))
}

// The number of the motive to which `p`, typing in a context that has entries, gives a universe, 0 if there is none.
fn motive_under_entry(tables: Tables, p: LineJudgment) -> usize
    requires judgments_in_tables { JudgmentsInTables tables.terms.now tables.contexts.now (p ∷ []) }
    requires has_entry { (p.form ≡ 1) × (0 < p.context) }
    ensures number { MotiveGivenBy tables.entry.terms.now tables.entry.contexts.now p result }
    ensures range { result < 4294967296 }
{
    let entry = type_of(tables.contexts, p.context);
    if is_node(tables.terms, entry, Node::Nat) & is_universe(tables.terms, p.s3) {
        let above = parent(tables.contexts, p.context);
        return motive_number(above, p.s1);
    }
    0
}

// The number of the motive to which `p` gives a universe; 0 for none, since the converter keeps a line's number in four
// bytes, and an Option would take eight.
pub fn motive_given_by(tables: Tables, p: LineJudgment) -> usize
    requires { JudgmentsInTables tables.terms.now tables.contexts.now (p ∷ []) }
    ensures number { MotiveGivenBy tables.entry.terms.now tables.entry.contexts.now p result }
    ensures range { result < 4294967296 }
{
    if (p.form == 1) & (0 < p.context) {
        return motive_under_entry(tables, p);
    }
    0
}
