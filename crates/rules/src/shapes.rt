// What the rule table asks of the premises: their forms, and how many entries their contexts add.
ghost use Rattle.std.specs.Prelude.{◌≡◌, [], ◌∷◌, ◌≤◌};
ghost use Rattle.terms.specs.Decides.{Decides};
ghost use Rattle.rules.specs.Contexts.{context, ContextsInTable};
ghost use Rattle.rules.specs.RuleTable.{IsRule, counted_from};
ghost use Rattle.rules.specs.Stated.{used_premises};
ghost use Rattle.rules.specs.RuleChecks.{in_order, Shaped, rule_contexts, AddsTo};

use crate::contexts::{ancestor, parent};
use crate::judgments::{LineJudgment, Premises};
use crate::table::{Demand, RuleTable};
use crate::tables::Tables;

// Is context `n` the context `base` with `count` entries added? The tables are well formed, so that equal contexts
// have equal numbers.
fn adds(tables: Tables, n: usize, base: usize, count: usize) -> bool
    requires { ContextsInTable tables.terms.now tables.contexts.now (n ∷ base ∷ []) }
    ensures { Decides result (AddsTo tables.entry.terms.now tables.entry.contexts.now n base count) }
{
    ancestor(tables.contexts, n, count) == Some(base)
}

// The context that the rule's added entries are counted from, where the conclusion's is `n`. The empty context has no
// parent.
fn counted_from(tables: Tables, rule: usize, n: usize) -> usize
    requires { ContextsInTable tables.terms.now tables.contexts.now (n ∷ []) }
    ensures value { context tables.entry.terms.now tables.entry.contexts.now result ≡ counted_from rule (context tables.entry.terms.now tables.entry.contexts.now n) }
    ensures range { result ≤ n }
{
    if rule != 2 {
        return n;
    }
    if n == 0 {
        return n;
    }
    parent(tables.contexts, n)
}

// Is the premise as demanded, the entries counted from the context `base`? A form of 255 asks for no premise, and `p`
// is not looked at.
fn fits_if_used(tables: Tables, base: usize, demand: Demand, p: LineJudgment) -> bool
    requires { (demand.form ≡ 255 → ⊥) → ContextsInTable tables.terms.now tables.contexts.now (p.context ∷ base ∷ []) }
    ensures { Decides result ((demand.form ≡ 255 → ⊥) → (p.form ≡ demand.form) × AddsTo tables.entry.terms.now tables.entry.contexts.now p.context base demand.added) }
{
    if demand.form == 255 {
        return true;
    }
    (p.form == demand.form) & adds(tables, p.context, base, demand.added)
}

// Are those of the four premises that the rule uses as the table asks? The others are not looked at.
pub fn shaped(
    table: &RuleTable,
    tables: Tables,
    rule: usize,
    c: LineJudgment,
    ps: &Premises,
) -> bool
    requires rule { IsRule rule }
    requires contexts_in_table { ContextsInTable tables.terms.now tables.contexts.now (rule_contexts (used_premises rule (in_order ps.now)) c) }
    ensures { Decides result (Shaped tables.entry.terms.now tables.entry.contexts.now rule (in_order ps.now) c) }
{
    let row = table.row(rule);
    let base = counted_from(tables, rule, c.context);
    fits_if_used(tables, base, row.p, ps.p)
        & fits_if_used(tables, base, row.q, ps.q)
        & fits_if_used(tables, base, row.r, ps.r)
        & fits_if_used(tables, base, row.s, ps.s)
}
