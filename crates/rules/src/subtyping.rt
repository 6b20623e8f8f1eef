// The own checks of rules 35 to 43, subtyping. Those of Pi and of Sigma are no twins: Pi turns its first parts round,
// so that they differ in which rows go where, and not in the node alone.
#![tactic(auto, using(terms::proofs::Tests::other_rows, crate::proofs::ContextTableAnswers::rows_known), unfolding(crate::specs::RuleChecks::rule_subjects))]

ghost use Rattle.std.specs.Prelude.{[], ◌∷◌};
ghost use Rattle.terms.specs.Decides.{Decides};
ghost use Rattle.terms.specs.Table.{RowsInTable};
ghost use Rattle.rules.specs.RuleChecks.{rule_subjects, RuleInTables, FollowsPlaced, DecidesInEvery};

use crate::judgments::LineJudgment;
use crate::tables::Tables;
use crate::universes::{is_universe, universes_rise};
use terms::images::{Subst, is_substituted};
use terms::nodes::{Node, child, is_node, same_term};

// L-TRANS
pub fn l_trans(terms: &[u8], c: LineJudgment, p: LineJudgment, q: LineJudgment) -> bool
    requires { RowsInTable terms.now (rule_subjects 35 (p ∷ q ∷ []) c) }
    ensures { DecidesInEvery result terms.now 35 (p ∷ q ∷ []) c }
{
    same_term(terms, c.s1, p.s1) & same_term(terms, q.s1, p.s2) & same_term(terms, c.s2, q.s2)
}

// L-EQ
pub fn l_eq(terms: &[u8], c: LineJudgment, p: LineJudgment) -> bool
    requires { RowsInTable terms.now (rule_subjects 36 (p ∷ []) c) }
    ensures { DecidesInEvery result terms.now 36 (p ∷ []) c }
{
    same_term(terms, c.s1, p.s1) & same_term(terms, c.s2, p.s2) & is_universe(terms, p.s3)
}

// L-UNIV
pub fn l_univ(terms: &[u8], c: LineJudgment) -> bool
    requires { RowsInTable terms.now (rule_subjects 37 [] c) }
    ensures { (p : LineJudgment) → DecidesInEvery result terms.now 37 (p ∷ []) c }
{
    universes_rise(terms, c.s1, c.s2)
}

// L-PI, its second premise under either domain
pub fn l_pi(tables: Tables, c: LineJudgment, p: LineJudgment, q: LineJudgment) -> bool
    requires { RuleInTables tables.terms.now tables.contexts.now 38 (p ∷ q ∷ []) c }
    ensures { Decides result (FollowsPlaced tables.entry.terms.now tables.entry.contexts.now 38 (p ∷ q ∷ []) c) }
{
    (tables.extends(q.context, c.context, p.s2) | tables.extends(q.context, c.context, p.s1))
        & is_node(tables.terms, c.s1, Node::Pi(p.s2, q.s1))
        & is_node(tables.terms, c.s2, Node::Pi(p.s1, q.s2))
}

// L-SIG
pub fn l_sig(tables: Tables, c: LineJudgment, p: LineJudgment, q: LineJudgment) -> bool
    requires { RuleInTables tables.terms.now tables.contexts.now 39 (p ∷ q ∷ []) c }
    ensures { Decides result (FollowsPlaced tables.entry.terms.now tables.entry.contexts.now 39 (p ∷ q ∷ []) c) }
{
    tables.extends(q.context, c.context, p.s2)
        & is_node(tables.terms, c.s1, Node::Sigma(p.s1, q.s1))
        & is_node(tables.terms, c.s2, Node::Sigma(p.s2, q.s2))
}

// L-PIPROJ1
pub fn l_piproj1(terms: &[u8], c: LineJudgment, p: LineJudgment) -> bool
    requires { RowsInTable terms.now (rule_subjects 40 (p ∷ []) c) }
    ensures { DecidesInEvery result terms.now 40 (p ∷ []) c }
{
    let b = child(terms, p.s1, 2);
    let d = child(terms, p.s2, 2);
    is_node(terms, p.s1, Node::Pi(c.s2, b)) & is_node(terms, p.s2, Node::Pi(c.s1, d))
}

// L-PIPROJ2
pub fn l_piproj2(terms: &[u8], c: LineJudgment, p: LineJudgment, q: LineJudgment) -> bool
    requires { RowsInTable terms.now (rule_subjects 41 (p ∷ q ∷ []) c) }
    ensures { DecidesInEvery result terms.now 41 (p ∷ q ∷ []) c }
{
    let a = child(terms, p.s1, 1);
    let b = child(terms, p.s1, 2);
    let d = child(terms, p.s2, 2);
    if is_node(terms, p.s1, Node::Pi(a, b)) & is_node(terms, p.s2, Node::Pi(q.s3, d)) {
        is_substituted(terms, 0, Subst::Row(q.s1), b, c.s1)
            & is_substituted(terms, 0, Subst::Row(q.s2), d, c.s2)
    } else {
        false
    }
}

// L-SIGPROJ1
pub fn l_sigproj1(terms: &[u8], c: LineJudgment, p: LineJudgment) -> bool
    requires { RowsInTable terms.now (rule_subjects 42 (p ∷ []) c) }
    ensures { DecidesInEvery result terms.now 42 (p ∷ []) c }
{
    let b = child(terms, p.s1, 2);
    let d = child(terms, p.s2, 2);
    is_node(terms, p.s1, Node::Sigma(c.s1, b)) & is_node(terms, p.s2, Node::Sigma(c.s2, d))
}

// L-SIGPROJ2
pub fn l_sigproj2(terms: &[u8], c: LineJudgment, p: LineJudgment, q: LineJudgment) -> bool
    requires { RowsInTable terms.now (rule_subjects 43 (p ∷ q ∷ []) c) }
    ensures { DecidesInEvery result terms.now 43 (p ∷ q ∷ []) c }
{
    let b = child(terms, p.s1, 2);
    let a = child(terms, p.s2, 1);
    let d = child(terms, p.s2, 2);
    if is_node(terms, p.s1, Node::Sigma(q.s3, b)) & is_node(terms, p.s2, Node::Sigma(a, d)) {
        is_substituted(terms, 0, Subst::Row(q.s1), b, c.s1)
            & is_substituted(terms, 0, Subst::Row(q.s2), d, c.s2)
    } else {
        false
    }
}
