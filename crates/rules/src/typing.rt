// The own checks of rules 3 to 16, typing. Each answers whether the judgments are an instance of its rule, the
// premises that add no entry standing in the conclusion's context.
#![tactic(auto, using(terms::proofs::Tests::other_rows, crate::proofs::ContextTableAnswers::rows_known), unfolding(crate::specs::RuleChecks::rule_subjects))]

ghost use Rattle.std.specs.Prelude.{◌≡◌, [], ◌∷◌};
ghost use Rattle.terms.specs.Decides.{Decides};
ghost use Rattle.terms.specs.Term.{zer};
ghost use Rattle.terms.specs.Substitution.{◌⟨◌⟩, on_succ};
ghost use Rattle.terms.specs.Rows.{term};
ghost use Rattle.terms.specs.Table.{RowsInTable};
ghost use Rattle.rules.specs.Contexts.{InTables};
ghost use Rattle.rules.specs.RuleChecks.{in_order, rule_subjects, RuleInTables, FollowsPlaced, DecidesInEvery, TypesFamily};

use crate::contexts::entry;
use crate::judgments::{LineJudgment, Premises};
use crate::tables::Tables;
use crate::universes::{is_next_universe, is_universe};
use terms::images::{Subst, is_shifted, is_substituted};
use terms::nodes::{Node, child, is_node, number, same_term};

// WT-VAR: the type is the entry's, raised past the entries from it on.
pub fn wt_var(tables: Tables, c: LineJudgment) -> bool
    requires { RuleInTables tables.terms.now tables.contexts.now 3 [] c }
    ensures { (p : LineJudgment) → Decides result (FollowsPlaced tables.entry.terms.now tables.entry.contexts.now 3 (p ∷ []) c) }
{
    let x = number(tables.terms, c.s1);
    if is_node(tables.terms, c.s1, Node::Var(x)) {
        match entry(tables.contexts, c.context, x) {
            Some(row) => is_shifted(tables.terms, 0, x + 1, row, c.s3),
            None => false,
        }
    } else {
        false
    }
}

// What WT-PI and WT-SIG ask of their premises: one universe for a type and, under it, for the other.
fn types_family(tables: Tables, c: LineJudgment, p: LineJudgment, q: LineJudgment) -> bool
    requires { InTables tables.terms.now tables.contexts.now (q.context ∷ c.context ∷ []) (p.s1 ∷ p.s3 ∷ q.s3 ∷ c.s3 ∷ []) }
    ensures { Decides result (TypesFamily tables.entry.terms.now tables.entry.contexts.now c p q) }
{
    tables.extends(q.context, c.context, p.s1)
        & same_term(tables.terms, p.s3, c.s3)
        & same_term(tables.terms, q.s3, c.s3)
        & is_universe(tables.terms, c.s3)
}

// WT-PI
pub fn wt_pi(tables: Tables, c: LineJudgment, p: LineJudgment, q: LineJudgment) -> bool
    requires { RuleInTables tables.terms.now tables.contexts.now 4 (p ∷ q ∷ []) c }
    ensures { Decides result (FollowsPlaced tables.entry.terms.now tables.entry.contexts.now 4 (p ∷ q ∷ []) c) }
{
    types_family(tables, c, p, q) & is_node(tables.terms, c.s1, Node::Pi(p.s1, q.s1))
}

// WT-ABS
pub fn wt_abs(tables: Tables, c: LineJudgment, p: LineJudgment) -> bool
    requires { RuleInTables tables.terms.now tables.contexts.now 5 (p ∷ []) c }
    ensures { Decides result (FollowsPlaced tables.entry.terms.now tables.entry.contexts.now 5 (p ∷ []) c) }
{
    let a = child(tables.terms, c.s3, 1);
    tables.extends(p.context, c.context, a)
        & is_node(tables.terms, c.s1, Node::Lam(p.s1))
        & is_node(tables.terms, c.s3, Node::Pi(a, p.s3))
}

// WT-APP
pub fn wt_app(terms: &[u8], c: LineJudgment, p: LineJudgment, q: LineJudgment) -> bool
    requires { RowsInTable terms.now (rule_subjects 6 (p ∷ q ∷ []) c) }
    ensures { DecidesInEvery result terms.now 6 (p ∷ q ∷ []) c }
{
    let b = child(terms, p.s3, 2);
    if is_node(terms, p.s3, Node::Pi(q.s3, b)) & is_node(terms, c.s1, Node::App(p.s1, q.s1)) {
        is_substituted(terms, 0, Subst::Row(q.s1), b, c.s3)
    } else {
        false
    }
}

// WT-UNIV
pub fn wt_univ(terms: &[u8], c: LineJudgment) -> bool
    requires { RowsInTable terms.now (rule_subjects 7 [] c) }
    ensures { (p : LineJudgment) → DecidesInEvery result terms.now 7 (p ∷ []) c }
{
    is_next_universe(terms, c.s1, c.s3)
}

// WT-SIG
pub fn wt_sig(tables: Tables, c: LineJudgment, p: LineJudgment, q: LineJudgment) -> bool
    requires { RuleInTables tables.terms.now tables.contexts.now 8 (p ∷ q ∷ []) c }
    ensures { Decides result (FollowsPlaced tables.entry.terms.now tables.entry.contexts.now 8 (p ∷ q ∷ []) c) }
{
    types_family(tables, c, p, q) & is_node(tables.terms, c.s1, Node::Sigma(p.s1, q.s1))
}

// WT-PAIR
pub fn wt_pair(
    terms: &[u8],
    c: LineJudgment,
    p: LineJudgment,
    q: LineJudgment,
    r: LineJudgment,
) -> bool
    requires { RowsInTable terms.now (rule_subjects 9 (p ∷ q ∷ r ∷ []) c) }
    ensures { DecidesInEvery result terms.now 9 (p ∷ q ∷ r ∷ []) c }
{
    let b = child(terms, c.s3, 2);
    if is_node(terms, c.s1, Node::Pair(p.s1, q.s1))
        & is_node(terms, c.s3, Node::Sigma(p.s3, b))
        & same_term(terms, r.s1, c.s3)
        & is_universe(terms, r.s3)
    {
        is_substituted(terms, 0, Subst::Row(p.s1), b, q.s3)
    } else {
        false
    }
}

// WT-PROJ1
pub fn wt_proj1(terms: &[u8], c: LineJudgment, p: LineJudgment) -> bool
    requires { RowsInTable terms.now (rule_subjects 10 (p ∷ []) c) }
    ensures { DecidesInEvery result terms.now 10 (p ∷ []) c }
{
    let b = child(terms, p.s3, 2);
    is_node(terms, c.s1, Node::First(p.s1)) & is_node(terms, p.s3, Node::Sigma(c.s3, b))
}

// WT-PROJ2
pub fn wt_proj2(terms: &[u8], c: LineJudgment, p: LineJudgment) -> bool
    requires { RowsInTable terms.now (rule_subjects 11 (p ∷ []) c) }
    ensures { DecidesInEvery result terms.now 11 (p ∷ []) c }
{
    let a = child(terms, p.s3, 1);
    let b = child(terms, p.s3, 2);
    if is_node(terms, c.s1, Node::Second(p.s1)) & is_node(terms, p.s3, Node::Sigma(a, b)) {
        is_substituted(terms, 0, Subst::First(p.s1), b, c.s3)
    } else {
        false
    }
}

// WT-NAT
pub fn wt_nat(terms: &[u8], c: LineJudgment) -> bool
    requires { RowsInTable terms.now (rule_subjects 12 [] c) }
    ensures { (p : LineJudgment) → DecidesInEvery result terms.now 12 (p ∷ []) c }
{
    is_node(terms, c.s1, Node::Nat) & is_universe(terms, c.s3)
}

// WT-ZERO
pub fn wt_zero(terms: &[u8], c: LineJudgment) -> bool
    requires { RowsInTable terms.now (rule_subjects 13 [] c) }
    ensures { (p : LineJudgment) → DecidesInEvery result terms.now 13 (p ∷ []) c }
{
    is_node(terms, c.s1, Node::Zero) & is_node(terms, c.s3, Node::Nat)
}

// WT-SUCC
pub fn wt_succ(terms: &[u8], c: LineJudgment, p: LineJudgment) -> bool
    requires { RowsInTable terms.now (rule_subjects 14 (p ∷ []) c) }
    ensures { DecidesInEvery result terms.now 14 (p ∷ []) c }
{
    is_node(terms, c.s1, Node::Succ(p.s1))
        & is_node(terms, p.s3, Node::Nat)
        & is_node(terms, c.s3, Node::Nat)
}

// Have the cases of an induction with the motive of row `m` the types of rows `zero` and `suc`?
pub fn are_cases(terms: &[u8], m: usize, zero: usize, suc: usize) -> bool
    requires { RowsInTable terms.now (m ∷ zero ∷ suc ∷ []) }
    ensures { Decides result ((term terms.now zero ≡ term terms.now m ⟨ zer ⟩) × (term terms.now suc ≡ on_succ (term terms.now m))) }
{
    is_substituted(terms, 0, Subst::Zero, m, zero)
        & is_substituted(terms, 0, Subst::OuterSucc, m, suc)
}

// WT-IND
pub fn wt_ind(tables: Tables, c: LineJudgment, ps: &Premises) -> bool
    requires { RuleInTables tables.terms.now tables.contexts.now 15 (in_order ps.now) c }
    ensures { Decides result (FollowsPlaced tables.entry.terms.now tables.entry.contexts.now 15 (in_order ps.now) c) }
{
    let Premises { p, q, r, s } = ps;
    if tables.extends_nat(p.context, c.context)
        & tables.extends_nat_then(s.context, c.context, p.s1)
        & is_universe(tables.terms, p.s3)
        & is_node(tables.terms, q.s3, Node::Nat)
        & is_node(tables.terms, c.s1, Node::Ind(p.s1, q.s1, r.s1, s.s1))
    {
        are_cases(tables.terms, p.s1, r.s3, s.s3)
            & is_substituted(tables.terms, 0, Subst::Row(q.s1), p.s1, c.s3)
    } else {
        false
    }
}

// WT-CONV
pub fn wt_conv(terms: &[u8], c: LineJudgment, p: LineJudgment, q: LineJudgment) -> bool
    requires { RowsInTable terms.now (rule_subjects 16 (p ∷ q ∷ []) c) }
    ensures { DecidesInEvery result terms.now 16 (p ∷ q ∷ []) c }
{
    same_term(terms, c.s1, p.s1) & same_term(terms, q.s1, p.s3) & same_term(terms, c.s3, q.s2)
}
