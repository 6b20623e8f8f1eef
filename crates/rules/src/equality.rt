// The own checks of rules 17 to 34, equality. A congruence, as E-PI, is the typing rule of the left sides, and on the
// right side the same node of the right ones. A typing rule that walks through terms is asked last, and only where the
// rows tested before it are right, so that a line that is wrong in one of these costs no walk.
#![tactic(auto, using(terms::proofs::Tests::other_rows, crate::proofs::ContextTableAnswers::rows_known), unfolding(crate::specs::RuleChecks::rule_subjects))]

ghost use Rattle.std.specs.Prelude.{[], ◌∷◌};
ghost use Rattle.terms.specs.Decides.{Decides};
ghost use Rattle.terms.specs.Table.{RowsInTable};
ghost use Rattle.rules.specs.RuleChecks.{in_order, rule_subjects, RuleInTables, FollowsPlaced, DecidesInEvery};

use crate::judgments::{LineJudgment, Premises};
use crate::tables::Tables;
use crate::typing::{
    are_cases, wt_app, wt_conv, wt_ind, wt_pair, wt_pi, wt_proj1, wt_proj2, wt_sig, wt_succ,
};
use terms::images::{Subst, is_shifted, is_substituted};
use terms::nodes::{Node, child, is_node, same_term};

// E-REFL
pub fn e_refl(terms: &[u8], c: LineJudgment, p: LineJudgment) -> bool
    requires { RowsInTable terms.now (rule_subjects 17 (p ∷ []) c) }
    ensures { DecidesInEvery result terms.now 17 (p ∷ []) c }
{
    same_term(terms, c.s1, p.s1) & same_term(terms, c.s2, p.s1) & same_term(terms, c.s3, p.s3)
}

// E-SYM
pub fn e_sym(terms: &[u8], c: LineJudgment, p: LineJudgment) -> bool
    requires { RowsInTable terms.now (rule_subjects 18 (p ∷ []) c) }
    ensures { DecidesInEvery result terms.now 18 (p ∷ []) c }
{
    same_term(terms, c.s1, p.s2) & same_term(terms, c.s2, p.s1) & same_term(terms, c.s3, p.s3)
}

// E-TRANS
pub fn e_trans(terms: &[u8], c: LineJudgment, p: LineJudgment, q: LineJudgment) -> bool
    requires { RowsInTable terms.now (rule_subjects 19 (p ∷ q ∷ []) c) }
    ensures { DecidesInEvery result terms.now 19 (p ∷ q ∷ []) c }
{
    same_term(terms, c.s1, p.s1)
        & same_term(terms, q.s1, p.s2)
        & same_term(terms, c.s2, q.s2)
        & same_term(terms, p.s3, c.s3)
        & same_term(terms, q.s3, c.s3)
}

// E-PI
pub fn e_pi(tables: Tables, c: LineJudgment, p: LineJudgment, q: LineJudgment) -> bool
    requires { RuleInTables tables.terms.now tables.contexts.now 20 (p ∷ q ∷ []) c }
    ensures { Decides result (FollowsPlaced tables.entry.terms.now tables.entry.contexts.now 20 (p ∷ q ∷ []) c) }
{
    wt_pi(tables, c, p, q) & is_node(tables.terms, c.s2, Node::Pi(p.s2, q.s2))
}

// E-ABSEXT
pub fn e_absext(tables: Tables, c: LineJudgment, p: LineJudgment) -> bool
    requires { RuleInTables tables.terms.now tables.contexts.now 21 (p ∷ []) c }
    ensures { Decides result (FollowsPlaced tables.entry.terms.now tables.entry.contexts.now 21 (p ∷ []) c) }
{
    let a = child(tables.terms, c.s3, 1);
    let f = child(tables.terms, p.s1, 1);
    let x = child(tables.terms, p.s1, 2);
    let g = child(tables.terms, p.s2, 1);
    let y = child(tables.terms, p.s2, 2);
    if tables.extends(p.context, c.context, a)
        & is_node(tables.terms, c.s3, Node::Pi(a, p.s3))
        & is_node(tables.terms, p.s1, Node::App(f, x))
        & is_node(tables.terms, x, Node::Var(0))
        & is_node(tables.terms, p.s2, Node::App(g, y))
        & is_node(tables.terms, y, Node::Var(0))
    {
        is_shifted(tables.terms, 0, 1, c.s1, f) & is_shifted(tables.terms, 0, 1, c.s2, g)
    } else {
        false
    }
}

// E-APP
pub fn e_app(terms: &[u8], c: LineJudgment, p: LineJudgment, q: LineJudgment) -> bool
    requires { RowsInTable terms.now (rule_subjects 22 (p ∷ q ∷ []) c) }
    ensures { DecidesInEvery result terms.now 22 (p ∷ q ∷ []) c }
{
    if is_node(terms, c.s2, Node::App(p.s2, q.s2)) {
        wt_app(terms, c, p, q)
    } else {
        false
    }
}

// E-SIG
pub fn e_sig(tables: Tables, c: LineJudgment, p: LineJudgment, q: LineJudgment) -> bool
    requires { RuleInTables tables.terms.now tables.contexts.now 23 (p ∷ q ∷ []) c }
    ensures { Decides result (FollowsPlaced tables.entry.terms.now tables.entry.contexts.now 23 (p ∷ q ∷ []) c) }
{
    wt_sig(tables, c, p, q) & is_node(tables.terms, c.s2, Node::Sigma(p.s2, q.s2))
}

// E-PAIREXT
pub fn e_pairext(terms: &[u8], c: LineJudgment, p: LineJudgment, q: LineJudgment) -> bool
    requires { RowsInTable terms.now (rule_subjects 24 (p ∷ q ∷ []) c) }
    ensures { DecidesInEvery result terms.now 24 (p ∷ q ∷ []) c }
{
    let b = child(terms, c.s3, 2);
    if is_node(terms, p.s1, Node::First(c.s1))
        & is_node(terms, p.s2, Node::First(c.s2))
        & is_node(terms, q.s1, Node::Second(c.s1))
        & is_node(terms, q.s2, Node::Second(c.s2))
        & is_node(terms, c.s3, Node::Sigma(p.s3, b))
    {
        is_substituted(terms, 0, Subst::First(c.s1), b, q.s3)
    } else {
        false
    }
}

// E-PROJ1
pub fn e_proj1(terms: &[u8], c: LineJudgment, p: LineJudgment) -> bool
    requires { RowsInTable terms.now (rule_subjects 25 (p ∷ []) c) }
    ensures { DecidesInEvery result terms.now 25 (p ∷ []) c }
{
    wt_proj1(terms, c, p) & is_node(terms, c.s2, Node::First(p.s2))
}

// E-PROJ2
pub fn e_proj2(terms: &[u8], c: LineJudgment, p: LineJudgment) -> bool
    requires { RowsInTable terms.now (rule_subjects 26 (p ∷ []) c) }
    ensures { DecidesInEvery result terms.now 26 (p ∷ []) c }
{
    if is_node(terms, c.s2, Node::Second(p.s2)) {
        wt_proj2(terms, c, p)
    } else {
        false
    }
}

// E-SUC
pub fn e_suc(terms: &[u8], c: LineJudgment, p: LineJudgment) -> bool
    requires { RowsInTable terms.now (rule_subjects 27 (p ∷ []) c) }
    ensures { DecidesInEvery result terms.now 27 (p ∷ []) c }
{
    wt_succ(terms, c, p) & is_node(terms, c.s2, Node::Succ(p.s2))
}

// E-IND
pub fn e_ind(tables: Tables, c: LineJudgment, ps: &Premises) -> bool
    requires { RuleInTables tables.terms.now tables.contexts.now 28 (in_order ps.now) c }
    ensures { Decides result (FollowsPlaced tables.entry.terms.now tables.entry.contexts.now 28 (in_order ps.now) c) }
{
    if is_node(
        tables.terms,
        c.s2,
        Node::Ind(ps.p.s2, ps.q.s2, ps.r.s2, ps.s.s2),
    ) {
        wt_ind(tables, c, ps)
    } else {
        false
    }
}

// E-CONV
pub fn e_conv(terms: &[u8], c: LineJudgment, p: LineJudgment, q: LineJudgment) -> bool
    requires { RowsInTable terms.now (rule_subjects 29 (p ∷ q ∷ []) c) }
    ensures { DecidesInEvery result terms.now 29 (p ∷ q ∷ []) c }
{
    wt_conv(terms, c, p, q) & same_term(terms, c.s2, p.s2)
}

// E-APPABS
pub fn e_appabs(tables: Tables, c: LineJudgment, p: LineJudgment, q: LineJudgment) -> bool
    requires { RuleInTables tables.terms.now tables.contexts.now 30 (p ∷ q ∷ []) c }
    ensures { Decides result (FollowsPlaced tables.entry.terms.now tables.entry.contexts.now 30 (p ∷ q ∷ []) c) }
{
    let f = child(tables.terms, c.s1, 1);
    if tables.extends(q.context, c.context, p.s3)
        & is_node(tables.terms, c.s1, Node::App(f, p.s1))
        & is_node(tables.terms, f, Node::Lam(q.s1))
    {
        is_substituted(tables.terms, 0, Subst::Row(p.s1), q.s1, c.s2)
            & is_substituted(tables.terms, 0, Subst::Row(p.s1), q.s3, c.s3)
    } else {
        false
    }
}

// E-PROJPAIR1: the pair is typed by WT-PAIR, from the same premises.
pub fn e_projpair1(
    terms: &[u8],
    c: LineJudgment,
    p: LineJudgment,
    q: LineJudgment,
    r: LineJudgment,
) -> bool
    requires { RowsInTable terms.now (rule_subjects 31 (p ∷ q ∷ r ∷ []) c) }
    ensures { DecidesInEvery result terms.now 31 (p ∷ q ∷ r ∷ []) c }
{
    let d = child(terms, c.s1, 1);
    let pair = LineJudgment {
        s1: d,
        s3: r.s1,
        ..r
    };
    if is_node(terms, c.s1, Node::First(d))
        & same_term(terms, c.s2, p.s1)
        & same_term(terms, c.s3, p.s3)
    {
        wt_pair(terms, pair, p, q, r)
    } else {
        false
    }
}

// E-PROJPAIR2, likewise; one function for both would be told the node and the premise that each concludes with
pub fn e_projpair2(
    terms: &[u8],
    c: LineJudgment,
    p: LineJudgment,
    q: LineJudgment,
    r: LineJudgment,
) -> bool
    requires { RowsInTable terms.now (rule_subjects 32 (p ∷ q ∷ r ∷ []) c) }
    ensures { DecidesInEvery result terms.now 32 (p ∷ q ∷ r ∷ []) c }
{
    let d = child(terms, c.s1, 1);
    let pair = LineJudgment {
        s1: d,
        s3: r.s1,
        ..r
    };
    if is_node(terms, c.s1, Node::Second(d))
        & same_term(terms, c.s2, q.s1)
        & same_term(terms, c.s3, q.s3)
    {
        wt_pair(terms, pair, p, q, r)
    } else {
        false
    }
}

// E-INDZERO
pub fn e_indzero(tables: Tables, c: LineJudgment, p: LineJudgment, q: LineJudgment) -> bool
    requires { RuleInTables tables.terms.now tables.contexts.now 33 (p ∷ q ∷ []) c }
    ensures { Decides result (FollowsPlaced tables.entry.terms.now tables.entry.contexts.now 33 (p ∷ q ∷ []) c) }
{
    let m = child(tables.terms, c.s1, 1);
    let z = child(tables.terms, c.s1, 2);
    if tables.extends_nat_then(q.context, c.context, m)
        & is_node(tables.terms, c.s1, Node::Ind(m, z, p.s1, q.s1))
        & is_node(tables.terms, z, Node::Zero)
        & same_term(tables.terms, c.s2, p.s1)
        & same_term(tables.terms, c.s3, p.s3)
    {
        are_cases(tables.terms, m, p.s3, q.s3)
    } else {
        false
    }
}

// E-INDSUC
pub fn e_indsuc(
    tables: Tables,
    c: LineJudgment,
    p: LineJudgment,
    q: LineJudgment,
    r: LineJudgment,
) -> bool
    requires { RuleInTables tables.terms.now tables.contexts.now 34 (p ∷ q ∷ r ∷ []) c }
    ensures { Decides result (FollowsPlaced tables.entry.terms.now tables.entry.contexts.now 34 (p ∷ q ∷ r ∷ []) c) }
{
    let m = child(tables.terms, c.s1, 1);
    let z = child(tables.terms, c.s1, 2);
    if tables.extends_nat_then(r.context, c.context, m)
        & is_node(tables.terms, c.s1, Node::Ind(m, z, q.s1, r.s1))
        & is_node(tables.terms, z, Node::Succ(p.s1))
        & is_node(tables.terms, p.s3, Node::Nat)
    {
        are_cases(tables.terms, m, q.s3, r.s3)
            & is_substituted(
                tables.terms,
                0,
                Subst::Both {
                    p: m,
                    a: p.s1,
                    b: q.s1,
                    c: r.s1,
                },
                r.s1,
                c.s2,
            )
            & is_substituted(tables.terms, 0, Subst::Row(z), m, c.s3)
    } else {
        false
    }
}
