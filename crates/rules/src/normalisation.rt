// Rules 44 to 67: strong normal forms, strong neutral forms and strong head steps. They hold in the empty context
// alone, so that no check looks at a context, and most ask no more than how terms are made of others.
#![tactic(auto, using(terms::proofs::Tests::other_rows, crate::proofs::ArmLaws::arm_rows), unfolding(crate::specs::RuleChecks::rule_subjects, crate::specs::Stated::used_premises, crate::specs::RuleTable::premise_count))]

ghost use Rattle.std.specs.Prelude.{◌≡◌, [], ◌∷◌, ◌≤◌};
ghost use Rattle.terms.specs.Decides.{Decides};
ghost use Rattle.terms.specs.Rows.{term};
ghost use Rattle.terms.specs.Nodes.{node_children, node_term};
ghost use Rattle.terms.specs.Table.{RowsInTable};
ghost use Rattle.rules.specs.RuleChecks.{in_order, SubjectsInTable, DecidesInEmpty};

use crate::judgments::{LineJudgment, Premises};
use crate::universes::is_universe;
use terms::images::{Subst, is_substituted};
use terms::nodes::{Node, child, is_node, number, same_term};

// Do rows `t` and `u` spell these two nodes?
fn are_nodes(terms: &[u8], t: usize, node: Node, u: usize, other: Node) -> bool
    requires rows_in_table { RowsInTable terms.now (t ∷ node_children node) }
    requires rows_in_table_2 { RowsInTable terms.now (u ∷ node_children other) }
    ensures { Decides result ((term terms.now t ≡ node_term terms.now node) × (term terms.now u ≡ node_term terms.now other)) }
{
    is_node(terms, t, node) & is_node(terms, u, other)
}

// Rules 44 to 53, which conclude form 4.
pub fn normal_instance(terms: &[u8], rule: usize, c: LineJudgment, ps: &Premises) -> bool
    requires subjects_in_table { SubjectsInTable terms.now rule (in_order ps.now) c }
    requires le_rule { (44 ≤ rule) × (rule ≤ 53) }
    ensures { DecidesInEmpty result terms.now rule (in_order ps.now) c }
{
    let Premises { p, q, .. } = ps;
    match rule {
        // N-ABS
        44 => is_node(terms, c.s1, Node::Lam(p.s1)),
        // N-PAIR
        45 => is_node(terms, c.s1, Node::Pair(p.s1, q.s1)),
        // N-PI
        46 => is_node(terms, c.s1, Node::Pi(p.s1, q.s1)),
        // N-SIG
        47 => is_node(terms, c.s1, Node::Sigma(p.s1, q.s1)),
        // N-SUCC
        48 => is_node(terms, c.s1, Node::Succ(p.s1)),
        // N-UNIV
        49 => is_universe(terms, c.s1),
        // N-SNE
        50 => same_term(terms, c.s1, p.s1),
        // N-ZERO
        51 => is_node(terms, c.s1, Node::Zero),
        // N-NAT
        52 => is_node(terms, c.s1, Node::Nat),
        // N-EXP
        53 => same_term(terms, c.s1, p.s1) & same_term(terms, q.s1, p.s2),
        _ => false,
    }
}

// Rules 54 to 58, which conclude form 5.
pub fn neutral_instance(terms: &[u8], rule: usize, c: LineJudgment, ps: &Premises) -> bool
    requires subjects_in_table { SubjectsInTable terms.now rule (in_order ps.now) c }
    requires le_rule { (54 ≤ rule) × (rule ≤ 58) }
    ensures { DecidesInEmpty result terms.now rule (in_order ps.now) c }
{
    let Premises { p, q, r, s } = ps;
    match rule {
        // N-VAR
        54 => is_node(terms, c.s1, Node::Var(number(terms, c.s1))),
        // N-APP
        55 => is_node(terms, c.s1, Node::App(p.s1, q.s1)),
        // N-PROJ1
        56 => is_node(terms, c.s1, Node::First(p.s1)),
        // N-PROJ2
        57 => is_node(terms, c.s1, Node::Second(p.s1)),
        // N-IND
        58 => is_node(terms, c.s1, Node::Ind(p.s1, q.s1, r.s1, s.s1)),
        _ => false,
    }
}

// N-APPABS
fn n_appabs(terms: &[u8], c: LineJudgment, p: LineJudgment) -> bool
    requires { SubjectsInTable terms.now 59 (p ∷ []) c }
    ensures { DecidesInEmpty result terms.now 59 (p ∷ []) c }
{
    let f = child(terms, c.s1, 1);
    let a = child(terms, f, 1);
    if are_nodes(terms, c.s1, Node::App(f, p.s1), f, Node::Lam(a)) {
        is_substituted(terms, 0, Subst::Row(p.s1), a, c.s2)
    } else {
        false
    }
}

// N-INDZERO
fn n_indzero(
    terms: &[u8],
    c: LineJudgment,
    p: LineJudgment,
    q: LineJudgment,
    r: LineJudgment,
) -> bool
    requires { SubjectsInTable terms.now 65 (p ∷ q ∷ r ∷ []) c }
    ensures { DecidesInEmpty result terms.now 65 (p ∷ q ∷ r ∷ []) c }
{
    let z = child(terms, c.s1, 2);
    are_nodes(terms, c.s1, Node::Ind(p.s1, z, q.s1, r.s1), z, Node::Zero)
        & same_term(terms, c.s2, q.s1)
}

// N-INDSUC
fn n_indsuc(terms: &[u8], c: LineJudgment, ps: &Premises) -> bool
    requires { SubjectsInTable terms.now 66 (in_order ps.now) c }
    ensures { DecidesInEmpty result terms.now 66 (in_order ps.now) c }
{
    let Premises { p, q, r, s } = ps;
    let z = child(terms, c.s1, 2);
    if are_nodes(
        terms,
        c.s1,
        Node::Ind(p.s1, z, r.s1, s.s1),
        z,
        Node::Succ(q.s1),
    ) {
        is_substituted(
            terms,
            0,
            Subst::Both {
                p: p.s1,
                a: q.s1,
                b: r.s1,
                c: s.s1,
            },
            s.s1,
            c.s2,
        )
    } else {
        false
    }
}

// Rules 59 to 67, which conclude form 6: 60 is N-APPCONG, 61 and 62 N-PROJPAIR1 and 2, 63 and 64 N-PROJCONG1 and 2, 67
// N-INDCONG.
pub fn step_instance(terms: &[u8], rule: usize, c: LineJudgment, ps: &Premises) -> bool
    requires subjects_in_table { SubjectsInTable terms.now rule (in_order ps.now) c }
    requires le_rule { (59 ≤ rule) × (rule ≤ 67) }
    ensures { DecidesInEmpty result terms.now rule (in_order ps.now) c }
{
    let Premises { p, q, r, s } = ps;
    // what rules 61 and 62 project
    let d = child(terms, c.s1, 1);
    match rule {
        59 => n_appabs(terms, c, *p),
        60 => are_nodes(
            terms,
            c.s1,
            Node::App(q.s1, p.s1),
            c.s2,
            Node::App(q.s2, p.s1),
        ),
        61 => are_nodes(terms, c.s1, Node::First(d), d, Node::Pair(c.s2, p.s1)),
        62 => are_nodes(terms, c.s1, Node::Second(d), d, Node::Pair(p.s1, c.s2)),
        63 => are_nodes(terms, c.s1, Node::First(p.s1), c.s2, Node::First(p.s2)),
        64 => are_nodes(terms, c.s1, Node::Second(p.s1), c.s2, Node::Second(p.s2)),
        65 => n_indzero(terms, c, *p, *q, *r),
        66 => n_indsuc(terms, c, ps),
        67 => are_nodes(
            terms,
            c.s1,
            Node::Ind(p.s1, s.s1, q.s1, r.s1),
            c.s2,
            Node::Ind(p.s1, s.s2, q.s1, r.s1),
        ),
        _ => false,
    }
}
