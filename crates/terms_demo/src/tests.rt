// The tests, on the rows of `tables::TABLE` unless another table is named; each writes its answers. What a row spells
// stands in `tables`.
ghost use Rattle.std.specs.Prelude.{◌≡◌, [], ◌∷◌, ◌*◌, ◌≤◌};
ghost use Rattle.terms.specs.Decides.{Decides};
ghost use Rattle.terms.specs.Images.{substitution};
ghost use Rattle.terms.specs.Rows.{term};
ghost use Rattle.terms.specs.Substitution.{substitute};
ghost use Rattle.terms.specs.Table.{RowsInTable};

use crate::tables::SoundTable;
use crate::writing::{write_answers, write_numbers};
use std::io;
use terms::images::{Subst, is_shifted, is_substituted};
use terms::nodes::{Node, child, is_node, number, same_term};
use terms::normal::is_normal;

// Each constructor, with a row that spells it: all yes.
pub fn nodes(rt: &impl Print, table: SoundTable<43>) -> io::Result<()> {
    let answers = [
        is_node(table.rows, 4, Node::Var(2)),
        is_node(table.rows, 1, Node::Univ(3)),
        is_node(table.rows, 13, Node::Pi(3, 2)),
        is_node(table.rows, 9, Node::Lam(3)),
        is_node(table.rows, 25, Node::App(24, 5)),
        is_node(table.rows, 19, Node::Sigma(0, 18)),
        is_node(table.rows, 22, Node::Pair(7, 2)),
        is_node(table.rows, 18, Node::First(3)),
        is_node(table.rows, 23, Node::Second(22)),
        is_node(table.rows, 0, Node::Nat),
        is_node(table.rows, 7, Node::Zero),
        is_node(table.rows, 20, Node::Succ(4)),
        is_node(table.rows, 29, Node::Ind(4, 3, 4, 28)),
    ];
    write_answers(rt, b"node", &answers)
}

// Each constructor, with a row that spells another head or other children: all no.
pub fn other_nodes(rt: &impl Print, table: SoundTable<43>) -> io::Result<()> {
    let answers = [
        // another index
        is_node(table.rows, 2, Node::Var(1)),
        // a variable is no universe
        is_node(table.rows, 2, Node::Univ(0)),
        // the children exchanged
        is_node(table.rows, 13, Node::Pi(2, 3)),
        // another child
        is_node(table.rows, 9, Node::Lam(2)),
        // the children exchanged
        is_node(table.rows, 24, Node::App(4, 3)),
        // a Pi with these children
        is_node(table.rows, 12, Node::Sigma(2, 2)),
        // the children exchanged
        is_node(table.rows, 22, Node::Pair(2, 7)),
        // a second of this child
        is_node(table.rows, 23, Node::First(22)),
        // a first of this child
        is_node(table.rows, 18, Node::Second(3)),
        // zero, not Nat, and Nat, not zero
        is_node(table.rows, 7, Node::Nat),
        is_node(table.rows, 0, Node::Zero),
        // another child
        is_node(table.rows, 20, Node::Succ(3)),
        // another third child
        is_node(table.rows, 29, Node::Ind(4, 3, 3, 28)),
    ];
    write_answers(rt, b"other node", &answers)
}

// The rows of children; a term with no child at a place stands for itself.
pub fn children(rt: &impl Print, table: SoundTable<43>) -> io::Result<()> {
    let values = [
        // the four children of ind: 4, 3, 4, 28
        child(table.rows, 29, 1),
        child(table.rows, 29, 2),
        child(table.rows, 29, 3),
        child(table.rows, 29, 4),
        // Pi's second child is 2, and it has no third: 13
        child(table.rows, 13, 2),
        child(table.rows, 13, 3),
        // a variable's index is no child: 6
        child(table.rows, 6, 1),
        // Nat has no child: 0
        child(table.rows, 0, 1),
    ];
    write_numbers(rt, b"child", &values)
}

// Indices and levels: 4 and 3; Nat and ind have none: 0, 0.
pub fn numbers(rt: &impl Print, table: SoundTable<43>) -> io::Result<()> {
    let values = [
        number(table.rows, 6),
        number(table.rows, 1),
        number(table.rows, 0),
        number(table.rows, 29),
    ];
    write_numbers(rt, b"number", &values)
}

// Equal terms have one row: yes, and no for any two rows.
pub fn equal_terms(rt: &impl Print, table: SoundTable<43>) -> io::Result<()> {
    let answers = [
        same_term(table.rows, 9, 9),
        same_term(table.rows, 9, 10),
        same_term(table.rows, 29, 36),
    ];
    write_answers(rt, b"same", &answers)
}

// Normal terms.
pub fn normal_terms(rt: &impl Print, table: SoundTable<43>) -> io::Result<()> {
    let answers = [
        // a universe, a variable, zero, Pi(v0, v0), pair(zero, v0): yes
        is_normal(table.rows, 1),
        is_normal(table.rows, 2),
        is_normal(table.rows, 7),
        is_normal(table.rows, 12),
        is_normal(table.rows, 22),
        // second(pair(zero, v0)) steps: no
        is_normal(table.rows, 23),
        // first(v1), application(v1, v2), lambda over applications of v1: yes
        is_normal(table.rows, 18),
        is_normal(table.rows, 24),
        is_normal(table.rows, 26),
        // ind whose number is v1, and lambda over applications of it: yes
        is_normal(table.rows, 29),
        is_normal(table.rows, 32),
    ];
    write_answers(rt, b"normal", &answers)
}

// Raised terms.
pub fn shifts(rt: &impl Print, table: SoundTable<43>) -> io::Result<()> {
    let answers = [
        // v0 raised by 2 is v2: yes; v1: no
        is_shifted(table.rows, 0, 2, 2, 4),
        is_shifted(table.rows, 0, 2, 2, 3),
        // under one binder v0 is bound and stays: yes; v1 becomes v2: yes
        is_shifted(table.rows, 1, 1, 2, 2),
        is_shifted(table.rows, 1, 1, 3, 4),
        // lambda(v0) stays: yes, no
        is_shifted(table.rows, 0, 1, 8, 8),
        is_shifted(table.rows, 0, 1, 8, 9),
        // lambda(v1) becomes lambda(v2): yes, no
        is_shifted(table.rows, 0, 1, 9, 10),
        is_shifted(table.rows, 0, 1, 9, 9),
    ];
    write_answers(rt, b"shift", &answers)
}

// Raised terms with several children.
pub fn deep_shifts(rt: &impl Print, table: SoundTable<43>) -> io::Result<()> {
    let answers = [
        // Pi(v0, v0) becomes Pi(v1, v0): yes, no
        is_shifted(table.rows, 0, 1, 12, 13),
        is_shifted(table.rows, 0, 1, 12, 12),
        // by 0 a term stays: yes
        is_shifted(table.rows, 0, 0, 29, 29),
        // 26 raised under its two binders is 28: yes; under none its x and y are raised too: no
        is_shifted(table.rows, 2, 1, 26, 28),
        is_shifted(table.rows, 0, 1, 26, 28),
        // ind(v2, v1, v1, 28) has no free index from 2 on, since c binds two more: yes; it has v1: no
        is_shifted(table.rows, 2, 1, 36, 36),
        is_shifted(table.rows, 1, 1, 36, 36),
        // a level is no index: U_3 stays: yes, no
        is_shifted(table.rows, 0, 1, 1, 1),
        is_shifted(table.rows, 0, 1, 1, 42),
    ];
    write_answers(rt, b"deep shift", &answers)
}

// A row put for index 0.
pub fn substituted_rows(rt: &impl Print, table: SoundTable<43>) -> io::Result<()> {
    let answers = [
        // v0[Nat] is Nat: yes
        is_substituted(table.rows, 0, Subst::Row(0), 2, 0),
        // v1[Nat] is v0, lowered: yes; v1: no
        is_substituted(table.rows, 0, Subst::Row(0), 3, 2),
        is_substituted(table.rows, 0, Subst::Row(0), 3, 3),
        // lambda(v0)[Nat] stays: yes
        is_substituted(table.rows, 0, Subst::Row(0), 8, 8),
        // under one binder: v0 stays: yes; v1 becomes lambda(v1) raised, lambda(v2): yes, no
        is_substituted(table.rows, 1, Subst::Row(9), 2, 2),
        is_substituted(table.rows, 1, Subst::Row(9), 3, 10),
        is_substituted(table.rows, 1, Subst::Row(9), 3, 9),
    ];
    write_answers(rt, b"row put", &answers)
}

// A row put for index 0 under the binder of a Sigma.
pub fn substituted_rows_under(rt: &impl Print, table: SoundTable<43>) -> io::Result<()> {
    let answers = [
        // Sigma(Nat, v1)[v0] is Sigma(Nat, v1), as v0 is raised: yes; Sigma(Nat, v0): no
        is_substituted(table.rows, 0, Subst::Row(2), 14, 14),
        is_substituted(table.rows, 0, Subst::Row(2), 14, 15),
        // Sigma(Nat, v1)[v1] is Sigma(Nat, v2): yes
        is_substituted(table.rows, 0, Subst::Row(3), 14, 16),
        // Sigma(Nat, v2)[v0] is Sigma(Nat, v1), lowered: yes, no
        is_substituted(table.rows, 0, Subst::Row(2), 16, 14),
        is_substituted(table.rows, 0, Subst::Row(2), 16, 16),
        // Sigma(Nat, v0)[v1] stays, as v0 is bound there: yes, no
        is_substituted(table.rows, 0, Subst::Row(3), 15, 15),
        is_substituted(table.rows, 0, Subst::Row(3), 15, 16),
    ];
    write_answers(rt, b"row put under a binder", &answers)
}

// zero, and first of a row, put for index 0.
pub fn substituted_described(rt: &impl Print, table: SoundTable<43>) -> io::Result<()> {
    let answers = [
        // v0[zero] is zero: yes
        is_substituted(table.rows, 0, Subst::Zero, 2, 7),
        // Sigma(Nat, v1)[zero] is Sigma(Nat, zero): yes
        is_substituted(table.rows, 0, Subst::Zero, 14, 17),
        // Sigma(Nat, v0)[zero] stays: yes, no
        is_substituted(table.rows, 0, Subst::Zero, 15, 15),
        is_substituted(table.rows, 0, Subst::Zero, 15, 17),
        // v0[first(v1)] is first(v1): yes; v0[first(v0)] is not: no
        is_substituted(table.rows, 0, Subst::First(3), 2, 18),
        is_substituted(table.rows, 0, Subst::First(2), 2, 18),
        // Sigma(Nat, v1)[first(v0)] is Sigma(Nat, first(v1)), and first(v0) has no row: yes
        is_substituted(table.rows, 0, Subst::First(2), 14, 19),
        // Sigma(Nat, v1)[first(v1)] is Sigma(Nat, first(v2)): no
        is_substituted(table.rows, 0, Subst::First(3), 14, 19),
    ];
    write_answers(rt, b"zero or first put", &answers)
}

// succ of the outer variable for index 0, the others raised by 1.
pub fn substituted_outer_succ(rt: &impl Print, table: SoundTable<43>) -> io::Result<()> {
    let answers = [
        // v0 becomes succ(v1), which has no row; 20 is succ(v2): no
        is_substituted(table.rows, 0, Subst::OuterSucc, 2, 20),
        // Sigma(Nat, v1) becomes Sigma(Nat, succ(v2)), raised under the binder: yes
        is_substituted(table.rows, 0, Subst::OuterSucc, 14, 21),
        // v1 becomes v2: yes, no
        is_substituted(table.rows, 0, Subst::OuterSucc, 3, 4),
        is_substituted(table.rows, 0, Subst::OuterSucc, 3, 3),
        // lambda(v2) becomes lambda(v3): yes
        is_substituted(table.rows, 0, Subst::OuterSucc, 10, 11),
        // lambda(v0) stays: yes, no
        is_substituted(table.rows, 0, Subst::OuterSucc, 8, 8),
        is_substituted(table.rows, 0, Subst::OuterSucc, 8, 9),
    ];
    write_answers(rt, b"succ put", &answers)
}

// Does row `u` spell row `t` with ind(p, a, b, c) for index 0, a for index 1, and the others lowered by 2?
fn is_both(rows: &[u8], p: usize, a: usize, b: usize, c: usize, t: usize, u: usize) -> bool
    requires { RowsInTable rows.now (t ∷ u ∷ p ∷ a ∷ b ∷ c ∷ []) × (2 * t ≤ 65536) }
    ensures { Decides result (term rows.now u ≡ substitute 0 (substitution rows.now (Subst.Both p a b c)) (term rows.now t)) }
{
    is_substituted(rows, 0, Subst::Both { p, a, b, c }, t, u)
}

// E-INDSUC: ind(P, a, b, c) for y and a for x, together.
pub fn substituted_both(rt: &impl Print, table: SoundTable<43>) -> io::Result<()> {
    let answers = [
        // in 26, with y and x under a lambda, ind(v1, v0, v1, 26) and v0 give 32: yes; that ind has no row
        is_both(table.rows, 3, 2, 3, 26, 26, 32),
        // x and y exchanged: no
        is_both(table.rows, 3, 2, 3, 26, 26, 35),
        // first y, and then x in what came out: no
        is_both(table.rows, 3, 2, 3, 26, 26, 39),
        // y alone: ind(v2, v1, v2, 28), which is 29: yes; 36 differs in b: no
        is_both(table.rows, 4, 3, 4, 28, 2, 29),
        is_both(table.rows, 4, 3, 4, 28, 2, 36),
        // x alone: zero: yes
        is_both(table.rows, 4, 7, 4, 28, 3, 7),
        // v3 becomes v1, lowered by 2: yes, no
        is_both(table.rows, 4, 7, 4, 28, 5, 3),
        is_both(table.rows, 4, 7, 4, 28, 5, 4),
        // in lambda(v1) ind(Pi(v0, v0), v0, v0, 26) gives 41, as P's own variable stays: yes; with Pi(v1, v0) for P: no
        is_both(table.rows, 12, 2, 2, 26, 9, 41),
        is_both(table.rows, 13, 2, 2, 26, 9, 41),
    ];
    write_answers(rt, b"both put", &answers)
}

// `tables::BARE` has no zero, first, succ or ind: where index 0 occurs, no row spells the result.
pub fn substituted_without_rows(rt: &impl Print, table: SoundTable<6>) -> io::Result<()> {
    let answers = [
        // zero: Nat and lambda(v0) stay: yes, yes; v0 does not: no
        is_substituted(table.rows, 0, Subst::Zero, 0, 0),
        is_substituted(table.rows, 0, Subst::Zero, 4, 4),
        is_substituted(table.rows, 0, Subst::Zero, 1, 1),
        // first(v0): v1 becomes v0: yes; v0 becomes first(v0): no; Pi(Nat, v2) becomes Pi(Nat, v1): no
        is_substituted(table.rows, 0, Subst::First(1), 2, 1),
        is_substituted(table.rows, 0, Subst::First(1), 1, 1),
        is_substituted(table.rows, 0, Subst::First(1), 5, 5),
        // succ of the outer variable: v1 becomes v2: yes; v0 becomes succ(v1): no
        is_substituted(table.rows, 0, Subst::OuterSucc, 2, 3),
        is_substituted(table.rows, 0, Subst::OuterSucc, 1, 1),
        // ind(Nat, v0, Nat, v1) and v0: v2 becomes v0: yes; x becomes v0: yes; y becomes the ind: no
        is_both(table.rows, 0, 1, 0, 2, 3, 1),
        is_both(table.rows, 0, 1, 0, 2, 2, 1),
        is_both(table.rows, 0, 1, 0, 2, 1, 1),
    ];
    write_answers(rt, b"put without a row", &answers)
}
