// What stands at the head of a row's term, and tests on it. The rows named here stand in one well-formed table: each
// contract asks that (`RowsInTable`), since a type could say that the table is well formed, not which rows are named.
ghost use Rattle.std.specs.Prelude.{◌≡◌, [], ◌∷◌, ◌≤◌, ◌<◌};
ghost use Rattle.terms.specs.Decides.{Decides};
ghost use Rattle.terms.specs.Rows.{term};
ghost use Rattle.terms.specs.Tag.{child as child_of, number_in, tag_in, tag_meant};
ghost use Rattle.terms.specs.Table.{RowsInTable};
ghost use Rattle.terms.specs.Nodes.{node_row, node_children, node_term, SameHead};

use crate::rows::{Row, holds, word};
use crate::tags::Tag;

// A term by its head: the numbers are rows, but for an index and a level. The term itself need have no row.
#[derive(Clone, Copy)]
pub enum Node {
    Var(usize),
    Univ(usize),
    Pi(usize, usize),
    Lam(usize),
    App(usize, usize),
    Sigma(usize, usize),
    Pair(usize, usize),
    First(usize),
    Second(usize),
    Nat,
    Zero,
    Succ(usize),
    Ind(usize, usize, usize, usize),
}

fn words(tag: usize, a: usize, b: usize, c: usize, d: usize) -> Row
    ensures { result ≡ record { tag = tag; a = a; b = b; c = c; d = d } }
{
    Row { tag, a, b, c, d }
}

// The row that would spell the node.
impl From<Node> for Row {
    ghost from_gives = { λ node row. row ≡ node_row node };

    fn from(node: Node) -> Row {
        match node {
            Node::Var(i) => words(1, i, 0, 0, 0),
            Node::Univ(l) => words(2, l, 0, 0, 0),
            Node::Pi(a, b) => words(3, a, b, 0, 0),
            Node::Lam(b) => words(4, b, 0, 0, 0),
            Node::App(b, a) => words(5, b, a, 0, 0),
            Node::Sigma(a, b) => words(6, a, b, 0, 0),
            Node::Pair(a, b) => words(7, a, b, 0, 0),
            Node::First(a) => words(8, a, 0, 0, 0),
            Node::Second(a) => words(9, a, 0, 0, 0),
            Node::Nat => words(10, 0, 0, 0, 0),
            Node::Zero => words(11, 0, 0, 0, 0),
            Node::Succ(a) => words(12, a, 0, 0, 0),
            Node::Ind(p, a, b, c) => words(13, p, a, b, c),
        }
    }
}

// Does row `n` spell the node?
pub fn is_node(rows: &[u8], n: usize, node: Node) -> bool
    requires { RowsInTable rows.now (n ∷ node_children node) }
    ensures { Decides result (term rows.now n ≡ node_term rows.now node) }
{
    holds(rows, n, Row::from(node))
}

// Do rows `t` and `u` spell equal terms?
pub fn same_term(rows: &[u8], t: usize, u: usize) -> bool
    requires { RowsInTable rows.now (t ∷ u ∷ []) }
    ensures { Decides result (term rows.now t ≡ term rows.now u) }
{
    t == u
}

// The tag of row `n`.
pub(crate) fn tag_at(rows: &[u8], n: usize) -> Tag
    requires { RowsInTable rows.now (n ∷ []) }
    ensures { tag_meant result ≡ tag_in (term rows.now n) }
{
    Tag::of_word(word(rows, n, 0))
}

// The row of the child at place `j`, or `n` itself where its term has no such child, as its clause `value` has it.
pub fn child(rows: &[u8], n: usize, j: usize) -> usize
    requires { RowsInTable rows.now (n ∷ []) × (1 ≤ j) × (j ≤ 4) }
    ensures value { term rows.now result ≡ child_of (term rows.now n) j }
    ensures below { result ≤ n }
{
    if j <= tag_at(rows, n).arity() {
        return word(rows, n, j);
    }
    n
}

// The index of a variable or the level of a universe, and 0 for any other term, as its clause `value` has it.
pub fn number(rows: &[u8], n: usize) -> usize
    requires { RowsInTable rows.now (n ∷ []) }
    ensures value { result ≡ number_in (term rows.now n) }
    ensures range { result < 65536 }
{
    match tag_at(rows, n) {
        Tag::Var | Tag::Univ => word(rows, n, 1),
        _ => 0,
    }
}

// Have rows `t` and `u` the same tag and the same number?
pub fn same_head(rows: &[u8], t: usize, u: usize) -> bool
    requires { RowsInTable rows.now (t ∷ u ∷ []) }
    ensures { Decides result (SameHead (term rows.now t) (term rows.now u)) }
{
    (word(rows, t, 0) == word(rows, u, 0)) & (number(rows, t) == number(rows, u))
}
