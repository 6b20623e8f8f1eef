// The shift and the substitutions that rules make, and the tests that a row spells what they make of another.
ghost use Rattle.std.specs.Prelude.{◌≡◌, [], ◌∷◌, ◌+◌, ◌*◌, ◌≤◌, ◌<◌};
ghost use Rattle.terms.specs.Decides.{Decides};
ghost use Rattle.terms.specs.Rows.{term};
ghost use Rattle.terms.specs.Substitution.{shift, substitute};
ghost use Rattle.terms.specs.Table.{RowsInTable};
ghost use Rattle.terms.specs.Operations.{shift_goes, substitute_goes};
ghost use Rattle.terms.specs.Images.{lowered_of, image_of, image_rows, image_term, image_number, subst_rows, substitution};
ghost use Rattle.terms.specs.Term.{var, first, succ, ind};

use crate::memo::Memo;
use crate::nodes::{Node, child, is_node};
use crate::walks::{Operation, walk};

// A substitution that a rule makes: for index 0 a row, zero, or first of a row, the others being lowered by 1; or succ
// of the outer variable, the others being raised by 1; or, for y and x together, ind of four rows and its second, the
// others being lowered by 2. What it brings in need have no row. The four rows of ind are named one by one, as `Node`
// and the specs' `ind` have them.
#[derive(Clone, Copy)]
pub enum Subst {
    Row(usize),
    Zero,
    First(usize),
    OuterSucc,
    Both {
        p: usize,
        a: usize,
        b: usize,
        c: usize,
    },
}

// What takes the place of one index: a variable, a row, zero, first of a row, succ of a variable, or ind of four rows.
#[derive(Clone, Copy)]
pub enum Image {
    Var(usize),
    Row(usize),
    Zero,
    First(usize),
    SuccVar(usize),
    Ind {
        p: usize,
        a: usize,
        b: usize,
        c: usize,
    },
}

// The shift that raises free indices by `by`.
#[derive(Clone, Copy)]
struct Shift {
    by: usize,
    ghost small: { by ≤ 65536 },
}

impl Operation for Shift {
    ghost named = { λ op. [] };

    ghost image = { λ op bytes k t. shift k op.by t };

    // An index below `k` is bound and stays.
    fn is_image(self, rows: &[u8], k: usize, i: usize, u: usize) -> bool {
        let raised = if i < k { i } else { i + self.by };
        is_node(rows, u, Node::Var(raised))
    }

    ghost goes = { λ op bytes. shift_goes op.by };
}

// Does row `u` spell row `t` with its free indices under `k` binders raised by `d`?
pub fn is_shifted(rows: &[u8], k: usize, d: usize, t: usize, u: usize) -> bool
    requires { RowsInTable rows.now (t ∷ u ∷ []) × (k + 2 * t ≤ 65536) × (d ≤ 65536) }
    ensures { Decides result (term rows.now u ≡ shift k d (term rows.now t)) }
{
    let mut memo = Memo::new();
    walk(rows, k, Shift { by: d }, t, u, &mut memo)
}

// What is put for the index `i`.
fn image_of(by: Subst, i: usize) -> Image
    requires { i ≤ 65536 }
    ensures { result ≡ image_of by i }
{
    match by {
        Subst::Row(a) => lowered(Image::Row(a), i),
        Subst::Zero => lowered(Image::Zero, i),
        Subst::First(a) => lowered(Image::First(a), i),
        Subst::OuterSucc => raised(i),
        Subst::Both { p, a, b, c } => lowered_twice(p, a, b, c, i),
    }
}

// The first image for index 0, and the other indices lowered by 1.
fn lowered(nearest: Image, i: usize) -> Image
    ensures { result ≡ lowered_of nearest i }
{
    if i == 0 {
        return nearest;
    }
    Image::Var(i - 1)
}

// succ of the outer variable for index 0, and the other indices raised by 1.
fn raised(i: usize) -> Image
    requires { i ≤ 65536 }
    ensures { result ≡ image_of Subst.OuterSucc i }
{
    if i == 0 {
        return Image::SuccVar(1);
    }
    Image::Var(i + 1)
}

// ind of the four rows for index 0, its second for index 1, and the other indices lowered by 2.
fn lowered_twice(p: usize, a: usize, b: usize, c: usize, i: usize) -> Image
    ensures { result ≡ image_of (Subst.Both p a b c) i }
{
    if i == 0 {
        return Image::Ind { p, a, b, c };
    }
    lowered(Image::Row(a), i - 1)
}

// Does row `u` spell first of row `a` raised by `k`?
fn is_raised_first(rows: &[u8], k: usize, a: usize, u: usize) -> bool
    requires { RowsInTable rows.now (a ∷ u ∷ []) × (k ≤ 65536) }
    ensures { Decides result (term rows.now u ≡ shift 0 k (first (term rows.now a))) }
{
    let v = child(rows, u, 1);
    if is_node(rows, u, Node::First(v)) {
        is_shifted(rows, 0, k, a, v)
    } else {
        false
    }
}

// Does row `u` spell succ of the variable `i` raised by `k`?
fn is_raised_succ(rows: &[u8], k: usize, i: usize, u: usize) -> bool
    requires { RowsInTable rows.now (u ∷ []) × (i ≤ 65540) × (k ≤ 65536) }
    ensures { Decides result (term rows.now u ≡ shift 0 k (succ (var i))) }
{
    let v = child(rows, u, 1);
    is_node(rows, u, Node::Succ(v)) & is_node(rows, v, Node::Var(i + k))
}

// Does row `u` spell ind of the four rows raised by `k`?
fn is_raised_ind(rows: &[u8], k: usize, p: usize, a: usize, b: usize, c: usize, u: usize) -> bool
    requires { RowsInTable rows.now (p ∷ a ∷ b ∷ c ∷ u ∷ []) × (k ≤ 65536) }
    ensures { Decides result (term rows.now u ≡ shift 0 k (ind (term rows.now p) (term rows.now a) (term rows.now b) (term rows.now c))) }
{
    let v = child(rows, u, 1);
    let w = child(rows, u, 2);
    let x = child(rows, u, 3);
    let y = child(rows, u, 4);
    if is_node(rows, u, Node::Ind(v, w, x, y)) {
        is_shifted(rows, 1, k, p, v)
            & is_shifted(rows, 0, k, a, w)
            & is_shifted(rows, 0, k, b, x)
            & is_shifted(rows, 2, k, c, y)
    } else {
        false
    }
}

// Does row `u` spell the image raised by `k`?
fn is_raised_image(rows: &[u8], k: usize, image: Image, u: usize) -> bool
    requires { RowsInTable rows.now (u ∷ image_rows image) × (image_number image ≤ 65540) × (k ≤ 65536) }
    ensures { Decides result (term rows.now u ≡ shift 0 k (image_term rows.now image)) }
{
    match image {
        Image::Var(i) => is_node(rows, u, Node::Var(i + k)),
        Image::Row(a) => is_shifted(rows, 0, k, a, u),
        Image::Zero => is_node(rows, u, Node::Zero),
        Image::First(a) => is_raised_first(rows, k, a, u),
        Image::SuccVar(i) => is_raised_succ(rows, k, i, u),
        Image::Ind { p, a, b, c } => is_raised_ind(rows, k, p, a, b, c, u),
    }
}

impl Operation for Subst {
    ghost named = { subst_rows };

    ghost image = { λ by bytes k t. substitute k (substitution bytes by) t };

    // An index below `k` is bound and stays, for the others a raised image is put.
    fn is_image(self, rows: &[u8], k: usize, i: usize, u: usize) -> bool {
        if i < k {
            return is_node(rows, u, Node::Var(i));
        }
        is_raised_image(rows, k, image_of(self, i - k), u)
    }

    ghost goes = { λ by bytes. substitute_goes (substitution bytes by) };
}

// Does row `u` spell row `t` with what is put for its free indices under `k` binders?
pub fn is_substituted(rows: &[u8], k: usize, by: Subst, t: usize, u: usize) -> bool
    requires { RowsInTable rows.now (t ∷ u ∷ subst_rows by) × (k + 2 * t ≤ 65536) }
    ensures { Decides result (term rows.now u ≡ substitute k (substitution rows.now by) (term rows.now t)) }
{
    let mut memo = Memo::new();
    walk(rows, k, by, t, u, &mut memo)
}
