// Is a row's term normal? The recognisers of normal and of neutral terms call each other down the rows. They remember
// the rows whose terms they found normal, since rows share subterms: a row is gone through at most once. What is
// remembered lies in fixed memory: no heap.
ghost use Rattle.std.specs.Prelude.{[], ◌∷◌};
ghost use Rattle.terms.specs.Decides.{Decides};
ghost use Rattle.terms.specs.Rows.{term};
ghost use Rattle.terms.specs.Table.{RowsInTable};
ghost use Rattle.terms.specs.NormalForms.{Normal, Neutral};
ghost use Rattle.terms.specs.Recognition.{Known};

use crate::nodes::tag_at;
use crate::rows::word;

// Is the term of row `t` normal? A term that could be neutral must be, any other has normal children.
#[cycle(walk_neutral_walk_normal)]
fn walk_normal(rows: &[u8], t: usize, known: &mut [bool; 3072]) -> bool
    requires { RowsInTable rows.now (t ∷ []) × Known rows.now known.old }
    ensures answer { Decides result (Normal (term rows.now t)) }
    ensures memory { Known rows.now known.new }
{
    let tag = tag_at(rows, t);
    if tag.heads_neutral() {
        return walk_neutral(rows, t, known);
    }
    if known[t] {
        return true;
    }
    // `..=` would compare twice a round, here and below.
    for j in 1..tag.arity() + 1 {
        if !walk_normal(rows, word(rows, t, j), known) {
            return false;
        }
    }
    known[t] = true;
    true
}

// Is the term of row `t` neutral? The child that is scrutinised must be neutral, and the others normal.
#[cycle(walk_neutral_walk_normal)]
fn walk_neutral(rows: &[u8], t: usize, known: &mut [bool; 3072]) -> bool
    requires { RowsInTable rows.now (t ∷ []) × Known rows.now known.old }
    ensures answer { Decides result (Neutral (term rows.now t)) }
    ensures memory { Known rows.now known.new }
{
    let tag = tag_at(rows, t);
    if !tag.heads_neutral() {
        return false;
    }
    if known[t] {
        return true;
    }
    let place = tag.scrutinised();
    for j in 1..tag.arity() + 1 {
        let child = word(rows, t, j);
        if j == place {
            if !walk_neutral(rows, child, known) {
                return false;
            }
        } else if !walk_normal(rows, child, known) {
            return false;
        }
    }
    known[t] = true;
    true
}

// Is the term of row `t` normal? Nothing is remembered at first.
pub fn is_normal(rows: &[u8], t: usize) -> bool
    requires { RowsInTable rows.now (t ∷ []) }
    ensures { Decides result (Normal (term rows.now t)) }
{
    let mut known = [false; 3072];
    walk_normal(rows, t, &mut known)
}
