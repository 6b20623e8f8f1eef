// Tests that one row spells what an operation makes of another. Both terms are walked in step, and the walk ends at the
// first difference: at most 65,535 nodes are visited, at most as deep as there are rows. Some of what held is
// remembered on the way, since rows share subterms.
ghost use Rattle.std.specs.Prelude.{◌≡◌, ◌∷◌, ◌+◌, ◌*◌, ◌≤◌, ◌<◌, List, ℕ};
ghost use Rattle.terms.specs.Decides.{Decides};
ghost use Rattle.terms.specs.Memo.{MemoHolds};
ghost use Rattle.terms.specs.Operations.{GoesUnder};
ghost use Rattle.terms.specs.Rows.{term};
ghost use Rattle.terms.specs.Table.{RowsInTable};
ghost use Rattle.terms.specs.Term.{Term, var};

use crate::memo::Memo;
use crate::nodes::{same_head, tag_at};
use crate::rows::word;
use crate::tags::Tag;

// An operation on terms: it goes under the binders of every term but a variable.
pub trait Operation: Copy {
    // The rows that it names.
    ghost named: { Self → List ℕ };

    // What becomes of a term under so many binders; the bytes are the table's.
    ghost image: { Self → List ℕ → ℕ → Term → Term };

    // Does row `u` spell what becomes of the variable `i` under `k` binders?
    fn is_image(self, rows: &[u8], k: usize, i: usize, u: usize) -> bool
        requires { RowsInTable rows.now (u ∷ named self) × (i < 65536) × (k ≤ 65536) }
        ensures { Decides result (term rows.now u ≡ image self rows.now k (var i)) };

    ghost goes: { (op : Self) (bytes : List ℕ) → GoesUnder (image op bytes) };
}

// Does row `u` spell what becomes of row `t` under `k` binders? It is answered from the memory where it can be.
#[cycle(walk)]
pub fn walk<O: Operation>(rows: &[u8], k: usize, op: O, t: usize, u: usize, memo: &mut Memo) -> bool
    requires { RowsInTable rows.now (t ∷ u ∷ O.named op) × (k + 2 * t ≤ 65536) × MemoHolds rows.now (O.image op rows.now) memo.old }
    ensures answer { Decides result (term rows.now u ≡ O.image op rows.now k (term rows.now t)) }
    ensures memory { MemoHolds rows.now (O.image op rows.now) memo.new }
{
    if memo.is_remembered(k, t, u) {
        return true;
    }
    if walk_here(rows, k, op, t, u, memo) {
        memo.remember(k, t, u);
        return true;
    }
    false
}

// The same, by the heads and the children.
#[cycle(walk)]
fn walk_here<O: Operation>(
    rows: &[u8],
    k: usize,
    op: O,
    t: usize,
    u: usize,
    memo: &mut Memo,
) -> bool
    requires { RowsInTable rows.now (t ∷ u ∷ O.named op) × (k + 2 * t ≤ 65536) × MemoHolds rows.now (O.image op rows.now) memo.old }
    ensures answer { Decides result (term rows.now u ≡ O.image op rows.now k (term rows.now t)) }
    ensures memory { MemoHolds rows.now (O.image op rows.now) memo.new }
{
    let tag = tag_at(rows, t);
    if let Tag::Var = tag {
        return op.is_image(rows, k, word(rows, t, 1), u);
    }
    if !same_head(rows, t, u) {
        return false;
    }
    // `..=` would compare twice a round.
    for j in 1..tag.arity() + 1 {
        if !walk(
            rows,
            k + tag.binders(j),
            op,
            word(rows, t, j),
            word(rows, u, j),
            memo,
        ) {
            return false;
        }
    }
    true
}
