// Rows of the term table: five words each, the tag and four operands.
ghost use Rattle.std.specs.Prelude.{◌≡◌, ◌+◌, ◌*◌, ◌<◌, ◌≤◌, length};
ghost use Rattle.terms.specs.Rows.{word as word_of, row_of, holds_row};

use crate::words::word_at;

// The five words of a row, whether or not a table holds them.
#[derive(Clone, Copy, PartialEq, Eq)]
pub struct Row {
    pub tag: usize,
    pub a: usize,
    pub b: usize,
    pub c: usize,
    pub d: usize,
}

// Word `j` of row `n`.
#[tactic(auto, unfolding(crate::specs::Rows::word))]
pub fn word(rows: &[u8], n: usize, j: usize) -> usize
    requires { (10 * n + 10 ≤ length rows.now) × (j < 5) }
    ensures value { result ≡ word_of rows.now n j }
    ensures range { result < 65536 }
{
    word_at(rows, 5 * n + j)
}

// Row `n`, its words assembled once.
#[tactic(auto, unfolding(crate::specs::Rows::row_of))]
pub fn read_row(rows: &[u8], n: usize) -> Row
    requires { 10 * n + 10 ≤ length rows.now }
    ensures { result ≡ row_of rows.now n }
{
    Row {
        tag: word(rows, n, 0),
        a: word(rows, n, 1),
        b: word(rows, n, 2),
        c: word(rows, n, 3),
        d: word(rows, n, 4),
    }
}

// Does row `n` hold these five words? The first operand, by which most rows differ, is compared before the others are
// read, and the others at once: the derived comparison takes a tenth longer in applications.
#[tactic(auto, unfolding(crate::specs::Rows::holds_row, crate::specs::Rows::row_of))]
pub fn holds(rows: &[u8], n: usize, row: Row) -> bool
    requires { 10 * n + 10 ≤ length rows.now }
    ensures { result ≡ holds_row rows.now n row }
{
    if word(rows, n, 1) != row.a {
        return false;
    }
    (word(rows, n, 0) == row.tag)
        & (word(rows, n, 2) == row.b)
        & (word(rows, n, 3) == row.c)
        & (word(rows, n, 4) == row.d)
}
