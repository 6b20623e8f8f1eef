// The context table: rows of two words, the parent and the type, numbered from 1; context 0 is the empty one.
ghost use Rattle.std.specs.Prelude.{◌≡◌, [], ◌∷◌, ◌*◌, ◌<◌, ◌≤◌, length};
ghost use Rattle.rules.specs.Contexts.{parent_of, type_of, NumberedContexts, holds_context, repeated_within, right_context, check_contexts, ancestor_of, entry_of};

use terms::words::word_at;

// The first faulty row of a table.
#[derive(Clone, Copy, Debug, PartialEq, Eq)]
pub struct ContextsError {
    pub place: usize,
}

// The parent of context `n`.
pub fn parent(contexts: &[u8], n: usize) -> usize
    requires { (1 ≤ n) × (4 * n ≤ length contexts.now) }
    ensures value { result ≡ parent_of contexts.now n }
    ensures range { result < 65536 }
{
    word_at(contexts, 2 * (n - 1))
}

// The row of the type that context `n` adds to its parent.
pub fn type_of(contexts: &[u8], n: usize) -> usize
    requires { (1 ≤ n) × (4 * n ≤ length contexts.now) }
    ensures value { result ≡ type_of contexts.now n }
    ensures range { result < 65536 }
{
    word_at(contexts, 2 * (n - 1) + 1)
}

// Does row `n` hold these two words?
fn holds(contexts: &[u8], n: usize, above: usize, row: usize) -> bool
    requires { (1 ≤ n) × (4 * n ≤ length contexts.now) }
    ensures { result ≡ holds_context contexts.now n above row }
{
    (parent(contexts, n) == above) & (type_of(contexts, n) == row)
}

// Does one of the first `count` rows hold these two words?
fn repeated(contexts: &[u8], above: usize, row: usize, count: usize) -> bool
    requires { 4 * count ≤ length contexts.now }
    ensures { result ≡ repeated_within contexts.now above row count }
{
    for i in 0..count {
        if holds(contexts, i + 1, above, row) {
            return true;
        }
    }
    false
}

// Is row `n` right: an earlier parent, a term that is there, and no repetition?
fn right(contexts: &[u8], term_count: usize, n: usize) -> bool
    requires { (1 ≤ n) × (4 * n ≤ length contexts.now) }
    ensures { result ≡ right_context contexts.now term_count n }
{
    let above = parent(contexts, n);
    let row = type_of(contexts, n);
    if (above < n) & (row < term_count) {
        !repeated(contexts, above, row, n - 1)
    } else {
        false
    }
}

// Checks the first `count` rows in order, over the given number of terms.
pub fn check_contexts(contexts: &[u8], term_count: usize, count: usize) -> Result<(), ContextsError>
    requires { 4 * count ≤ length contexts.now }
    ensures { result ≡ check_contexts contexts.now term_count count }
{
    for n in 1..count + 1 {
        if !right(contexts, term_count, n) {
            return Err(ContextsError { place: n });
        }
    }
    Ok(())
}

// The context `k` steps up from context `n` by parents, if there are so many. `NumberedContexts` is asked of each call,
// here and below: a type could say that the table is well formed, not which context is named.
pub fn ancestor(contexts: &[u8], n: usize, k: usize) -> Option<usize>
    requires { NumberedContexts contexts.now (n ∷ []) }
    ensures { result ≡ ancestor_of contexts.now n k }
{
    let mut at = n;
    for _ in 0..k {
        if at == 0 {
            return None;
        }
        at = parent(contexts, at);
    }
    Some(at)
}

// The nearest entry of context `n`, if there is one.
fn nearest(contexts: &[u8], n: usize) -> Option<usize>
    requires { NumberedContexts contexts.now (n ∷ []) }
    ensures { result ≡ entry_of contexts.now n 0 }
{
    if n == 0 {
        return None;
    }
    Some(type_of(contexts, n))
}

// The row of the type of the entry of context `n` that `x` others are nearer than, if there is one. A call: inlined
// among the checks of all rules, the climb's context would have no register.
#[inline(never)]
pub fn entry(contexts: &[u8], n: usize, x: usize) -> Option<usize>
    requires { NumberedContexts contexts.now (n ∷ []) }
    ensures { result ≡ entry_of contexts.now n x }
{
    nearest(contexts, ancestor(contexts, n, x)?)
}
