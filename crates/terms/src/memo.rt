// A memory of comparisons that held, so that a walk need not compare a shared subterm again. A comparison may take
// the word of an earlier one, which is then forgotten: no answer depends on what is remembered.
ghost use Rattle.std.specs.Prelude.{◌≡◌, true, ◌+◌, ◌*◌, ◌<◌, ◌≤◌, replicate};
ghost use Rattle.terms.specs.Memo.{code as code_of, InMemo, Remembers};

// Each word is 0 or one comparison, so that fixed memory holds 64 of them. That these hold, for the rows and the
// operation of a walk, stands in the contracts of the two functions of `walks` alone: a ghost field would have the
// memory name both.
#[derive(Drop)]
pub struct Memo {
    words: [usize; 64],
}

impl Memo {
    // Nothing is remembered yet.
    pub fn new() -> Memo
        ensures { result.words ≡ replicate 64 0 }
    {
        Memo { words: [0; 64] }
    }

    // Is the comparison remembered?
    pub fn is_remembered(&self, k: usize, t: usize, u: usize) -> bool
        requires { (k ≤ 65536) × (t < 4096) × (u < 4096) }
        ensures { result ≡ true → InMemo self.now k t u }
    {
        let i = place(k, t);
        self.words[i] == code(k, t, u)
    }

    // Remembers the comparison.
    pub fn remember(&mut self, k: usize, t: usize, u: usize)
        requires { (k ≤ 65536) × (t < 4096) × (u < 4096) }
        ensures { Remembers self.old self.new k t u }
    {
        let i = place(k, t);
        self.words[i] = code(k, t, u);
    }
}

// The word that a comparison takes: near rows, and near counts of binders, take different words. A walk that held so
// far met one `u` for each `t` and `k`, so `u` adds nothing.
fn place(k: usize, t: usize) -> usize
    requires { (k ≤ 65536) × (t < 4096) }
    ensures { result < 64 }
{
    (t + 25 * k) % 64
}

// The comparison of rows `t` and `u` under `k` binders, as one number.
fn code(k: usize, t: usize, u: usize) -> usize
    requires { (k ≤ 65536) × (t < 4096) × (u < 4096) }
    ensures { result ≡ code_of k t u }
{
    (k * 4096 + t) * 4096 + u + 1
}
