// An index of the rows checked so far.
ghost use Rattle.std.specs.Prelude.{◌≡◌, List, ℕ, ◌+◌, ◌*◌, ◌<◌, ◌≤◌, length, get_or, set};
ghost use Rattle.terms.specs.Decides.{Decides};
ghost use Rattle.terms.specs.Repetition.{OlderRowHolds};
ghost use Rattle.terms.specs.RowIndex.{bucket_of, Indexed};

use crate::rows::{Row, holds};

// The bucket of five words.
#[tactic(auto, unfolding(crate::specs::RowIndex::bucket_of))]
pub fn bucket_of(row: Row) -> usize
    ensures { result ≡ bucket_of row }
{
    let mixed = row.tag % 4096 * 1597463
        + row.a % 4096 * 2654435
        + row.b % 4096 * 1140671
        + row.c % 4096 * 805459
        + row.d % 4096 * 433495;
    mixed / 1024 % 2048
}

// Rows are chained by bucket, the last one first. A head or a link is one more than a row's number, and 0 where the
// chain ends: an `Option` would take twice the memory, which is cleared for each table.
#[derive(Drop)]
pub struct RowIndex {
    heads: [u16; 2048],
    links: [u16; 3072],
}

impl RowIndex {
    // No row is indexed.
    pub fn new() -> RowIndex
        ensures { (bytes : List ℕ) → Indexed bytes 0 result }
    {
        RowIndex {
            heads: [0; 2048],
            links: [0; 3072],
        }
    }

    // Does one of the first `n` rows hold these five words, whatever they are? Rows that do lie in the words' bucket.
    // The chain goes by links and not by an index: a `while`.
    #[tactic(auto, using(crate::proofs::IndexLaws::bucket_below, crate::proofs::IndexLaws::search_found, crate::proofs::IndexLaws::search_done))]
    pub fn repeated(&self, rows: &[u8], n: usize, row: Row, bucket: usize) -> bool
        requires { (10 * n ≤ length rows.now) × (n ≤ 3072) × (bucket ≡ bucket_of row) × Indexed rows.now n self.now }
        ensures { Decides result (OlderRowHolds rows.now row n) }
    {
        let mut at = usize::from(self.heads[bucket]);
        while 0 < at {
            let i = at - 1;
            if holds(rows, i, row) {
                return true;
            }
            at = usize::from(self.links[i]);
        }
        false
    }

    // Adds row `n` to the chain of its bucket.
    pub fn add(&mut self, n: usize, bucket: usize)
        requires { (n < 3072) × (bucket < 2048) }
        ensures heads { self.new.heads ≡ set self.old.heads bucket (n + 1) }
        ensures links { self.new.links ≡ set self.old.links n (get_or self.old.heads bucket 0) }
    {
        self.links[n] = self.heads[bucket];
        self.heads[bucket] = (n + 1) as u16;
    }
}
