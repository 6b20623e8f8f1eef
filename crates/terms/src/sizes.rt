// The check of a term table: numbers 5, 6 and 7, and the sizes that it leaves.
ghost use Rattle.std.specs.Prelude.{◌≡◌, true, List, ℕ, ◌*◌, ◌<◌, ◌≤◌, length, get_or};
ghost use Rattle.terms.specs.Faults.{number_of};
ghost use Rattle.terms.specs.Sizes.{fits_row, row_size, row_answer, check_terms};
ghost use Rattle.terms.specs.Rows.{row_of};
ghost use Rattle.terms.specs.Buffers.{over};
ghost use Rattle.terms.specs.RowIndex.{bucket_of, Indexed};

use crate::row_index::{RowIndex, bucket_of};
use crate::rows::{Row, read_row};
use crate::tags::Tag;

// What a row breaks: its tag, an operand or a range; that no two rows are equal; or the limit on sizes.
#[derive(Clone, Copy, Debug, PartialEq, Eq)]
pub enum RowFault {
    Malformed,
    Repeated,
    TooLarge,
}

impl RowFault {
    #[tactic(auto, unfolding(crate::specs::Faults::number_of))]
    pub fn number(self) -> usize
        ensures { result ≡ number_of self }
    {
        match self {
            RowFault::Malformed => 5,
            RowFault::Repeated => 6,
            RowFault::TooLarge => 7,
        }
    }
}

// The first fault of a table, and its row.
#[derive(Clone, Copy, Debug, PartialEq, Eq)]
pub struct TermsError {
    pub fault: RowFault,
    pub place: usize,
}

// Do these words keep tag, operands and ranges as row `n`?
#[tactic(auto, unfolding(crate::specs::Sizes::fits_row))]
fn fits(row: Row, n: usize) -> bool
    ensures { result ≡ fits_row row n }
{
    let Ok(tag) = Tag::try_from(row.tag) else {
        return false;
    };
    (row.a < tag.limit(n, 1))
        & (row.b < tag.limit(n, 2))
        & (row.c < tag.limit(n, 3))
        & (row.d < tag.limit(n, 4))
}

// The size of the child at place `j` of a row with `count` children; 0 if it has fewer.
fn child_size(count: usize, j: usize, child: usize, sizes: &[u32]) -> usize
    requires { j ≤ count → child < length sizes.now }
    ensures value { (j ≤ count → result ≡ get_or sizes.now child 0) × (count < j → result ≡ 0) }
    ensures range { result < 4294967296 }
{
    if count < j {
        return 0;
    }
    sizes[child] as usize
}

// The size of a row with these words, in whatever table it stands; its children's sizes are known. A sum over the four
// places: a loop would choose among the four fields anew at each child.
#[tactic(auto, using(crate::proofs::GoodRows::fits_tag, crate::proofs::RowLaws::children_known))]
fn row_size(row: Row, sizes: &[u32]) -> usize
    requires { fits_row row (length sizes.now) ≡ true }
    ensures { (bytes : List ℕ) (n : ℕ) → row ≡ row_of bytes n → result ≡ row_size bytes n sizes.now }
{
    let count = Tag::of_word(row.tag).arity();
    1 + child_size(count, 1, row.a, sizes)
        + child_size(count, 2, row.b, sizes)
        + child_size(count, 3, row.c, sizes)
        + child_size(count, 4, row.d, sizes)
}

// The first of 5, 6 and 7 that row `n` breaks, or its size. Its words and their bucket are given; the rows before it
// are indexed.
#[tactic(auto, unfolding(crate::specs::Sizes::row_answer))]
fn row_answer(
    rows: &[u8],
    n: usize,
    row: Row,
    bucket: usize,
    sizes: &[u32],
    index: &RowIndex,
) -> Result<u32, RowFault>
    requires { (10 * n ≤ length rows.now) × (length sizes.now ≡ n) × (n ≤ 3072) × (row ≡ row_of rows.now n) × (bucket ≡ bucket_of row) × Indexed rows.now n index.now }
    ensures { result ≡ row_answer rows.now n sizes.now }
{
    if !fits(row, n) {
        return Err(RowFault::Malformed);
    }
    if index.repeated(rows, n, row, bucket) {
        return Err(RowFault::Repeated);
    }
    let size = row_size(row, sizes);
    let too_large = 65535 < size;
    if too_large {
        return Err(RowFault::TooLarge);
    }
    Ok(size as u32)
}

// Checks the first `count` rows in order. The words of `work` take the sizes of the rows before the first fault. A row
// is read and its bucket computed here, once.
#[tactic(auto, using(crate::proofs::IndexLaws::bucket_below))]
pub fn check_terms(rows: &[u8], count: usize, work: &mut [u32]) -> Result<(), TermsError>
    requires { (10 * count ≤ length rows.now) × (count ≤ 3072) × (count ≤ length work.old) }
    ensures answer { result ≡ (check_terms rows.now count).answer }
    ensures sizes { work.new ≡ over (check_terms rows.now count).sizes work.old }
{
    let mut index = RowIndex::new();
    for k in 0..count {
        let row = read_row(rows, k);
        let bucket = bucket_of(row);
        // no `map_err(..)?`, whose closure takes hold of the counter and is no plainer
        match row_answer(rows, k, row, bucket, &work[..k], &index) {
            Ok(size) => work[k] = size,
            Err(fault) => return Err(TermsError { fault, place: k }),
        }
        index.add(k, bucket);
    }
    Ok(())
}
