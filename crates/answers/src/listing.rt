// A list of judgments in text, read into words, five a judgment.
ghost use Rattle.std.specs.Prelude.{◌≡◌, [], ◌∷◌, ◌++◌, ◌+◌, ◌≤◌, length, take, drop};
ghost use Rattle.answers.specs.Listing.{field_in, request_in, numbers_of, numbers_after, listing_of, InRoom};

use crate::numbers::{field_of, read_number, request_of};
use crate::parts::cut;
use sheets::finding::Wanted;

// Why a list is not read: a line of it is not five numbers, or there is one more than there is room for, whichever
// comes first.
#[derive(Clone, Copy, Debug, PartialEq, Eq)]
pub enum ListError {
    Unreadable,
    TooMany,
}

// The number that a text spells.
fn field_in(text: &[u8]) -> Option<u32>
    ensures { result ≡ field_in text.now }
{
    field_of(read_number(text))
}

// The judgment with a line's five numbers.
#[tactic(auto, unfolding(crate::specs::Listing::request_in))]
fn request_in(line: &[u8]) -> Option<Wanted>
    ensures { result ≡ request_in line.now }
{
    let (form, rest) = cut(line, b' ');
    let (context, rest) = cut(rest, b' ');
    let (s1, rest) = cut(rest, b' ');
    let (s2, s3) = cut(rest, b' ');
    request_of(
        field_in(form),
        field_in(context),
        field_in(s1),
        field_in(s2),
        field_in(s3),
    )
}

// Puts a judgment's five numbers behind the first `at` words.
#[tactic(auto, unfolding(crate::specs::Listing::numbers_of))]
fn put_judgment(wanted: Wanted, numbers: &mut [u32], at: usize)
    requires { at + 5 ≤ length numbers.old }
    ensures { numbers.new ≡ (take at numbers.old ++ numbers_of (wanted ∷ [])) ++ drop (at + 5) numbers.old }
{
    let words = [wanted.form, wanted.context, wanted.s1, wanted.s2, wanted.s3];
    numbers[at..at + 5].copy_from_slice(&words);
}

// Reads a list, a judgment a line, puts the numbers at the start of `numbers`, those before a fault too, and answers
// how many judgments there are. No heap: the words lie in the caller's array.
#[tactic(auto, using(crate::proofs::ListingLaws::no_lines))]
pub fn read_list(text: &[u8], numbers: &mut [u32; 5120]) -> Result<usize, ListError>
    ensures answer { result ≡ listing_of text.now }
    ensures numbers { numbers.new ≡ numbers_after text.now numbers.old }
    ensures room { InRoom (length numbers.new) result }
{
    let mut count = 0;
    // std's `split` would have an empty line behind the last line end
    for line in text.split_inclusive(|byte| *byte == b'\n') {
        let full = count == 1024;
        if full {
            return Err(ListError::TooMany);
        }
        let line = line.strip_suffix(b"\n").unwrap_or(line);
        let wanted = request_in(line).ok_or(ListError::Unreadable)?;
        put_judgment(wanted, numbers, 5 * count);
        count += 1;
    }
    Ok(count)
}
