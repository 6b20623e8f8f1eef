// Dates in text, as 1970-01-01.
ghost use Rattle.std.specs.Prelude.{◌≡◌};
ghost use Rattle.answers.specs.Dates.{numeral_of, date_from, date_in, held_number, held_reading};

use crate::numbers::{is_numeral, read_number};
use crate::parts::cut;
use windows::dates::Date;

// A number of a date. One that is not below 2^64 is held as 2^32: neither makes a date.
#[tactic(auto, using(crate::proofs::DateLaws::no_numeral, crate::proofs::DateLaws::numeral_held))]
fn read_part(text: &[u8]) -> Option<usize>
    ensures { result ≡ held_number (numeral_of text.now) }
{
    if is_numeral(text) {
        Some(read_number(text).unwrap_or(4294967296))
    } else {
        None
    }
}

// The date with these three numbers, if all three were read.
#[tactic(auto, unfolding(crate::specs::Dates::date_from, windows::specs::Dates::date_of))]
fn date_from(year: Option<usize>, month: Option<usize>, day: Option<usize>) -> Option<Date>
    ensures { result ≡ date_from year month day }
{
    Some(Date {
        year: year?,
        month: month?,
        day: day?,
    })
}

// The date, which need not exist, that three numbers parted by hyphens spell.
#[tactic(auto, using(crate::proofs::DateLaws::from_held), unfolding(crate::specs::Dates::date_in))]
pub fn read_date(text: &[u8]) -> Option<Date>
    ensures { result ≡ held_reading (date_in text.now) }
{
    let (year, rest) = cut(text, b'-');
    let (month, day) = cut(rest, b'-');
    date_from(read_part(year), read_part(month), read_part(day))
}
