// The trailer, and what it says of the tables.
ghost use Rattle.std.specs.Prelude.{◌≡◌, true, ◌≤◌, length};
ghost use Rattle.sheets.specs.Layout.{trailer_of, edition_of, mark_fits, limits_fit, distances_fit, counts_fit, trailer_answer, layout_of};

use crate::refusals::{Counts, Fault};
use rules::editions::is_edition;
use terms::words::word_at;

// The eight words of a trailer. The three distances go back from its first byte to the terms, the contexts and the
// lines.
#[derive(Clone, Copy, Debug, PartialEq, Eq)]
pub struct Trailer {
    pub terms: usize,
    pub contexts: usize,
    pub lines: usize,
    pub edition: usize,
    pub to_terms: usize,
    pub to_contexts: usize,
    pub to_lines: usize,
    pub mark: usize,
}

// The trailer of a sheet, its last 16 bytes.
fn read_trailer(sheet: &[u8]) -> Trailer
    requires { 16 ≤ length sheet.now }
    ensures { result ≡ trailer_of sheet.now }
{
    let start = sheet.len() - 16;
    let words = &sheet[start..];
    Trailer {
        terms: word_at(words, 0),
        contexts: word_at(words, 1),
        lines: word_at(words, 2),
        edition: word_at(words, 3),
        to_terms: word_at(words, 4),
        to_contexts: word_at(words, 5),
        to_lines: word_at(words, 6),
        mark: word_at(words, 7),
    }
}

// The edition by which a sheet is judged.
pub fn edition_of(sheet: &[u8]) -> usize
    requires { 16 ≤ length sheet.now }
    ensures { result ≡ edition_of sheet.now }
{
    let trailer = read_trailer(sheet);
    trailer.edition
}

// Number 2: the mark, and an edition that is defined.
fn mark_fits(t: Trailer) -> bool
    ensures { result ≡ mark_fits t }
{
    (t.mark == 0x4C44) & is_edition(t.edition)
}

// Number 3: the counts keep their limits.
fn limits_fit(t: Trailer) -> bool
    ensures { result ≡ limits_fit t }
{
    (t.terms <= 3072) & (t.contexts <= 256) & (t.lines <= 1024)
}

// Number 3: the distances and the length `n` agree with the counts.
fn distances_fit(t: Trailer, n: usize) -> bool
    requires { limits_fit t ≡ true }
    ensures { result ≡ distances_fit t n }
{
    let lines = 20 * t.lines;
    let contexts = 4 * t.contexts;
    let terms = 10 * t.terms + contexts + lines;
    (t.to_terms == terms)
        & (t.to_contexts == contexts + lines)
        & (t.to_lines == lines)
        & (n == terms + 16)
}

// Number 3, for a sheet of `n` bytes.
fn counts_fit(t: Trailer, n: usize) -> bool
    ensures { result ≡ counts_fit t n }
{
    if limits_fit(t) {
        distances_fit(t, n)
    } else {
        false
    }
}

// Numbers 2 to 4, for a sheet of `n` bytes and a work buffer of `work` words.
fn trailer_answer(t: Trailer, n: usize, work: usize) -> Result<Counts, Fault>
    ensures { result ≡ trailer_answer t n work }
{
    if !mark_fits(t) {
        return Err(Fault::Mark);
    }
    if !counts_fit(t, n) {
        return Err(Fault::Counts);
    }
    if work < t.terms {
        return Err(Fault::WorkBuffer);
    }
    Ok(Counts {
        terms: t.terms,
        contexts: t.contexts,
        lines: t.lines,
    })
}

// The counts of a sheet, or the first of numbers 1 to 4 that is broken.
pub fn read_layout(sheet: &[u8], work: usize) -> Result<Counts, Fault>
    ensures { result ≡ layout_of sheet.now work }
{
    let n = sheet.len();
    if (16 <= n) & (n <= 52240) {
        trailer_answer(read_trailer(sheet), n, work)
    } else {
        Err(Fault::Length)
    }
}
