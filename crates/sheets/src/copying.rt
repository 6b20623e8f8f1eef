// Writing a sheet: bytes, words, and a sheet without some of its lines.
ghost use Rattle.std.specs.Prelude.{◌≡◌, ℕ, ◌+◌, ◌*◌, ◌/◌, ◌%◌, ◌<◌, ◌≤◌, length, get_or, set, take};
ghost use Rattle.terms.specs.Words.{bytes_of};
ghost use Rattle.terms.specs.Buffers.{over};
ghost use Rattle.terms.specs.Lists.{listed};
ghost use Rattle.sheets.specs.GoodLayout.{trailer_for};
ghost use Rattle.sheets.specs.KeptWords.{word_of_trailer, start_of, end_of, renumbered_word, kept_line_word, kept_word};
ghost use Rattle.sheets.specs.KeptWords.{SmallTrailer, LineKept, KeptLines};

use crate::layout::Trailer;
use crate::line_sets::LineNumbers;
use crate::refusals::Counts;
use terms::words::word_at;

// The trailer of a sheet of this edition with these counts.
pub fn trailer_for(edition: usize, counts: Counts) -> Trailer
    requires { (counts.terms ≤ 3072) × (counts.contexts ≤ 256) × (counts.lines ≤ 1024) }
    ensures { result ≡ trailer_for edition counts.terms counts.contexts counts.lines }
{
    let Counts {
        terms,
        contexts,
        lines,
    } = counts;
    let to_lines = 20 * lines;
    let to_contexts = 4 * contexts + to_lines;
    Trailer {
        terms,
        contexts,
        lines,
        edition,
        to_terms: 10 * terms + to_contexts,
        to_contexts,
        to_lines,
        mark: 0x4C44,
    }
}

// Copies the first `count` bytes.
pub fn copy_bytes(sheet: &[u8], count: usize, out: &mut [u8])
    requires { (count ≤ length sheet.now) × (count ≤ length out.old) }
    ensures { out.new ≡ over (take count sheet.now) out.old }
{
    for i in 0..count {
        out[i] = sheet[i];
    }
}

// Writes `w` as word `i`.
pub fn put_word(out: &mut [u8], i: usize, w: usize)
    requires { (2 * i + 1 < length out.old) × (w < 65536) }
    ensures { out.new ≡ set (set out.old (2 * i) (w % 256)) (2 * i + 1) (w / 256) }
{
    let at = 2 * i;
    let [low, high] = (w as u16).to_le_bytes();
    out[at] = low;
    out[at + 1] = high;
}

// `LineKept` is asked of each line that is written, and holds of no line by itself: no type says it.
// Word `j` of line `line`, renumbered, where the lines begin at word `start`.
fn renumbered_word(
    sheet: &[u8],
    start: usize,
    line: usize,
    numbers: &LineNumbers,
    j: usize,
) -> usize
    requires { LineKept sheet.now start numbers.now.below line × (j < 10) }
    ensures value { result ≡ renumbered_word sheet.now start numbers.now.below line j }
    ensures range { result < 65536 }
{
    let w = word_at(sheet, start + (10 * line + j));
    if j < 6 {
        return w;
    }
    numbers.new_number(w)
}

// Writes line `line`, renumbered.
fn write_line(sheet: &[u8], start: usize, line: usize, numbers: &LineNumbers, out: &mut [u8])
    requires { LineKept sheet.now start numbers.now.below line × (20 ≤ length out.old) }
    ensures { out.new ≡ over (bytes_of (listed (renumbered_word sheet.now start numbers.now.below line) 10)) out.old }
{
    for j in 0..10 {
        let w = renumbered_word(sheet, start, line, numbers, j);
        put_word(out, j, w);
    }
}

// Writes the lines that stay, `left` of them.
fn write_lines(sheet: &[u8], start: usize, left: usize, numbers: &LineNumbers, out: &mut [u8])
    requires left_bound { (left ≤ 1024) × ((m : ℕ) → m < left → LineKept sheet.now start numbers.now.below (get_or numbers.now.kept m 0)) }
    requires left_in_bounds { 20 * left ≤ length out.old }
    ensures { out.new ≡ over (bytes_of (listed (kept_line_word sheet.now start numbers.now.below numbers.now.kept) (10 * left))) out.old }
{
    for m in 0..left {
        let line = numbers.old_number(m);
        write_line(sheet, start, line, numbers, &mut out[20 * m..]);
    }
}

// Writes a trailer.
fn write_trailer(t: Trailer, out: &mut [u8])
    requires { SmallTrailer t × (16 ≤ length out.old) }
    ensures { out.new ≡ over (bytes_of (listed (word_of_trailer t) 8)) out.old }
{
    let words = [
        t.terms,
        t.contexts,
        t.lines,
        t.edition,
        t.to_terms,
        t.to_contexts,
        t.to_lines,
        t.mark,
    ];
    for i in 0..8 {
        put_word(out, i, words[i]);
    }
}

// Writes the new sheet, which has this trailer: its tables, its lines, its trailer.
pub fn write_sheet(sheet: &[u8], t: Trailer, numbers: &LineNumbers, out: &mut [u8])
    requires small_trailer { SmallTrailer t × (2 * start_of t ≤ length sheet.now) × KeptLines sheet.now t numbers.now.below numbers.now.kept }
    requires t_in_bounds { 2 * end_of t + 16 ≤ length out.old }
    ensures { out.new ≡ over (bytes_of (listed (kept_word sheet.now t numbers.now.below numbers.now.kept) (end_of t + 8))) out.old }
{
    let start = 5 * t.terms + 2 * t.contexts;
    let end = start + 10 * t.lines;
    copy_bytes(sheet, 2 * start, out);
    write_lines(sheet, start, t.lines, numbers, &mut out[2 * start..]);
    write_trailer(t, &mut out[2 * end..]);
}
