// The lines of a list, and their words, parted by single spaces.
ghost use Rattle.std.specs.Prelude.{◌≡◌, ◌≤◌, length, drop};
ghost use Rattle.answers.specs.Counts.{IsPrefixLen};
ghost use Rattle.answers.specs.Numbers.{read_number};
ghost use Rattle.samples.specs.Text.{word_of, behind_lines, length_of, NumbersFrom};

use answers::numbers::read_number;
use answers::parts::{behind, place_of};

// The number that word `n` of a line spells, counted from 0.
pub fn number_in(line: &[u8], n: usize) -> Option<usize>
    ensures { result ≡ read_number (word_of n line.now) }
{
    let mut start = 0;
    for passed in 0..n {
        start = behind(line, place_of(line, start, b' '));
    }
    let end = place_of(line, start, b' ');
    read_number(&line[start..end])
}

// Where a text goes on behind so many lines.
pub fn behind_lines(text: &[u8], from: usize, count: usize) -> usize
    requires { from ≤ length text.now }
    ensures rest { drop result text.now ≡ behind_lines count (drop from text.now) }
    ensures range { (from ≤ result) × IsPrefixLen result text.now }
{
    let mut place = from;
    for passed in 0..count {
        place = behind(text, place_of(text, place, b'\n'));
    }
    place
}

// The length that word `n` of a line names, at most that of a sheet; the greatest where it names none.
#[tactic(auto, unfolding(crate::specs::Text::length_of))]
pub fn length_in(line: &[u8], n: usize) -> usize
    ensures value { result ≡ length_of (read_number (word_of n line.now)) }
    ensures range { result ≤ 52240 }
{
    number_in(line, n).unwrap_or(52240).min(52240)
}

// Puts the numbers that the words of a line from word `first` on spell into `numbers`, up to a word that spells none or
// the end of the buffer, and answers how many they are.
pub fn numbers_from(line: &[u8], first: usize, numbers: &mut [usize]) -> usize
    requires { first ≤ 1024 }
    ensures value { NumbersFrom line.now first numbers.new result }
    ensures count { IsPrefixLen result numbers.new }
{
    for count in 0..numbers.len() {
        let Some(number) = number_in(line, first + count) else {
            return count;
        };
        numbers[count] = number;
    }
    numbers.len()
}
