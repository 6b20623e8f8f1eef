// Sets of lines, as lists of their numbers, and the numbers of the lines that stay.
ghost use Rattle.std.specs.Prelude.{◌≡◌, true, false, MatchOption, suc, ◌+◌, ◌-◌, ◌≤◌, ◌<◌, ltb, get_or};
ghost use Rattle.sheets.specs.LineSets.{rises as rises_test, Rises, count_below};
ghost use Rattle.sheets.specs.Numbering.{Numbering};

// A set of lines: the list of their numbers, each below the next.
#[derive(Clone, Copy)]
pub struct LineSet<'a> {
    pub numbers: &'a [usize],
    ghost rises: { Rises numbers.now },
}

impl<'a> LineSet<'a> {
    // Number 18: the set with this list, if that rises.
    pub fn new(numbers: &'a [usize]) -> Option<LineSet<'a>>
        ensures { MatchOption result (rises_test numbers.now ≡ false) (λ set. (rises_test numbers.now ≡ true) × (set.numbers.now ≡ numbers.now)) }
    {
        if numbers.is_sorted_by(|m, n| m < n) {
            Some(LineSet { numbers })
        } else {
            None
        }
    }

    // How many listed numbers are below `k + 1`, where `count` are below `k`.
    fn next_count(self, count: usize, k: usize) -> usize
        requires { count ≡ count_below self.numbers.now k }
        ensures { result ≡ count_below self.entry.numbers.now (suc k) }
    {
        if count < self.numbers.len() {
            if self.numbers[count] == k {
                return count + 1;
            }
        }
        count
    }
}

// The numbers that a withdrawal of a set of lines goes by: fixed memory, since no heap is used.
#[derive(Drop)]
pub struct LineNumbers {
    // how many listed numbers are below each number
    below: [u16; 1025],
    // the old number of each line that stays, at the place of its new one
    kept: [u16; 1025],
}

impl LineNumbers {
    // The numbers of the first `lines` lines. The place of a line that stays is written last by that line, since the
    // listed ones right before it have the same.
    pub fn new(set: LineSet, lines: usize) -> LineNumbers
        requires { lines ≤ 1024 }
        ensures { Numbering set.entry.numbers.now lines result.below result.kept }
    {
        let mut numbers = LineNumbers {
            below: [0u16; 1025],
            kept: [0u16; 1025],
        };
        let mut count = 0;
        for k in 0..=lines {
            let new = k - count;
            numbers.below[k] = count as u16;
            numbers.kept[new] = k as u16;
            count = set.next_count(count, k);
        }
        numbers
    }

    // Is the line listed? More listed numbers are below the next one then.
    pub fn is_listed(&self, line: usize) -> bool
        requires { line < 1024 }
        ensures { result ≡ ltb (get_or self.now.below line 0) (get_or self.now.below (line + 1) 0) }
    {
        self.below[line] < self.below[line + 1]
    }

    // The number that a line has once the listed ones are away.
    pub fn new_number(&self, line: usize) -> usize
        requires { (line ≤ 1024) × (get_or self.now.below line 0 ≤ line) }
        ensures { result ≡ line - get_or self.now.below line 0 }
    {
        line - self.below[line] as usize
    }

    // The number that line `m` had before.
    pub fn old_number(&self, m: usize) -> usize
        requires { m ≤ 1024 }
        ensures { result ≡ get_or self.now.kept m 0 }
    {
        self.kept[m] as usize
    }
}
