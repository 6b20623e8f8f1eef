// The search of a sheet's lines for a judgment.
ghost use Rattle.std.specs.Prelude.{◌≡◌, ◌<◌, get_or, Some, IfSome};
ghost use Rattle.sheets.specs.Easiest.{better as better_of};
ghost use Rattle.sheets.specs.SearchSteps.{heights_of};
ghost use Rattle.sheets.specs.Finding.{search_lines};

use crate::finding::Wanted;
use crate::lines::Lines;
use crate::refusals::{Fault, Refusal};
use rules::judgments::LineJudgment;

// The better of line `n` and the best line before it, if there is one: the later one, if it is no higher.
fn better(heights: &[u16; 1024], best: Option<usize>, n: usize) -> usize
    requires { (n < 1024) × IfSome best (λ b. b < 1024) }
    ensures { Some result ≡ better_of (λ k. get_or heights.now k 0) best n }
{
    match best {
        Some(b) if heights[b] < heights[n] => b,
        _ => n,
    }
}

// The easiest of the lines that has these five numbers.
pub fn search_lines(lines: Lines, heights: &[u16; 1024], wanted: Wanted) -> Result<usize, Refusal>
    requires { heights.now ≡ heights_of lines.edition lines.rows.now lines.count }
    ensures { result ≡ search_lines lines.entry.edition lines.entry.rows.now lines.entry.count wanted }
{
    let sought = LineJudgment::from(wanted);
    let mut best = None;
    for n in 0..lines.count {
        if LineJudgment::from(lines.line(n)) == sought {
            best = Some(better(heights, best, n));
        }
    }
    match best {
        Some(line) => Ok(line),
        None => Err(Fault::NotStated.into()),
    }
}
