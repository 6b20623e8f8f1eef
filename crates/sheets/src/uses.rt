// Number 12: listed lines that lines which stay use.
ghost use Rattle.std.specs.Prelude.{◌≡◌, ◌<◌, MatchOption};
ghost use Rattle.rules.specs.RuleTable.{IsRule};
ghost use Rattle.sheets.specs.Numbering.{Numbering};
ghost use Rattle.sheets.specs.ListedUses.{above, listed_premise, highest_listed, higher_use};
ghost use Rattle.sheets.specs.WithdrawalSet.{AllLines, kept_use};

use crate::line_sets::{LineNumbers, LineSet};
use crate::lines::{Line, Lines};
use rules::table::{RuleTable, rule_table};

// A listed line that is used, and the lowest line that uses it and stays.
#[derive(Clone, Copy)]
struct Use {
    listed: usize,
    place: usize,
}

// A premise, if it is used and listed.
fn listed_premise(numbers: &LineNumbers, used: bool, premise: usize) -> Option<usize>
    requires { premise < 1024 }
    ensures { above result ≡ listed_premise numbers.now.below used premise }
{
    if used & numbers.is_listed(premise) {
        return Some(premise);
    }
    None
}

// The highest listed line among the premises that the line's rule uses: `None` is below every number.
fn highest_listed(table: &RuleTable, line: Line, numbers: &LineNumbers) -> Option<usize>
    requires rule { IsRule line.rule }
    requires p0_bound { (line.p0 < 1024) × (line.p1 < 1024) × (line.p2 < 1024) × (line.p3 < 1024) }
    ensures { above result ≡ highest_listed numbers.now.below line }
{
    let count = table.premise_count(line.rule);
    let p = listed_premise(numbers, 0 < count, line.p0);
    let q = listed_premise(numbers, 1 < count, line.p1);
    let r = listed_premise(numbers, 2 < count, line.p2);
    let s = listed_premise(numbers, 3 < count, line.p3);
    p.max(q).max(r.max(s))
}

// Of a line that was found used, if one was, and another that is, the higher; the first if they are one.
fn higher_use(found: Option<Use>, other: Use) -> Use
    ensures { result ≡ higher_use found other }
{
    match found {
        Some(first) if other.listed <= first.listed => first,
        _ => other,
    }
}

// The lowest line that stays and uses a listed one, the highest that is so used. Only lines behind the first listed one
// can use any, and the last listed one is the highest that can be found.
pub fn kept_use(lines: Lines, set: LineSet, numbers: &LineNumbers) -> Option<usize>
    requires { AllLines lines.count set.numbers.now × Numbering set.numbers.now lines.count numbers.now.below numbers.now.kept }
    ensures { MatchOption result (kept_use lines.entry.edition lines.entry.rows.now lines.entry.count set.entry.numbers.now ≡ lines.entry.count) (λ place. (place < lines.entry.count) × (kept_use lines.entry.edition lines.entry.rows.now lines.entry.count set.entry.numbers.now ≡ place)) }
{
    let size = set.numbers.len();
    if size == 0 {
        return None;
    }
    let table = rule_table();
    let last = set.numbers[size - 1];
    let left = lines.count - size;
    let mut found: Option<Use> = None;
    for m in set.numbers[0]..left {
        let place = numbers.old_number(m);
        let line = lines.line(place);
        if let Some(listed) = highest_listed(&table, line, numbers) {
            let highest = higher_use(found, Use { listed, place });
            if highest.listed == last {
                return Some(highest.place);
            }
            found = Some(highest);
        }
    }
    found.map(|highest| highest.place)
}
