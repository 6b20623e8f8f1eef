// Heights of lines: 0 where the rule has no premise, else one more than the greatest height that is cited.
ghost use Rattle.std.specs.Prelude.{◌≡◌, map, get_or};
ghost use Rattle.sheets.specs.Lines.{cited_by};
ghost use Rattle.sheets.specs.Citing.{CitesEarlier};
ghost use Rattle.sheets.specs.Heights.{above};
ghost use Rattle.sheets.specs.SearchSteps.{heights_of};

use crate::lines::{Line, Lines};
use rules::table::{RuleTable, rule_table};

// The height of a line over the heights of those before it. A premise that its rule does not use is line 0, which has
// height 0.
fn height_of(table: &RuleTable, line: Line, heights: &[u16; 1024]) -> usize
    requires { CitesEarlier line 1024 × (get_or heights.now 0 0 ≡ 0) }
    ensures { result ≡ above (map (λ n. get_or heights.now n 0) (cited_by line)) }
{
    if table.premise_count(line.rule) == 0 {
        return 0;
    }
    let first = heights[line.p0].max(heights[line.p1]);
    let second = heights[line.p2].max(heights[line.p3]);
    first.max(second) as usize + 1
}

// The heights of the lines.
pub fn line_heights(lines: Lines) -> [u16; 1024]
    ensures { result ≡ heights_of lines.entry.edition lines.entry.rows.now lines.entry.count }
{
    let mut heights = [0u16; 1024];
    let table = rule_table();
    for n in 0..lines.count {
        let height = height_of(&table, lines.line(n), &heights);
        heights[n] = height as u16;
    }
    heights
}
