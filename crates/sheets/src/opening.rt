// A sheet that is opened for searches.
ghost use Rattle.std.specs.Prelude.{◌≡◌};
ghost use Rattle.sheets.specs.Layout.{edition_of, lines_in};
ghost use Rattle.sheets.specs.SearchSteps.{heights_of};
ghost use Rattle.sheets.specs.Finding.{search_lines};

use crate::finding::Wanted;
use crate::good_sheet::GoodSheet;
use crate::heights::line_heights;
use crate::lines::Lines;
use crate::refusals::Refusal;
use crate::searching::search_lines;

// An admitted sheet and the heights of its lines, which are computed once for all searches, in fixed memory: no heap.
#[derive(Drop)]
pub struct Opened<'a> {
    pub sheet: GoodSheet<'a>,
    heights: [u16; 1024],
    ghost of_lines: { heights ≡ heights_of (edition_of sheet.bytes.now) (lines_in sheet.bytes.now sheet.counts.terms sheet.counts.contexts) sheet.counts.lines },
}

impl<'a> Opened<'a> {
    pub fn new(sheet: GoodSheet<'a>) -> Opened<'a>
        ensures { (result.sheet.bytes.now ≡ sheet.entry.bytes.now) × (result.sheet.counts ≡ sheet.entry.counts) }
    {
        Opened {
            sheet,
            heights: line_heights(sheet.lines()),
        }
    }

    // The line of least height that has these five numbers, of several the last.
    pub fn search(&self, wanted: Wanted) -> Result<usize, Refusal>
        ensures { result ≡ search_lines (edition_of self.now.sheet.bytes.now) (lines_in self.now.sheet.bytes.now self.now.sheet.counts.terms self.now.sheet.counts.contexts) self.now.sheet.counts.lines wanted }
    {
        self.search_in(self.sheet.lines(), wanted)
    }

    // The same, among the lines of the sheet, which are asked for once where there are many searches.
    pub fn search_in(&self, lines: Lines, wanted: Wanted) -> Result<usize, Refusal>
        requires own_edition { lines.edition ≡ edition_of self.now.sheet.bytes.now }
        requires own_rows { lines.rows.now ≡ lines_in self.now.sheet.bytes.now self.now.sheet.counts.terms self.now.sheet.counts.contexts }
        requires own_count { lines.count ≡ self.now.sheet.counts.lines }
        ensures { result ≡ search_lines (edition_of self.now.sheet.bytes.now) (lines_in self.now.sheet.bytes.now self.now.sheet.counts.terms self.now.sheet.counts.contexts) self.now.sheet.counts.lines wanted }
    {
        search_lines(lines, &self.heights, wanted)
    }
}
