// Finding the line that states a judgment.
ghost use Rattle.std.specs.Prelude.{◌≡◌, length};
ghost use Rattle.sheets.specs.Finding.{find_of};
ghost use Rattle.sheets.specs.Batch.{wanted_of};
ghost use Rattle.sheets.specs.Admission.{work_after};

use crate::good_sheet::GoodSheet;
use crate::opening::Opened;
use crate::refusals::Refusal;
use rules::judgments::LineJudgment;

// The five numbers of a judgment that is looked for.
#[derive(Clone, Copy, Debug, PartialEq, Eq)]
pub struct Wanted {
    pub form: u32,
    pub context: u32,
    pub s1: u32,
    pub s2: u32,
    pub s3: u32,
}

impl From<[u32; 5]> for Wanted {
    ghost from_gives = { λ numbers w. w ≡ wanted_of numbers };

    #[tactic(auto, unfolding(crate::specs::Batch::wanted_of))]
    fn from(numbers: [u32; 5]) -> Wanted {
        let [form, context, s1, s2, s3] = numbers;
        Wanted {
            form,
            context,
            s1,
            s2,
            s3,
        }
    }
}

impl From<Wanted> for LineJudgment {
    ghost from_gives = { λ w j. j ≡ record { form = w.form; context = w.context; s1 = w.s1; s2 = w.s2; s3 = w.s3 } };

    fn from(w: Wanted) -> LineJudgment {
        LineJudgment {
            form: w.form as usize,
            context: w.context as usize,
            s1: w.s1 as usize,
            s2: w.s2 as usize,
            s3: w.s3 as usize,
        }
    }
}

// Admits a sheet, and finds the line of least height that has these five numbers, of several the last.
pub fn find(sheet: &[u8], work: &mut [u32], wanted: Wanted) -> Result<usize, Refusal>
    ensures answer { result ≡ find_of sheet.now (length work.old) wanted }
    ensures left { work.new ≡ work_after sheet.now work.old }
{
    let admitted = GoodSheet::admit(sheet, work)?;
    Opened::new(admitted).search(wanted)
}
