// Finding the lines that state many judgments: the sheet is admitted once.
ghost use Rattle.std.specs.Prelude.{◌≡◌, map, ◌≤◌, length};
ghost use Rattle.terms.specs.Lists.{listed};
ghost use Rattle.terms.specs.Buffers.{over};
ghost use Rattle.sheets.specs.Admission.{work_after};
ghost use Rattle.sheets.specs.Batch.{answer_for, wanted_of, wanted_at, wanted_in, batch_of, answers_after};
ghost use Rattle.sheets.specs.Opening.{Answerable, answer_in};
ghost use Rattle.sheets.specs.declared.finding.Wanted.{Wanted};

use crate::finding::Wanted;
use crate::good_sheet::GoodSheet;
use crate::opening::Opened;
use crate::refusals::{Fault, Refusal};

// What a list of judgments is made of.
trait Judgment: Copy {
    ghost wanted: { Self → Wanted };

    fn wanted(self) -> Wanted
        ensures { result ≡ wanted self };
}

impl Judgment for Wanted {
    ghost wanted = { λ w. w };

    fn wanted(self) -> Wanted {
        self
    }
}

impl Judgment for [u32; 5] {
    ghost wanted = { wanted_of };

    fn wanted(self) -> Wanted {
        self.into()
    }
}

// The answer for one judgment; 65,535 for none is what the caller's buffer takes (`answers_after`).
fn answer_for(found: Result<usize, Refusal>) -> u16
    requires { Answerable found }
    ensures { result ≡ answer_for found }
{
    match found {
        Ok(line) => line as u16,
        Err(_) => 65535,
    }
}

// Puts the answer for each judgment of a list. A call for the whole list: one for each judgment takes longer than a
// search of few lines, and compiled among others the loop over many takes an eighth longer. The lines are asked for
// once, since the compiler does not know that what is written leaves the sheet as it is.
#[inline(never)]
fn search_each<J: Judgment>(opened: &Opened, list: &[J], answers: &mut [u16])
    requires { length list.now ≤ length answers.old }
    ensures { answers.new ≡ over (listed (λ i. answer_in opened.now.sheet.bytes.now opened.now.sheet.counts (wanted_at (map J.wanted list.now) i)) (length list.now)) answers.old }
{
    let lines = opened.sheet.lines();
    for i in 0..list.len() {
        answers[i] = answer_for(opened.search_in(lines, list[i].wanted()));
    }
}

// Admits a sheet, and finds the line of each judgment of a list, as single searches do.
fn find_each<J: Judgment>(
    sheet: &[u8],
    work: &mut [u32],
    list: &[J],
    answers: &mut [u16],
) -> Result<usize, Refusal>
    ensures answer { result ≡ batch_of sheet.now (length work.old) (length list.now) (length answers.old) }
    ensures left { work.new ≡ work_after sheet.now work.old }
    ensures put { answers.new ≡ answers_after sheet.now (length work.old) (map J.wanted list.now) answers.old }
{
    let admitted = GoodSheet::admit(sheet, work)?;
    let count = list.len();
    if answers.len() < count {
        return Err(Fault::AnswerRoom.into());
    }
    search_each(&Opened::new(admitted), list, answers);
    Ok(count)
}

// A list of judgments.
pub fn find_all(
    sheet: &[u8],
    work: &mut [u32],
    wanted: &[Wanted],
    answers: &mut [u16],
) -> Result<usize, Refusal>
    ensures answer { result ≡ batch_of sheet.now (length work.old) (length wanted.now) (length answers.old) }
    ensures left { work.new ≡ work_after sheet.now work.old }
    ensures put { answers.new ≡ answers_after sheet.now (length work.old) wanted.now answers.old }
{
    find_each(sheet, work, wanted, answers)
}

// A list of numbers, five a judgment, of which only whole judgments count.
pub fn find_all_flat(
    sheet: &[u8],
    work: &mut [u32],
    numbers: &[u32],
    answers: &mut [u16],
) -> Result<usize, Refusal>
    ensures answer { result ≡ batch_of sheet.now (length work.old) (length (wanted_in numbers.now)) (length answers.old) }
    ensures left { work.new ≡ work_after sheet.now work.old }
    ensures put { answers.new ≡ answers_after sheet.now (length work.old) (wanted_in numbers.now) answers.old }
{
    let (judgments, _) = numbers.as_chunks::<5>();
    find_each(sheet, work, judgments, answers)
}
