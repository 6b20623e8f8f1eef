// What is refused, under which number and at which place, and what is counted in an admitted sheet.
ghost use Rattle.std.specs.Prelude.{◌≡◌};
ghost use Rattle.sheets.specs.Refusals.{number_of, refusal};
ghost use Rattle.sheets.specs.declared.refusals.Fault.TheVariants.{Term, Context};

use rules::contexts::ContextsError;
use terms::sizes::{RowFault, TermsError};

// How many rows each table of a sheet has.
#[derive(Clone, Copy, Debug, PartialEq, Eq)]
pub struct Counts {
    pub terms: usize,
    pub contexts: usize,
    pub lines: usize,
}

// Why a sheet, or what is asked of it, is refused: in the order of the numbers.
#[derive(Clone, Copy, Debug, PartialEq, Eq)]
pub enum Fault {
    Length,
    Mark,
    Counts,
    WorkBuffer,
    Term(RowFault),
    Context,
    Numbers,
    NoInstance,
    NoLine,
    LineUsed,
    Room,
    NotStated,
    NoTerm,
    NotRising,
    AnswerRoom,
    UpToDate,
    NoMotive,
}

impl Fault {
    // 15 and 16 are those of windows.
    #[tactic(auto, unfolding(crate::specs::Refusals::number_of))]
    pub fn number(self) -> usize
        ensures { result ≡ number_of self }
    {
        match self {
            Fault::Length => 1,
            Fault::Mark => 2,
            Fault::Counts => 3,
            Fault::WorkBuffer => 4,
            Fault::Term(row) => row.number(),
            Fault::Context => 8,
            Fault::Numbers => 9,
            Fault::NoInstance => 10,
            Fault::NoLine => 11,
            Fault::LineUsed => 12,
            Fault::Room => 13,
            Fault::NotStated => 14,
            Fault::NoTerm => 17,
            Fault::NotRising => 18,
            Fault::AnswerRoom => 19,
            Fault::UpToDate => 20,
            Fault::NoMotive => 21,
        }
    }
}

// The first fault and its place: a row, a line, what was given, or 0 where no place is named.
#[derive(Clone, Copy, Debug, PartialEq, Eq)]
pub struct Refusal {
    pub fault: Fault,
    pub place: usize,
}

impl Refusal {
    pub fn at(fault: Fault, place: usize) -> Refusal
        ensures { result ≡ refusal fault place }
    {
        Refusal { fault, place }
    }
}

// No place is named.
impl From<Fault> for Refusal {
    ghost from_gives = { λ fault r. r ≡ refusal fault 0 };

    fn from(fault: Fault) -> Refusal {
        Refusal::at(fault, 0)
    }
}

impl From<TermsError> for Refusal {
    ghost from_gives = { λ e r. r ≡ refusal (Term e.fault) e.place };

    fn from(e: TermsError) -> Refusal {
        Refusal::at(Fault::Term(e.fault), e.place)
    }
}

impl From<ContextsError> for Refusal {
    ghost from_gives = { λ e r. r ≡ refusal Context e.place };

    fn from(e: ContextsError) -> Refusal {
        Refusal::at(Fault::Context, e.place)
    }
}
