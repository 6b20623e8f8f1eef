// Dates, and the number of a date's day.
ghost use Rattle.std.specs.Prelude.{◌≡◌};
ghost use Rattle.windows.specs.Dates.{exists as existing, day_number_of};

use crate::calendar::{days_before, month_length};
use crate::errors::WindowError;

// Any year, month and day; `exists` tells whether there is such a date.
#[derive(Clone, Copy, Debug, PartialEq, Eq)]
pub struct Date {
    pub year: usize,
    pub month: usize,
    pub day: usize,
}

impl Date {
    // Does the calendar have this date, in the years from 1970 to 2199?
    #[tactic(auto, unfolding(crate::specs::Dates::exists))]
    pub fn exists(self) -> bool
        ensures { result ≡ existing self }
    {
        (1970..=2199).contains(&self.year)
            && (1..=12).contains(&self.month)
            && (1..=month_length(self.year, self.month)).contains(&self.day)
    }

    // How many days after 1 January 1970 this date is.
    #[tactic(auto, using(crate::proofs::DateLaws::exists_is), unfolding(crate::specs::Dates::day_number_of))]
    pub fn day_number(self) -> Result<usize, WindowError>
        ensures { result ≡ day_number_of self }
    {
        if !self.exists() {
            return Err(WindowError::NoSuchDate);
        }
        Ok(days_before(self))
    }
}
