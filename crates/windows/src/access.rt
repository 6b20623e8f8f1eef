// Windows of days in which a sheet is open.
ghost use Rattle.std.specs.Prelude.{◌≡◌};
ghost use Rattle.windows.specs.Access.{window_of, open_on};

use crate::dates::Date;
use crate::errors::WindowError;

// From the first date's day to the last date's day, both included.
#[derive(Clone, Copy, Debug, PartialEq, Eq)]
pub struct Window {
    pub first: Date,
    pub last: Date,
}

// Whether the sheet is open on a day.
#[derive(Clone, Copy, Debug, PartialEq, Eq)]
pub enum Access {
    Open,
    Closed,
}

impl Window {
    // The window from one date to another.
    #[tactic(auto, unfolding(crate::specs::Access::window_of))]
    pub fn new(first: Date, last: Date) -> Window
        ensures { result ≡ window_of first last }
    {
        Window { first, last }
    }

    // Is the sheet open on this day?
    #[tactic(auto, unfolding(crate::specs::Access::open_on, crate::specs::Dates::day_number_of))]
    pub fn open_on(self, day: Date) -> Result<Access, WindowError>
        ensures { result ≡ open_on self day }
    {
        let first = self.first.day_number()?;
        let last = self.last.day_number()?;
        let asked = day.day_number()?;
        if last < first {
            return Err(WindowError::Reversed);
        }
        if (first..=last).contains(&asked) {
            Ok(Access::Open)
        } else {
            Ok(Access::Closed)
        }
    }
}
