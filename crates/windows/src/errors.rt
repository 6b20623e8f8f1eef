// Why a date or a window is refused.
ghost use Rattle.std.specs.Prelude.{◌≡◌};
ghost use Rattle.windows.specs.Errors.{number_of};

// A date that the calendar lacks, or a window that ends before it begins. Neither has a place in a sheet.
#[derive(Clone, Copy, Debug, PartialEq, Eq)]
pub enum WindowError {
    NoSuchDate,
    Reversed,
}

impl WindowError {
    // The number of this refusal.
    pub fn number(self) -> usize
        ensures { result ≡ number_of self }
    {
        match self {
            WindowError::NoSuchDate => 15,
            WindowError::Reversed => 16,
        }
    }
}
