// The lengths of months and years, and the days before a date.
ghost use Rattle.std.specs.Prelude.{◌≡◌, false, ◌≤◌, ◌-◌, get_or};
ghost use Rattle.windows.specs.Calendar.{leap as leap_of, month_lengths, month_length};
ghost use Rattle.windows.specs.Calendar.{days_before_month, days_of_years};
ghost use Rattle.windows.specs.Dates.{Exists, day_number};

use crate::dates::Date;

// By month: the days of the months before it, in a year that is no leap year. A `match` of 13 arms is no plainer.
const BEFORE: [usize; 13] = [0, 0, 31, 59, 90, 120, 151, 181, 212, 243, 273, 304, 334];

// Is this a leap year?
#[tactic(auto, unfolding(crate::specs::Calendar::leap))]
fn leap(year: usize) -> bool
    ensures { result ≡ leap_of year }
{
    year % 4 == 0 && (year % 100 != 0 || year % 400 == 0)
}

// The days of a month in a year that is no leap year; a number that is no month has none. 31 stands in two arms for
// speed alone: so all are read of a table, where 7 and 8 in one arm get a branch, which random months mispredict.
#[tactic(auto, unfolding(crate::specs::Calendar::month_lengths))]
fn common_length(month: usize) -> usize
    ensures value { result ≡ get_or (month_lengths false) month 0 }
    ensures range { result ≤ 31 }
{
    match month {
        1 | 3 | 5 | 7 => 31,
        2 => 28,
        4 | 6 | 9 | 11 => 30,
        8 | 10 | 12 => 31,
        _ => 0,
    }
}

// The days of a month; a number that is no month has none. The leap day is added for speed alone: an arm with a
// condition, `2 if leap(year) => 29`, branches.
pub fn month_length(year: usize, month: usize) -> usize
    ensures { result ≡ month_length year month }
{
    let days = common_length(month);
    if leap(year) & (month == 2) {
        return days + 1;
    }
    days
}

// The days of a year before a month.
fn days_before_month(year: usize, month: usize) -> usize
    requires { month ≤ 12 }
    ensures value { result ≡ days_before_month year month }
    ensures range { result ≤ 335 }
{
    let days = BEFORE[month];
    if leap(year) & (2 < month) {
        return days + 1;
    }
    days
}

// The days from the first of January 1970 to that of a year: 365 for each year between and one more for each leap year.
// Of the leap years since year 1, 477 are before 1970.
#[tactic(auto, using(crate::proofs::CalendarLaws::year_closed))]
fn days_before_year(year: usize) -> usize
    requires { (1970 ≤ year) × (year ≤ 2199) }
    ensures value { result ≡ days_of_years (year - 1970) }
    ensures range { result ≤ 83641 }
{
    let last = year - 1;
    365 * (year - 1970) + (last / 4 - last / 100 + last / 400 - 477)
}

// The days from 1 January 1970 to a date that exists.
#[tactic(auto, using(crate::proofs::CalendarLaws::month_most), unfolding(crate::specs::Dates::day_number))]
pub fn days_before(date: Date) -> usize
    requires { Exists date }
    ensures { result ≡ day_number date }
{
    days_before_year(date.year) + days_before_month(date.year, date.month) + (date.day - 1)
}
