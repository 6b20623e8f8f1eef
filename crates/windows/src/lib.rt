// Reading windows: dates of the Gregorian calendar from 1970 to 2199, their day numbers, and a window of days that is
// open or closed on a date. Dates and windows are small values; any numbers may be handed over.
#![tactic(auto)]

pub mod access;
mod calendar;
pub mod dates;
pub mod errors;
