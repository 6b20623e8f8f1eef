// What the programs share: arguments, numbers, dates and lists of judgments in text, a sheet or a list read from
// standard input or a file, the text that is answered, a new file, and failures said on standard error.
#![tactic(auto)]

pub mod arguments;
mod dates;
pub mod failures;
pub mod input;
mod lines;
pub mod listing;
pub mod numbers;
pub mod output;
pub mod parts;
pub mod replies;

pub use crate::lines::{BatchText, Line};
