//! What the programs share that run cases from a list: lines, words, rows and calls.
#![tactic(auto)]

mod calls;
mod lists;
mod rows;
mod words;

pub use calls::call_of;
pub use lists::{Bench, tell_all};
pub use rows::{Rows, edit, listed, row_of};
pub use words::{bytes_of, config_of, given, split};
