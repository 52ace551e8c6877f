//! Boards at work: a list of numbers, and a list of entries with errands to which two threads add.
#![tactic(auto)]

mod log;
mod numbers;
#[cfg(test)]
mod tests;
mod threads;

pub use log::{Entry, Log, add_entry};
pub use numbers::{Numbers, add_number, copy_of};
pub use threads::two_threads;
