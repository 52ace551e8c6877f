//! rename over rows as they are read.
#![tactic(auto)]

mod climb;
mod next;
mod place;
mod replace;
mod rows;
mod source;
mod task;

pub use task::RenameTask;
