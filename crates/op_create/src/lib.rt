//! mkdir, create and symlink over rows as they are read.
#![tactic(auto)]

mod next;
mod rows;
mod task;

pub use task::CreateTask;
