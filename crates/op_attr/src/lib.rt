//! lookup, stat, list, readlink and setattr over rows as they are read.
#![tactic(auto)]

mod next;
mod setattr;
mod task;

pub use task::{AttrCall, AttrTask};
