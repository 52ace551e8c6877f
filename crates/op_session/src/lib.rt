//! open, openr, extend and fstat over rows as they are read. No operation of a script sends them yet.
#![tactic(auto)]

mod held;
mod next;
mod opening;
mod task;

pub use task::{HeldCall, OpenMode, SessionTask, SessionWork};
