//! link, unlink and rmdir over rows as they are read.
#![tactic(auto)]

mod join;
mod link;
mod next;
mod rmdir;
mod task;
mod unlink;

pub use task::{LinkCall, LinkTask};
