//! The rows of inodes, and their bytes.
#![tactic(auto)]

mod inode;
mod laws;
mod reading;
mod writing;

pub use byte_fields::RowError;
pub use inode::{InodePart, InodeRow};
pub use laws::inodes_are_spelled;
