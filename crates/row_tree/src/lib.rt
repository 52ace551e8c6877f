//! Rows of bytes, and the tree that they are the rows of.
#![tactic(auto)]

mod ascending;
mod clauses;
mod counting;
mod deciding;
mod into_tree;
mod new_store;
mod reading;
mod tree;
mod typed;

pub use new_store::opening_rows;
pub use tree::{TreeError, read_tree};
pub use typed::TypedRows;
