//! The walk of a path over rows as they are read, and what each step of an operation owes.
#![tactic(auto)]

mod directory;
mod requests;
mod rows;
mod stage;
mod walk;

pub use directory::{InDir, in_dir};
pub use requests::is_built;
pub use rows::{in_range, put_gone, put_joined, put_unlinked, recounted};
pub use stage::{Reached, Stage, forget};
pub use walk::{Walk, WalkError, WalkStep};
