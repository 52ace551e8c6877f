//! The keys of the store, and their bytes.
#![tactic(auto)]

mod key;
mod order;
mod range;
mod read;

pub use key::{Key, KeyError, one_key_each};
pub use range::{dir_range, session_range};
