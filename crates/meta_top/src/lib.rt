//! The top call of `fs3meta`: from words and input to the text that is written and a status.
#![tactic(auto)]

mod edge;
mod top;

pub use edge::{command, exit_code};
pub use top::{Status, plain_main};
