//! A request that is served: its asks, each answered by one object.
#![tactic(auto)]

mod answers;
mod exchanges;
mod nodes;
mod requests;

pub use answers::{answer, sound_store};
pub use exchanges::exchange;
pub use nodes::node_answer;
pub use requests::{Serving, begin, serve};
