//! What a storage node has done, and what its chunks are by that.
#![tactic(auto)]

mod bytes;
mod chunks;
mod history;
mod node;
mod runs;

pub use history::{Done, EndDone, WriteDone};
pub use node::{NodeError, NodeState};
pub use runs::{Run, runs_are_least};
