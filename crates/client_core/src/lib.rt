//! Plans, and what a client of one asks for, step by step.
#![tactic(auto)]

mod descriptors;
mod messages;
mod plan;
mod state;
mod steps;

pub use descriptors::{DESCRIPTORS, Descriptor, Descriptors};
pub use messages::{ClientAnswer, ClientAsk};
pub use plan::{Op, Plan, Schedule, Script, Stop, StopAfter};
pub use state::ClientState;
