//! One request over the store.
#![tactic(auto)]

mod attempt;
mod entry;
mod kept;
mod op;
mod state;
mod take;
mod task;
mod waiting;

pub use entry::MetaEntry;
pub use op::OpTask;
pub use task::MetaTask;
pub use waiting::Waiting;
