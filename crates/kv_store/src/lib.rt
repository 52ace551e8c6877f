//! An ordered store of rows with a journal: reads at a version, and commits that meet no later write.
#![tactic(auto)]

mod chain;
mod chains;
mod later;
mod law;
mod read;
mod rows;
mod steps;
mod store;

pub use chain::{Version, VersionChain};
pub use law::{first_later_is_least, optimistic_commits};
pub use steps::Steps;
pub use store::{CommitError, KvState, Refused};
