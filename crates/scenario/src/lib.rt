//! Scenarios: the bytes of a JSON object, and the plan that they read as or the first rule that they break.
#![tactic(auto)]

mod broken;
mod clients;
mod json;
mod numbers;
mod ops;
mod read;
mod schedule;
mod stops;

pub use broken::{Broken, ScenarioError, too_long};
pub use read::read_scenario;
