//! Objects behind turns: threads have each object one after another, and carry what they have seen of it.
#![tactic(auto)]

mod board;
mod closing;
mod held;
mod opening;
mod pass;
mod plays;
mod steps;
mod turns;
mod view;

pub use board::Board;
pub use held::Held;
pub use pass::Pass;
pub use view::View;
