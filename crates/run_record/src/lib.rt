//! The record of a run, and the text of its replies.
#![tactic(auto)]

mod hex;
mod replies;
mod reply_text;
mod run;
mod summary;
mod text;

pub use replies::write_replies;
pub use run::{Listed, Record, Summary};
pub use summary::counts_of;
pub use text::text_of;
