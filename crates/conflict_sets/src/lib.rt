//! What a transaction read and wrote, when a later write meets what was read, and the law of entries.
#![tactic(auto)]

mod conflict;
mod law;
mod order;
mod sets;

pub use conflict::first_conflict;
pub use law::EntryLaw;
pub use order::compare;
pub use sets::{Got, KeyRead, RangeRead, ReadSet, Write, WriteSet};
