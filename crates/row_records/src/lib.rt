//! The other rows, and calls and replies, as bytes.
#![tactic(auto)]

mod call_reading;
mod call_writing;
mod fields;
mod laws;
mod lists;
mod reply_reading;
mod reply_writing;
mod rows;

pub use byte_fields::RowError;
pub use call_reading::call_read;
pub use call_writing::call_write;
pub use laws::{calls_are_spelled, replies_are_spelled, rows_are_spelled};
pub use reply_reading::reply_read;
pub use reply_writing::reply_write;
pub use rows::{AllocRow, DentRow, GcRow, KeptRow, SessionRow};
