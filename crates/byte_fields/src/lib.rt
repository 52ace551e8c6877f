//! Fields of bytes: how they are read and written, each with its range.
#![tactic(auto)]

mod cursor;
mod error;
mod laws;
mod writer;

pub use cursor::Cursor;
pub use error::{FieldError, RowError};
pub use laws::fields_are_spelled;
pub use writer::Writer;
