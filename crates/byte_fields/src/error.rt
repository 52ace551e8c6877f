ghost use Rattle.byte_fields.specs.declared.error.FieldError.TheVariants.{Memory as NoMemory};
ghost use Rattle.std.specs.Prelude.{◌≡◌};

use fs_base::Memory;
use thiserror::Error;

/// Why a field doesn't read.
#[derive(Clone, Copy, Debug, PartialEq, Eq, Error)]
pub enum FieldError {
    /// How many bytes are left where the field begins.
    #[error("a field doesn't read, {0} bytes before the end")]
    Unread(usize),
    #[error("out of memory")]
    Memory,
}

/// Why bytes are no record.
#[derive(Clone, Copy, Debug, PartialEq, Eq, Error)]
pub enum RowError {
    /// Where the first field that doesn't read begins, or where the spelling ends if bytes follow it.
    #[error("not a record at byte {0}")]
    NotARecord(usize),
    #[error("out of memory")]
    Memory,
}

impl From<Memory> for FieldError {
    ghost from_gives = { λ _ e. e ≡ NoMemory };

    fn from(_e: Memory) -> FieldError {
        FieldError::Memory
    }
}
