ghost use Rattle.std.specs.Prelude.{◌≡◌, ℕ, Result, IfOk};
ghost use Rattle.meta_task.specs.Steps.{TellsKept, TellsRow};

use byte_fields::RowError;
use fs_base::{Memory, Reply, Text};
use row_records::KeptRow;
use std::alloc::Global;

/// What a client's kept reply tells of a request's number.
#[derive(Debug, Drop)]
pub(crate) enum Kept {
    /// None is kept, or that of a smaller number.
    Earlier,
    /// The request's own.
    Same(Reply),
    /// That of this greater number.
    Later(u64),
}

fn kept_row(row: KeptRow, number: u64) -> Kept
    ensures { TellsRow row number result }
{
    if row.number == number {
        return Kept::Same(row.reply);
    }
    if row.number < number {
        return Kept::Earlier;
    }
    Kept::Later(row.number)
}

/// What stands at the client's key tells. Bytes that are no row stand in no store of well-formed rows.
pub(crate) fn kept_of(alloc: Global, value: &Option<Text>, number: u64) -> Result<Kept, Memory>
    ensures { IfOk result (λ kept. TellsKept value.now number kept) }
{
    let Some(bytes) = value else {
        return Ok(Kept::Earlier);
    };
    match KeptRow::read(alloc, bytes.as_slice()) {
        Ok(row) => Ok(kept_row(row, number)),
        Err(RowError::NotARecord(_)) => Ok(Kept::Earlier),
        Err(RowError::Memory) => Err(Memory),
    }
}
