ghost use Rattle.std.specs.Prelude.{◌≡◌, IfOk};
ghost use Rattle.std.specs.Option.{option_map};
ghost use Rattle.txn_task.specs.Pages.{first_read};
ghost use Rattle.txn_task.specs.Wanted.{IsWantFirst, IsWantRange};

use crate::messages::Ask;
use crate::pages::reads_range;
use crate::txn::Txn;
use conflict_sets::RangeRead;
use fs_base::{InodeId, Memory, Text};
use key_schema::dir_range;
use std::alloc::Global;

/// Whether a range has rows, by its first row.
#[derive(Debug, Drop)]
pub enum WantFirst {
    /// The first row is still to be asked for.
    Ask(Ask),
    Empty,
    Used,
}

fn first_read<'a>(ranges: &'a [RangeRead], lo: &[u8], hi: &[u8]) -> Option<&'a RangeRead>
    ensures { option_map (λ read. read.now) result ≡ first_read lo.now hi.now ranges.now }
{
    ranges.iter().find(|read| reads_range(read, lo, hi, 1))
}

/// Whether there are rows from `lo` on and before `hi`. Only a read of it with a limit of 1 tells.
pub fn want_first(alloc: Global, txn: &Txn, lo: &[u8], hi: &[u8]) -> Result<WantFirst, Memory>
    ensures { IfOk result (λ want. IsWantFirst want txn.now.reads lo.now hi.now) }
{
    let Some(read) = first_read(txn.ranges(), lo, hi) else {
        let lo = Text::from_slice(alloc, lo)?;
        let hi = Text::from_slice(alloc, hi)?;
        return Ok(WantFirst::Ask(Ask::Range { lo, hi, limit: 1 }));
    };
    if read.rows.is_empty() {
        return Ok(WantFirst::Empty);
    }
    Ok(WantFirst::Used)
}

/// Whether a directory has entries.
pub fn want_range(alloc: Global, txn: &Txn, dir: InodeId) -> Result<WantFirst, Memory>
    ensures { IfOk result (λ want. IsWantRange want txn.now.reads dir) }
{
    let (lo, hi) = dir_range(dir);
    want_first(alloc, txn, lo.as_slice(), hi.as_slice())
}
