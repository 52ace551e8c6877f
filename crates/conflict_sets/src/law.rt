ghost use Rattle.std.specs.Prelude.{◌≡◌};

use crate::sets::{ReadSet, WriteSet};

/// A transaction as a journal keeps it, and what it owes to the rows.
///
/// Which rows are good, and which entries are sound, is said by the implementor, for each configuration.
pub trait EntryLaw: Drop {
    ghost use Rattle.std.specs.Prelude.{List};
    ghost use Rattle.fs_base.specs.Config.{Settings};
    ghost use Rattle.fs_base.specs.declared.row.Row.{Row};
    ghost use Rattle.conflict_sets.specs.Rows.{IsAscending, with_writes};
    ghost use Rattle.conflict_sets.specs.Reads.{RowsAgree};
    ghost use Rattle.conflict_sets.specs.declared.sets.ReadSet.{ReadSet};
    ghost use Rattle.conflict_sets.specs.declared.sets.WriteSet.{WriteSet};

    /// What it read.
    ghost reads_of: { Self → ReadSet };

    /// What it writes.
    ghost writes_of: { Self → WriteSet };

    /// Which rows are good.
    ghost good: { Settings → List Row → Type 0 };

    /// What an entry owes.
    ghost sound: { Settings → Self → Type 0 };

    /// What it read, at one version.
    fn reads(&self) -> &ReadSet
        ensures { result.now ≡ reads_of self.now };

    /// What it writes, all of it or nothing.
    fn writes(&self) -> &WriteSet
        ensures { result.now ≡ writes_of self.now };

    /// A sound entry leads good rows that agree with its reads to good rows.
    ghost keeps_good: { (config : Settings) (entry : Self) (rows : List Row) → IsAscending rows → sound config entry → good config rows → RowsAgree rows (reads_of entry) → good config (with_writes rows (writes_of entry).writes) };
}
