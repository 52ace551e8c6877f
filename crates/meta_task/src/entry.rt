ghost use Rattle.std.specs.Prelude.{◌≡◌};

use conflict_sets::{EntryLaw, ReadSet, WriteSet};
use txn_task::Entry;

/// An entry of the journal, for the store.
#[derive(Debug, Drop)]
pub struct MetaEntry {
    pub entry: Entry,
}

impl EntryLaw for MetaEntry {
    ghost use Rattle.row_tree.specs.HasTree.{AreWellFormed};
    ghost use Rattle.path_walk.specs.Sound.{IsSoundEntry};
    ghost use Rattle.path_walk.proofs.PutLaws.{sound_keeps_good};

    ghost reads_of = { λ e. e.entry.reads };

    ghost writes_of = { λ e. e.entry.writes };

    ghost good = { AreWellFormed };

    ghost sound = { λ C e. IsSoundEntry C e.entry };

    fn reads(&self) -> &ReadSet {
        &self.entry.reads
    }

    fn writes(&self) -> &WriteSet {
        &self.entry.writes
    }

    ghost keeps_good = { λ C e rows asc sound good agrees. sound_keeps_good C e.entry rows asc sound good agrees };
}
