ghost use Rattle.std.specs.Prelude.{ℕ, List, []};
ghost use Rattle.fs_base.specs.Config.{Settings};
ghost use Rattle.fs_base.specs.declared.row.Row.{Row};
ghost use Rattle.conflict_sets.specs.declared.sets.ReadSet.{ReadSet};
ghost use Rattle.conflict_sets.specs.Rows.{IsAscending};
ghost use Rattle.kv_store.specs.Commits.{IsCommitted};
ghost use Rattle.kv_store.specs.Journal.{rows_at, first_later};
ghost use Rattle.kv_store.specs.Later.{IsFirstConflict};

use conflict_sets::EntryLaw;

/// The law of optimistic commits: sound entries that read at snapshots, and of whose reads nothing was
/// written before
/// their own places, keep the rows good at every version. It does nothing; its contract is the law.
pub fn optimistic_commits<E: EntryLaw>()
    ensures { (config : Settings) (opening : List Row) (snapshots : List ℕ) (journal : List E)
        → IsAscending opening → E.good config opening
        → IsCommitted E.reads_of E.writes_of (E.sound config) opening [] snapshots journal → (n : ℕ)
        → E.good config (rows_at E.writes_of opening journal n) }
{}

/// What the first later write is: no entry from the snapshot on wrote anything that the reads hold, or the
/// entry of
/// that version is the first that did, and the key is the least such. It does nothing; its contract is the
/// law.
pub fn first_later_is_least<E: EntryLaw>()
    ensures { (journal : List E) (snapshot : ℕ) (reads : ReadSet)
        → IsFirstConflict E.writes_of journal snapshot reads
        (first_later E.writes_of journal snapshot reads) }
{}
