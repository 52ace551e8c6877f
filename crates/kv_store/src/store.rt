ghost use Rattle.std.specs.Prelude.{◌≡◌, ◌≤◌, ◌<◌, ◌+◌, [], ◌∷◌, ◌++◌, length, take, None, IfOk, IfErr, IfSome, IfNone, OnOk, ℕ};
ghost use Rattle.conflict_sets.specs.Rows.{IsAscending, value_at_key, rows_between};
ghost use Rattle.conflict_sets.specs.Reads.{RowsAgree};
ghost use Rattle.kv_store.specs.Journal.{rows_at, last_writer, first_later, IsAgreedJournal};

use crate::chains::{Chains, add_all, opening_chains, seen};
use crate::later::{first_after, later_in};
use crate::read::got;
use crate::rows::between;
use conflict_sets::{EntryLaw, Got, ReadSet, compare};
use fs_base::limits::JOURNAL_ENTRIES;
use fs_base::{Config, Items, Memory, Row, Text};
use std::alloc::Global;
use std::marker::Model;

/// The opening rows and a journal of entries. The version of an entry is its place, from 1; version 0 is the
/// opening.
///
/// It keeps the versions of each key with their values, so that a read is a search in one chain, and a commit
/// looks
/// at the chains of what it read.
/// It keeps at most 200,000 entries. The configuration is remembered for contracts alone.
#[derive(Drop)]
pub struct KvState<E: EntryLaw> {
    config: Config,
    opening: Items<Row>,
    journal: Vec<E>,
    chains: Chains,
}

impl<E: EntryLaw> Model for KvState<E> {
    ghost use Rattle.kv_store.specs.Store.{Store, IsIndexed};

    ghost Value = { Store E };

    ghost view = { λ s. record { config = s.config; opening = s.opening; journal = s.journal.items } };

    ghost invariant = { λ s. IsIndexed E.reads_of E.writes_of E.good E.sound
        (record { config = s.config; opening = s.opening; journal = s.journal.items }) s.chains.entries };
}

/// Why a commit was refused.
#[derive(Debug, Drop)]
pub enum CommitError {
    /// The least later version that wrote something read, with the least such key of that version.
    Conflict(u64, Text),
    /// The journal has 200,000 entries.
    Full,
    Memory,
}

/// An entry that was refused, handed back as it was.
#[derive(Drop)]
pub struct Refused<E> {
    pub entry: E,
    pub why: CommitError,
}

impl<E: EntryLaw> KvState<E> {
    ghost use Rattle.kv_store.specs.Causes.{HasCommitCause};

    /// A store with these rows and an empty journal.
    pub fn new(alloc: Global, config: &Config, rows: Items<Row>) -> Result<KvState<E>, Memory>
        requires ascending { IsAscending rows }
        requires good { E.good config.now rows }
        ensures { IfOk result (λ store. store ≡ record { config = config.now; opening = rows; journal = [] }) }
    {
        let chains = opening_chains(alloc, rows.as_slice())?;
        Ok(KvState {
            config: *config,
            opening: rows,
            journal: Vec::new(alloc),
            chains,
        })
    }

    /// The number of entries, which is the newest version.
    pub fn front(&self) -> u64
        ensures front { result ≡ length self.now.journal }
        ensures few { result ≤ JOURNAL_ENTRIES }
    {
        let _opening = &self.opening;
        self.journal.len() as u64
    }

    /// What every store keeps: the rows are good at every version. It does nothing.
    pub fn facts(&self)
        ensures ascending { IsAscending self.now.opening }
        ensures few { length self.now.journal ≤ JOURNAL_ENTRIES }
        ensures good { (n : ℕ)
            → E.good self.now.config (rows_at E.writes_of self.now.opening self.now.journal n) }
        ensures run { IsAgreedJournal E.reads_of E.writes_of (E.sound self.now.config) self.now.opening self.now.journal }
    {
        let _opening = &self.opening;
    }

    /// The value of a key at a version, with the version that last wrote it.
    pub fn get_at(&self, version: u64, key: &[u8]) -> Result<Got, Memory>
        requires { version ≤ length self.now.journal }
        ensures value { IfOk result
            (λ got. got.value
            ≡ value_at_key (rows_at E.writes_of self.now.opening self.now.journal version) key.now) }
        ensures version { IfOk result (λ got. got.version ≡ last_writer E.writes_of self.now.journal version key.now) }
    {
        let key = Text::from_slice(*self.journal.allocator(), key)?;
        got(seen(&self.chains, &key, version))
    }

    /// The first `limit` rows at a version from `lo` up to, and without, `hi`, in the order of keys.
    pub fn range_at(
        &self,
        version: u64,
        lo: &[u8],
        hi: &[u8],
        limit: u32,
    ) -> Result<Items<Row>, Memory>
        requires { version ≤ length self.now.journal }
        ensures { IfOk result
            (λ rows. rows
            ≡ rows_between (rows_at E.writes_of self.now.opening self.now.journal version) lo.now hi.now
            limit) }
    {
        let alloc = *self.journal.allocator();
        if compare(lo, hi).is_gt() {
            return Ok(Items::new(alloc));
        }
        between(alloc, &self.chains, version, lo, hi, limit)
    }

    /// Adds an entry whose reads agree with the rows at `snapshot`, unless an entry after that version wrote
    /// something that it read. It takes its memory before it changes the store.
    ///
    /// This is the optimistic rule of FoundationDB's documentation: a transaction reads at one version, and
    /// conflicts where a later commit wrote what it read.
    pub fn commit(&mut self, snapshot: u64, entry: E) -> Result<u64, Refused<E>>
        requires snapshot { snapshot ≤ length self.old.journal }
        requires sound { E.sound self.old.config entry }
        requires agreed { RowsAgree (rows_at E.writes_of self.old.opening self.old.journal snapshot) (E.reads_of entry) }
        ensures ok { OnOk result (self.new ≡ record self.old { journal = self.old.journal ++ entry ∷ [] }) }
        ensures version { IfOk result (λ version. version ≡ length self.old.journal + 1) }
        ensures alone { OnOk result (first_later E.writes_of self.old.journal snapshot (E.reads_of entry) ≡ None) }
        ensures room { OnOk result (length self.old.journal < JOURNAL_ENTRIES) }
        ensures err { IfErr result (λ refused. (self.new ≡ self.old) × (refused.entry ≡ entry)) }
        ensures cause { IfErr result
            (λ refused. HasCommitCause (first_later E.writes_of self.old.journal snapshot (E.reads_of entry))
            (length self.old.journal) refused.why) }
    {
        if let Some(why) = self.refusal(snapshot, entry.reads()) {
            return Err(Refused { entry, why });
        }
        let alloc = *self.journal.allocator();
        let front = self.front();
        if self.journal.reserve(1).is_err()
            || add_all(alloc, &mut self.chains, front, entry.writes()).is_err()
        {
            return Err(Refused {
                entry,
                why: CommitError::Memory,
            });
        }
        self.journal.push_reserved(entry);
        Ok(self.journal.len() as u64)
    }

    /// Why a commit with these reads at `snapshot` is refused, if it is.
    fn refusal(&self, snapshot: u64, reads: &ReadSet) -> Option<CommitError>
        requires { snapshot ≤ length self.now.journal }
        ensures alone { IfNone result (first_later E.writes_of self.now.journal snapshot reads.now ≡ None) }
        ensures room { IfNone result (length self.now.journal < JOURNAL_ENTRIES) }
        ensures cause { IfSome result
            (λ why. HasCommitCause (first_later E.writes_of self.now.journal snapshot reads.now)
            (length self.now.journal) why) }
    {
        let place = self.first_touched(snapshot, reads);
        let later = later_in(&self.journal.as_slice()[place as usize..], place, reads);
        match later {
            Some((version, key)) => match key.try_clone() {
                Ok(key) => Some(CommitError::Conflict(version, key)),
                Err(Memory) => Some(CommitError::Memory),
            },
            None if self.journal.len() == JOURNAL_ENTRIES => Some(CommitError::Full),
            None => None,
        }
    }

    /// The place of the first entry from `snapshot` on that wrote something read, or the end.
    fn first_touched(&self, snapshot: u64, reads: &ReadSet) -> u64
        requires { snapshot ≤ length self.now.journal }
        ensures skips { first_later E.writes_of self.now.journal snapshot reads.now
            ≡ first_later E.writes_of self.now.journal result reads.now }
        ensures within { result ≤ length self.now.journal }
        ensures few { length self.now.journal ≤ JOURNAL_ENTRIES }
    {
        let next = self.journal.len() as u64 + 1;
        first_after(&self.chains, reads, snapshot, next) - 1
    }

    /// The opening rows and the journal.
    pub fn into_parts(self) -> (Items<Row>, Items<E>)
        ensures opening { result.0 ≡ self.opening }
        ensures journal { result.1 ≡ self.journal }
    {
        let KvState {
            config: _,
            opening,
            journal,
            chains: _,
        } = self;
        (opening, Items::from_vec(journal))
    }
}
