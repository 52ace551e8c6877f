//! One ask, answered by the store.

ghost use Rattle.std.specs.Prelude.{◌≡◌, ◌⊎◌, ◌≤◌, ◌<◌, ◌^◌, ℕ, length, IfOk, IfErr, OnOk};
ghost use Rattle.conflict_sets.specs.Reads.{RowsAgree};
ghost use Rattle.key_schema.specs.Keys.{IsKeyOf, IsSpellable};
ghost use Rattle.key_schema.specs.declared.key.Key.{Key};
ghost use Rattle.kv_store.specs.Causes.{HasCommitCause};
ghost use Rattle.kv_store.specs.Journal.{first_later};
ghost use Rattle.path_walk.specs.Sound.{IsSoundEntry};
ghost use Rattle.run_record.specs.Legal.{journal_rows, writes_of};
ghost use Rattle.txn_task.specs.declared.messages.Answer.TheVariants as answers;
ghost use Rattle.txn_task.specs.declared.messages.Ask.{Ask};
ghost use Rattle.txn_task.specs.declared.messages.Entry.{Entry};
ghost use Rattle.request_run.specs.Answered.{HasKey, IsAnswer, IsKeyed, IsAskSpellable, MayAnswer, Tells};
ghost use Rattle.request_run.specs.Entries.{entries_of, store_with_entry};
ghost use Rattle.run_record.specs.Sound.{IsSoundJournal};
ghost use Rattle.request_run.specs.Sound.{IsStoreOpening};

use fs_base::limits::JOURNAL_ENTRIES;
use fs_base::{ClientId, Memory, Text};
use key_schema::{Key, KeyError};
use kv_store::{CommitError, KvState, Refused};
use meta_task::MetaEntry;
use std::alloc::Global;
use txn_task::{Answer, Ask, Entry};

/// Tells what every store keeps that began with the root alone. It does nothing.
pub fn sound_store(store: &KvState<MetaEntry>)
    requires { IsStoreOpening store.now }
    ensures sound { IsSoundJournal store.now.config (entries_of store.now.journal) }
    ensures few { length store.now.journal ≤ JOURNAL_ENTRIES }
{
    store.facts();
}

/// Tells that a client's number has 16 bytes. It does nothing.
fn spellable_client(client: ClientId)
    ensures { client.0 < 2 ^ 128 }
{
    let _number: u128 = client.0;
}

/// Tells that each number of a key fits its bytes. It does nothing.
fn spellable(key: &Key)
    ensures { IsSpellable key.now }
{
    match key {
        Key::Alloc(_server) => {}
        Key::Dent(parent, _name) => {
            parent.get();
        }
        Key::Gc(id) => {
            id.get();
        }
        Key::Idem(client) => {
            spellable_client(*client);
        }
        Key::Inode(id) => {
            id.get();
        }
        Key::Session(id, client, number) => {
            id.get();
            spellable_client(*client);
            let _session = *number;
        }
    }
}

fn get(
    alloc: Global,
    store: &KvState<MetaEntry>,
    snapshot: u64,
    key: &Key,
) -> Result<Answer, Memory>
    requires open { IsStoreOpening store.now }
    requires snapshot { snapshot ≤ length (entries_of store.now.journal) }
    ensures answer { IfOk result
        (λ a. IsAnswer store.now.config (entries_of store.now.journal) (entries_of store.now.journal) snapshot
        (Ask.Get key.now) a) }
    ensures spelled { IsSpellable key.now }
{
    spellable(key);
    let bytes = key.write(alloc)?;
    let got = store.get_at(snapshot, bytes.as_slice())?;
    Ok(Answer::Got(got))
}

fn range(
    store: &KvState<MetaEntry>,
    snapshot: u64,
    lo: &Text,
    hi: &Text,
    limit: u32,
) -> Result<Answer, Memory>
    requires open { IsStoreOpening store.now }
    requires snapshot { snapshot ≤ length (entries_of store.now.journal) }
    ensures { IfOk result
        (λ a. IsAnswer store.now.config (entries_of store.now.journal) (entries_of store.now.journal) snapshot
        (Ask.Range lo.now hi.now limit) a) }
{
    let rows = store.range_at(snapshot, lo.as_slice(), hi.as_slice(), limit)?;
    Ok(Answer::Rows(rows))
}

/// Lets the entry go.
fn cause_of(refused: Refused<MetaEntry>) -> CommitError
    ensures { result ≡ refused.why }
{
    let Refused { entry: _, why } = refused;
    why
}

/// Adds an entry, or tells why it can't be.
fn commit(store: &mut KvState<MetaEntry>, snapshot: u64, entry: Entry) -> Result<u64, CommitError>
    requires open { IsStoreOpening store.old }
    requires snapshot { snapshot ≤ length (entries_of store.old.journal) }
    requires sound { IsSoundEntry store.old.config entry }
    requires agreed { RowsAgree (journal_rows store.old.config (entries_of store.old.journal) snapshot) entry.reads }
    ensures grown { OnOk result (store.new ≡ store_with_entry store.old entry) }
    ensures same { IfErr result (λ _. store.new ≡ store.old) }
    ensures ok { IfOk result
        (λ version. IsAnswer store.old.config (entries_of store.old.journal) (entries_of store.new.journal)
        snapshot (Ask.Commit entry) (answers.Committed version)) }
    ensures cause { IfErr result
        (λ why. HasCommitCause (first_later writes_of (entries_of store.old.journal) snapshot entry.reads)
        (length (entries_of store.old.journal)) why) }
    ensures keyed { IfErr result IsKeyed }
{
    sound_store(store);
    match store.commit(snapshot, MetaEntry { entry }) {
        Ok(version) => Ok(version),
        Err(refused) => Err(cause_of(refused)),
    }
}

/// A conflict's key from its bytes, which are all that the store knows of it; the request is told the key itself.
fn conflict(alloc: Global, version: u64, bytes: &Text) -> Result<Answer, Memory>
    requires { (key : Key) × IsKeyOf bytes.now key }
    ensures { IfOk result (λ a. (key : Key) × IsKeyOf bytes.now key × (a ≡ answers.Conflict version key)) }
{
    match Key::read(alloc, bytes.as_slice()) {
        Ok(key) => Ok(Answer::Conflict(version, key)),
        Err(KeyError::NotAKey) => unreachable!(),
        Err(KeyError::Memory) => Err(Memory),
    }
}

/// What the task learns of a commit that was refused.
fn refusal(alloc: Global, why: CommitError) -> Result<Answer, Memory>
    requires { IsKeyed why }
    ensures tells { IfOk result (λ a. Tells why a) }
    ensures key { IfOk result HasKey }
{
    match why {
        CommitError::Conflict(version, bytes) => {
            let answer = conflict(alloc, version, &bytes)?;
            Ok(answer)
        }
        CommitError::Full => Ok(Answer::StoreFull),
        CommitError::Memory => Err(Memory),
    }
}

/// A commit's answer.
fn commit_answer(
    alloc: Global,
    store: &mut KvState<MetaEntry>,
    snapshot: u64,
    entry: Entry,
) -> Result<Answer, Memory>
    requires open { IsStoreOpening store.old }
    requires snapshot { snapshot ≤ length (entries_of store.old.journal) }
    requires sound { IsSoundEntry store.old.config entry }
    requires agreed { RowsAgree (journal_rows store.old.config (entries_of store.old.journal) snapshot) entry.reads }
    ensures answer { IfOk result
        (λ a. IsAnswer store.old.config (entries_of store.old.journal) (entries_of store.new.journal) snapshot
        (Ask.Commit entry) a) }
    ensures key { IfOk result HasKey }
    ensures grows { (store.new ≡ store.old) ⊎ (store.new ≡ store_with_entry store.old entry) }
{
    match commit(store, snapshot, entry) {
        Ok(version) => Ok(Answer::Committed(version)),
        Err(why) => {
            let answer = refusal(alloc, why)?;
            Ok(answer)
        }
    }
}

/// One ask, answered by the store at the snapshot.
pub fn answer(
    alloc: Global,
    store: &mut KvState<MetaEntry>,
    snapshot: u64,
    ask: Ask,
) -> Result<Answer, Memory>
    requires open { IsStoreOpening store.old }
    requires may { MayAnswer store.old.config (entries_of store.old.journal) snapshot ask }
    ensures answer { IfOk result
        (λ a. IsAnswer store.old.config (entries_of store.old.journal) (entries_of store.new.journal) snapshot
        ask a) }
    ensures key { IfOk result HasKey }
    ensures spelled { IsAskSpellable ask }
    ensures grows { (store.new ≡ store.old)
        ⊎ ((entry : Entry) × (ask ≡ Ask.Commit entry) × (store.new ≡ store_with_entry store.old entry)) }
{
    match ask {
        Ask::Begin => Ok(Answer::Begun(store.front())),
        Ask::Get(key) => {
            let answer = get(alloc, store, snapshot, &key)?;
            Ok(answer)
        }
        Ask::Range { lo, hi, limit } => {
            let answer = range(store, snapshot, &lo, &hi, limit)?;
            Ok(answer)
        }
        Ask::Commit(entry) => {
            let answer = commit_answer(alloc, store, snapshot, entry)?;
            Ok(answer)
        }
        _ => unreachable!(),
    }
}
