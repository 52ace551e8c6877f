ghost use Rattle.std.specs.Prelude.{◌≡◌, ◌↔◌, ◌∷◌, ◌++◌, [], length, None, Some, OnOk, OnErr, IfOk};
ghost use Rattle.std.specs.Option.{option_map};
ghost use Rattle.key_schema.specs.Keys.{spelled_key, IsValidKey};
ghost use Rattle.txn_task.specs.Agreeing.{AreWrites};
ghost use Rattle.txn_task.specs.Transactions.{started, with_answer, with_key, with_range, IsNews};
ghost use Rattle.txn_task.specs.Writes.{set_write, read_of, version_of};

use crate::messages::{Answer, Ask};
use crate::writes::set_in;
use conflict_sets::{Got, KeyRead, RangeRead, ReadSet, Write, WriteSet, compare};
use fs_base::{Items, Memory, Row, Text};
use key_schema::Key;
use std::alloc::Global;
use std::marker::Model;
use std::mem;

/// What an attempt has read since it began, all at one version, and what it would write.
///
/// It keeps bytes alone, as they came; what they tell of typed rows is read off them by `want_..`.
#[derive(Drop)]
pub struct Txn {
    snapshot: u64,
    reads: ReadSet,
    versions: Vec<u64>,
    writes: Vec<Write>,
}

impl Model for Txn {
    ghost use Rattle.std.specs.Coded.{codes};
    ghost use Rattle.conflict_sets.specs.contracts.sets.ReadSet as read_set;
    ghost use Rattle.conflict_sets.specs.contracts.sets.Write as write;
    ghost use Rattle.txn_task.specs.Transactions.{Transaction};

    ghost Value = { Transaction };

    ghost coded = { Prim.hlevel (codes, read_set.the_row.coded, write.the_row.coded) };

    ghost view = { λ t. record {
      snapshot = t.snapshot;
      reads = t.reads;
      versions = t.versions.items;
      writes = t.writes.items;
    } };

    ghost use Rattle.std.specs.Prelude.{◌≡◌, length};
    ghost use Rattle.conflict_sets.specs.Writes.{AreAscending};

    ghost invariant = { λ t. AreAscending t.writes.items × (length t.versions.items ≡ length t.reads.keys) };
}

fn no_reads(alloc: Global) -> ReadSet
    ensures { result ≡ record { keys = []; ranges = [] } }
{
    ReadSet {
        keys: Items::new(alloc),
        ranges: Items::new(alloc),
    }
}

/// The value read at a key, if it was read.
fn read_in<'a>(reads: &'a [KeyRead], key: &[u8]) -> Option<&'a Option<Text>>
    ensures { option_map (λ v. v.now) result ≡ read_of reads.now key.now }
{
    for read in reads {
        if compare(key, read.key.as_slice()).is_eq() {
            return Some(&read.value);
        }
    }
    None
}

/// The version that last wrote a key, if it was read.
fn version_in(reads: &[KeyRead], versions: &[u64], key: &[u8]) -> Option<u64>
    requires { length versions.now ≡ length reads.now }
    ensures { result ≡ version_of reads.now versions.now key.now }
{
    for (place, read) in reads.iter().enumerate() {
        if compare(key, read.key.as_slice()).is_eq() {
            return Some(versions[place]);
        }
    }
    None
}

fn copy_value(value: &Option<Text>) -> Result<Option<Text>, Memory>
    ensures { IfOk result (λ copy. copy ≡ value.now) }
{
    match value {
        None => Ok(None),
        Some(text) => Ok(Some(text.try_clone()?)),
    }
}

fn copy_row(row: &Row) -> Result<Row, Memory>
    ensures { IfOk result (λ copy. copy ≡ row.now) }
{
    let key = row.key.try_clone()?;
    let value = row.value.try_clone()?;
    Ok(Row { key, value })
}

fn copy_rows(alloc: Global, rows: &[Row]) -> Result<Items<Row>, Memory>
    ensures { IfOk result (λ copies. copies ≡ rows.now) }
{
    let mut copies = Items::new(alloc);
    for row in rows {
        copies.push(copy_row(row)?)?;
    }
    Ok(copies)
}

fn copy_keys(alloc: Global, keys: &[KeyRead]) -> Result<Items<KeyRead>, Memory>
    ensures { IfOk result (λ copies. copies ≡ keys.now) }
{
    let mut copies = Items::new(alloc);
    for read in keys {
        let key = read.key.try_clone()?;
        let value = copy_value(&read.value)?;
        copies.push(KeyRead { key, value })?;
    }
    Ok(copies)
}

fn copy_range(alloc: Global, range: &RangeRead) -> Result<RangeRead, Memory>
    ensures { IfOk result (λ copy. copy ≡ range.now) }
{
    let lo = range.lo.try_clone()?;
    let hi = range.hi.try_clone()?;
    let rows = copy_rows(alloc, range.rows.as_slice())?;
    let limit = range.limit;
    Ok(RangeRead {
        lo,
        hi,
        limit,
        rows,
    })
}

fn copy_ranges(alloc: Global, ranges: &[RangeRead]) -> Result<Items<RangeRead>, Memory>
    ensures { IfOk result (λ copies. copies ≡ ranges.now) }
{
    let mut copies = Items::new(alloc);
    for range in ranges {
        copies.push(copy_range(alloc, range)?)?;
    }
    Ok(copies)
}

impl Txn {
    /// Nothing is read or written, and the snapshot is 0, until it begins.
    pub fn new(alloc: Global) -> Txn
        ensures { result ≡ started 0 }
    {
        Txn {
            snapshot: 0,
            reads: no_reads(alloc),
            versions: Vec::new(alloc),
            writes: Vec::new(alloc),
        }
    }

    /// A new attempt at this version. What was read and written before is dropped.
    pub fn begin(&mut self, alloc: Global, version: u64)
        ensures { self.new ≡ started version }
    {
        self.snapshot = version;
        self.reads = no_reads(alloc);
        self.versions = Vec::new(alloc);
        self.writes = Vec::new(alloc);
    }

    /// The version that is read: that of the last begin.
    pub fn snapshot(&self) -> u64
        ensures { result ≡ self.now.snapshot }
    {
        self.snapshot
    }

    /// `Some` exactly where the key was read, with the value that was read.
    pub fn kept(&self, key: &[u8]) -> Option<Option<&[u8]>>
        ensures { option_map (option_map (λ v. v.now)) result ≡ read_of self.now.reads.keys key.now }
    {
        match read_in(self.reads.keys.as_slice(), key) {
            None => None,
            Some(None) => Some(None),
            Some(Some(value)) => Some(Some(value.as_slice())),
        }
    }

    /// The version that last wrote the key, 0 where no entry has: `Some` exactly where the key was read.
    #[tactic(auto, using(crate::proofs::WriteLaws::version_read))]
    pub fn written_by(&self, key: &[u8]) -> Option<u64>
        ensures version { result ≡ version_of self.now.reads.keys self.now.versions key.now }
        ensures read { (result ≡ None) ↔ (read_of self.now.reads.keys key.now ≡ None) }
    {
        version_in(self.reads.keys.as_slice(), self.versions.as_slice(), key)
    }

    /// How many keys were read.
    pub fn keys_read(&self) -> usize
        ensures { result ≡ length self.now.reads.keys }
    {
        self.reads.keys.len()
    }

    pub(crate) fn ranges(&self) -> &[RangeRead]
        ensures { result.now ≡ self.now.reads.ranges }
    {
        self.reads.ranges.as_slice()
    }

    fn note_key(&mut self, alloc: Global, key: &Key, got: &Got) -> Result<(), Memory>
        ensures ok { OnOk result
            (self.new ≡ record self.old {
              reads = with_key self.old.reads (spelled_key key.now) got.now.value;
              versions = self.old.versions ++ got.now.version ∷ [];
            }) }
        ensures err { OnErr result (self.new ≡ self.old) }
    {
        let key = Text::from_vec(key.write(alloc)?);
        let value = copy_value(&got.value)?;
        self.versions.push(got.version)?;
        if let Err(memory) = self.reads.keys.push(KeyRead { key, value }) {
            self.versions.pop();
            return Err(memory);
        }
        Ok(())
    }

    fn note_range(&mut self, range: RangeRead) -> Result<(), Memory>
        ensures ok { OnOk result (self.new ≡ record self.old { reads = with_range self.old.reads range }) }
        ensures err { OnErr result (self.new ≡ self.old) }
    {
        self.reads.ranges.push(range)
    }

    /// Adds the read that an answer tells of: a Get's, of a key that wasn't read, or a Range's.
    ///
    /// Without memory for it the transaction stays as it was.
    pub fn note(&mut self, alloc: Global, ask: &Ask, answer: &Answer) -> Result<(), Memory>
        requires { IsNews self.old.reads ask.now answer.now }
        ensures ok { OnOk result (self.new ≡ with_answer self.old ask.now answer.now) }
        ensures err { OnErr result (self.new ≡ self.old) }
    {
        match (ask, answer) {
            (Ask::Get(key), Answer::Got(got)) => self.note_key(alloc, key, got),
            (Ask::Range { lo, hi, limit }, Answer::Rows(rows)) => {
                let range = RangeRead {
                    lo: lo.try_clone()?,
                    hi: hi.try_clone()?,
                    limit: *limit,
                    rows: copy_rows(alloc, rows.as_slice())?,
                };
                self.note_range(range)
            }
            _ => Ok(()),
        }
    }

    /// Sets the write of a key: a value, or `None` where the key is to lose its own. It takes the place of an
    /// earlier write of the key. Every key is taken, also one that no store has: a server of 16, a session
    /// number 0.
    ///
    /// Without memory for it the transaction stays as it was.
    #[tactic(auto, using(crate::proofs::WriteLaws::ascending_put, crate::proofs::TxnLaws::are_writes_put))]
    pub fn put(&mut self, alloc: Global, key: &Key, value: Option<Vec<u8>>) -> Result<(), Memory>
        ensures ok { OnOk result
            (self.new ≡ record self.old
            { writes = set_write (spelled_key key.now) (option_map (λ v. v.items) value) self.old.writes }) }
        ensures err { OnErr result (self.new ≡ self.old) }
        ensures valid { IsValidKey key.now → AreWrites self.old.writes → AreWrites self.new.writes }
    {
        let key = Text::from_vec(key.write(alloc)?);
        let value = value.map(Items::from_vec);
        set_in(&mut self.writes, Write { key, value })
    }

    /// A copy of what was read.
    pub fn copy_reads(&self, alloc: Global) -> Result<ReadSet, Memory>
        ensures { IfOk result (λ reads. reads ≡ self.now.reads) }
    {
        let keys = copy_keys(alloc, self.reads.keys.as_slice())?;
        let ranges = copy_ranges(alloc, self.reads.ranges.as_slice())?;
        Ok(ReadSet { keys, ranges })
    }

    /// What is to be written; nothing is, from then on.
    pub fn take_writes(&mut self, alloc: Global) -> WriteSet
        ensures writes { result.writes ≡ self.old.writes }
        ensures left { self.new ≡ record self.old { writes = [] } }
    {
        let writes = mem::replace(&mut self.writes, Vec::new(alloc));
        WriteSet {
            writes: Items::from_vec(writes),
        }
    }

    /// What was read, and what is to be written.
    pub fn into_sets(self) -> (ReadSet, WriteSet)
        ensures { (result.0 ≡ self.reads) × (result.1.writes ≡ self.writes) }
    {
        let writes = WriteSet {
            writes: Items::from_vec(self.writes),
        };
        (self.reads, writes)
    }
}
