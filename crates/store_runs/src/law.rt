//! A store whose law is that two keys have a value.

ghost use Rattle.std.specs.Prelude.{◌≡◌, [], ◌∷◌, IfOk};
ghost use Rattle.conflict_sets.specs.Rows.{IsAscending};
ghost use Rattle.store_runs.specs.TwoKeys.{HasBoth, SetsOne};

use conflict_sets::{EntryLaw, ReadSet, Write, WriteSet};
use fs_base::{Config, Items, Memory, Row, Text};
use kv_store::KvState;
use std::alloc::Global;

/// An entry that sets one key.
#[derive(Drop)]
pub struct Touch {
    pub reads: ReadSet,
    pub writes: WriteSet,
}

impl EntryLaw for Touch {
    ghost use Rattle.store_runs.specs.TwoKeys.{HasBoth, SetsOne, keeps_both};

    ghost reads_of = { λ entry. entry.reads };

    ghost writes_of = { λ entry. entry.writes };

    ghost good = { λ config rows. HasBoth rows };

    ghost sound = { λ config entry. SetsOne entry.writes.writes };

    ghost keeps_good = { λ config entry rows ascending sound good agrees. keeps_both rows entry.writes.writes ascending sound good };

    fn reads(&self) -> &ReadSet {
        &self.reads
    }

    fn writes(&self) -> &WriteSet {
        &self.writes
    }
}

fn row(alloc: Global, key: &[u8]) -> Result<Row, Memory>
    ensures { IfOk result (λ row. row ≡ record { key = key.now; value = 45 ∷ [] }) }
{
    Ok(Row {
        key: Text::from_slice(alloc, key)?,
        value: Text::from_slice(alloc, b"-")?,
    })
}

/// A row `-` at the keys `a` and `b`.
pub fn opening(alloc: Global) -> Result<Items<Row>, Memory>
    ensures ascending { IfOk result (λ rows. IsAscending rows) }
    ensures both { IfOk result (λ rows. HasBoth rows) }
{
    let mut rows = Items::new(alloc);
    rows.push(row(alloc, b"a")?)?;
    rows.push(row(alloc, b"b")?)?;
    Ok(rows)
}

/// A store with a row `-` at the keys `a` and `b`.
pub fn open(alloc: Global) -> Result<KvState<Touch>, Memory> {
    KvState::new(alloc, &Config::single(), opening(alloc)?)
}

pub fn no_reads(alloc: Global) -> ReadSet
    ensures { result ≡ record { keys = []; ranges = [] } }
{
    ReadSet {
        keys: Items::new(alloc),
        ranges: Items::new(alloc),
    }
}

/// The entry that has read this and sets a key.
pub fn setting(alloc: Global, reads: ReadSet, key: &[u8], value: &[u8]) -> Result<Touch, Memory>
    ensures reads { IfOk result (λ entry. entry.reads ≡ reads) }
    ensures sets { IfOk result (λ entry. SetsOne entry.writes.writes) }
{
    let mut writes = Items::new(alloc);
    let key = Text::from_slice(alloc, key)?;
    let value = Text::from_slice(alloc, value)?;
    writes.push(Write {
        key,
        value: Some(value),
    })?;
    Ok(Touch {
        reads,
        writes: WriteSet { writes },
    })
}
