//! What a commit has read before it, at its version.

ghost use Rattle.std.specs.Prelude.{◌≡◌, ◌≤◌, length, IfOk};
ghost use Rattle.conflict_sets.specs.Reads.{RowsAgree};
ghost use Rattle.kv_store.specs.Journal.{rows_at};

use crate::law::{Touch, no_reads};
use conflict_sets::{KeyRead, RangeRead, ReadSet};
use fs_base::{Memory, Text};
use kv_store::KvState;
use std::alloc::Global;

fn key_read(
    alloc: Global,
    store: &KvState<Touch>,
    version: u64,
    key: &[u8],
) -> Result<ReadSet, Memory>
    requires { version ≤ length store.now.journal }
    ensures { IfOk result
        (λ reads. RowsAgree
        (rows_at (λ (entry : Touch). entry.writes) store.now.opening store.now.journal version) reads) }
{
    let got = store.get_at(version, key)?;
    let mut reads = no_reads(alloc);
    let key = Text::from_slice(alloc, key)?;
    reads.keys.push(KeyRead {
        key,
        value: got.value,
    })?;
    Ok(reads)
}

fn range_read(
    alloc: Global,
    store: &KvState<Touch>,
    version: u64,
    lo: &[u8],
    hi: &[u8],
    limit: u32,
) -> Result<ReadSet, Memory>
    requires { version ≤ length store.now.journal }
    ensures { IfOk result
        (λ reads. RowsAgree
        (rows_at (λ (entry : Touch). entry.writes) store.now.opening store.now.journal version) reads) }
{
    let rows = store.range_at(version, lo, hi, limit)?;
    let mut reads = no_reads(alloc);
    let lo = Text::from_slice(alloc, lo)?;
    let hi = Text::from_slice(alloc, hi)?;
    reads.ranges.push(RangeRead {
        lo,
        hi,
        limit,
        rows,
    })?;
    Ok(reads)
}

/// A range in words, `LO-HI:LIMIT`.
pub fn range_of(words: &str) -> Option<(&str, &str, u32)> {
    let (lo, rest) = words.split_once('-')?;
    let (hi, limit) = rest.split_once(':')?;
    Some((lo, hi, limit.parse().ok()?))
}

/// What is read of a key or a range.
pub fn reads_of(
    alloc: Global,
    store: &KvState<Touch>,
    version: u64,
    words: &str,
) -> Result<ReadSet, Memory>
    requires { version ≤ length store.now.journal }
    ensures { IfOk result
        (λ reads. RowsAgree
        (rows_at (λ (entry : Touch). entry.writes) store.now.opening store.now.journal version) reads) }
{
    match range_of(words) {
        None => key_read(alloc, store, version, words.as_bytes()),
        Some((lo, hi, limit)) => {
            range_read(alloc, store, version, lo.as_bytes(), hi.as_bytes(), limit)
        }
    }
}
