ghost use Rattle.std.specs.Prelude.{◌≡◌, IfSome, IfNone, None, position};
ghost use Rattle.std.specs.List.{list_any};
ghost use Rattle.std.specs.Ordering.{is_eq};
ghost use Rattle.conflict_sets.specs.Keys.{key_cmp};
ghost use Rattle.conflict_sets.specs.Reads.{is_up_to_last as up_to_last, range_holds as holds_range, reads_hold, first_held};
ghost use Rattle.conflict_sets.specs.Held.{HeldAt, LeastAt};

use crate::order::compare;
use crate::sets::{KeyRead, RangeRead, ReadSet, Write, WriteSet};
use fs_base::Row;

/// The place of the least written key that the reads hold.
///
/// The reads hold each key that was read, and each key in a range that was read: from its `lo` up to its last
/// row
/// where its rows are as many as its limit, and else up to, and without, its `hi`.
pub fn first_conflict(reads: &ReadSet, writes: &WriteSet) -> Option<usize>
    ensures place { result ≡ position (λ write. reads_hold reads.now write.key) writes.now.writes }
    ensures none { IfNone result (first_held reads.now writes.now.writes ≡ None) }
    ensures some { IfSome result (λ place. HeldAt reads.now writes.now.writes place) }
    ensures least { IfSome result (λ place. LeastAt reads.now writes.now.writes place) }
{
    held_place(reads, writes.writes.as_slice())
}

fn held_place(reads: &ReadSet, writes: &[Write]) -> Option<usize>
    ensures { result ≡ position (λ write. reads_hold reads.now write.key) writes.now }
{
    writes
        .iter()
        .position(|write| holds(reads, write.key.as_slice()))
}

fn holds(reads: &ReadSet, key: &[u8]) -> bool
    ensures { result ≡ reads_hold reads.now key.now }
{
    keys_hold(reads.keys.as_slice(), key) || ranges_hold(reads.ranges.as_slice(), key)
}

fn keys_hold(reads: &[KeyRead], key: &[u8]) -> bool
    ensures { result ≡ list_any (λ read. is_eq (key_cmp key.now read.key)) reads.now }
{
    reads
        .iter()
        .any(|read| compare(key, read.key.as_slice()).is_eq())
}

fn ranges_hold(reads: &[RangeRead], key: &[u8]) -> bool
    ensures { result ≡ list_any (λ read. holds_range read key.now) reads.now }
{
    reads.iter().any(|read| range_holds(read, key))
}

fn range_holds(read: &RangeRead, key: &[u8]) -> bool
    ensures { result ≡ holds_range read.now key.now }
{
    if compare(key, read.lo.as_slice()).is_lt() || compare(key, read.hi.as_slice()).is_ge() {
        return false;
    }
    if read.rows.len() == read.limit as usize {
        is_up_to_last(read.rows.as_slice(), key)
    } else {
        true
    }
}

fn is_up_to_last(rows: &[Row], key: &[u8]) -> bool
    ensures { result ≡ up_to_last rows.now key.now }
{
    match rows.last() {
        None => false,
        Some(row) => compare(key, row.key.as_slice()).is_le(),
    }
}
