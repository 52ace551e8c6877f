ghost use Rattle.std.specs.Prelude.{◌≡◌, ◌<◌, ◌≤◌, ◌+◌, ℕ, List, length, true};
ghost use Rattle.std.specs.Option.{option_map, option_copied};
ghost use Rattle.std.specs.List.{list_any};
ghost use Rattle.std.specs.Ordering.{is_eq, is_ge, is_le};
ghost use Rattle.conflict_sets.specs.Keys.{key_cmp};
ghost use Rattle.conflict_sets.specs.Reads.{first_held, reads_hold, range_holds};
ghost use Rattle.kv_store.specs.Journal.{later_from};
ghost use Rattle.kv_store.specs.Chains.{AreOutside};
ghost use Rattle.conflict_sets.specs.Rows.{is_inside};
ghost use Rattle.kv_store.specs.Versions.{chain_at, AllOutside};

use crate::chain::VersionChain;
use crate::chains::Chains;
use conflict_sets::{EntryLaw, KeyRead, RangeRead, ReadSet, WriteSet, compare, first_conflict};
use fs_base::Text;
use fs_base::limits::JOURNAL_ENTRIES;
use std::collections::btree_map::Range;

/// The first of these entries that wrote something read, by its version, with its first such key. They follow
/// `version`.
pub fn later_in<'a, E: EntryLaw>(
    entries: &'a [E],
    version: u64,
    reads: &ReadSet,
) -> Option<(u64, &'a Text)>
    requires few { version + length entries.now ≤ JOURNAL_ENTRIES }
    ensures { option_map (λ p. (p.0, p.1.now)) result ≡ later_from E.writes_of reads.now version entries.now }
{
    let mut at = version;
    for entry in entries {
        at += 1;
        if let Some(key) = held_key(reads, entry.writes()) {
            return Some((at, key));
        }
    }
    None
}

/// The first written key that the reads hold.
fn held_key<'a>(reads: &ReadSet, writes: &'a WriteSet) -> Option<&'a Text>
    ensures { option_copied result ≡ first_held reads.now writes.now.writes }
{
    let place = first_conflict(reads, writes)?;
    let write = &writes.writes.as_slice()[place];
    Some(&write.key)
}

/// The first version after this one that wrote something read, where it comes before `until`, and else
/// `until`.
///
/// It looks at the chains of the keys and ranges read, and at no other. A chain too many would do no harm,
/// since the key is found among the writes of the entry of that version; one too few would.
pub fn first_after(chains: &Chains, reads: &ReadSet, version: u64, until: u64) -> u64
    requires { version < until }
    ensures outside { (key : List ℕ) → reads_hold reads.now key ≡ true
        → AreOutside version result (chain_at chains.now.entries key) }
    ensures later { version < result }
    ensures until { result ≤ until }
{
    let until = after_keys(chains, reads.keys.as_slice(), version, until);
    after_ranges(chains, reads.ranges.as_slice(), version, until)
}

fn after_keys(chains: &Chains, reads: &[KeyRead], version: u64, until: u64) -> u64
    requires { version < until }
    ensures outside { (key : List ℕ) → list_any (λ read. is_eq (key_cmp key read.key)) reads.now ≡ true
        → AreOutside version result (chain_at chains.now.entries key) }
    ensures later { version < result }
    ensures until { result ≤ until }
{
    let mut first = until;
    for read in reads {
        first = after_key(chains, &read.key, version, first);
    }
    first
}

fn after_key(chains: &Chains, key: &Text, version: u64, until: u64) -> u64
    requires { version < until }
    ensures outside { AreOutside version result (chain_at chains.now.entries key.now) }
    ensures later { version < result }
    ensures until { result ≤ until }
{
    match chains.get(key) {
        None => until,
        Some(chain) => chain.first_after(version, until),
    }
}

fn after_ranges(chains: &Chains, reads: &[RangeRead], version: u64, until: u64) -> u64
    requires { version < until }
    ensures outside { (key : List ℕ) → list_any (λ read. range_holds read key) reads.now ≡ true
        → AreOutside version result (chain_at chains.now.entries key) }
    ensures later { version < result }
    ensures until { result ≤ until }
{
    let mut first = until;
    for read in reads {
        first = after_range(chains, read, version, first);
    }
    first
}

/// A range with as many rows as its limit was read up to its last row, any other up to its end.
fn after_range(chains: &Chains, read: &RangeRead, version: u64, until: u64) -> u64
    requires { version < until }
    ensures outside { (key : List ℕ) → range_holds read.now key ≡ true
        → AreOutside version result (chain_at chains.now.entries key) }
    ensures later { version < result }
    ensures until { result ≤ until }
{
    if read.rows.len() == read.limit as usize {
        match read.rows.as_slice().last() {
            None => until,
            Some(last) => after_row(chains, &read.lo, &last.key, version, until),
        }
    } else {
        before_end(chains, &read.lo, &read.hi, version, until)
    }
}

/// The same of the keys from `lo` up to, and with, `last`.
fn after_row(chains: &Chains, lo: &Text, last: &Text, version: u64, until: u64) -> u64
    requires { version < until }
    ensures outside { (key : List ℕ) → is_ge (key_cmp key lo.now) ≡ true → is_le (key_cmp key last.now) ≡ true
        → AreOutside version result (chain_at chains.now.entries key) }
    ensures later { version < result }
    ensures until { result ≤ until }
{
    if compare(lo.as_slice(), last.as_slice()).is_gt() {
        return until;
    }
    after_all(chains.range(lo..=last), version, until)
}

/// The same of the keys from `lo` up to, and without, `hi`.
fn before_end(chains: &Chains, lo: &Text, hi: &Text, version: u64, until: u64) -> u64
    requires { version < until }
    ensures outside { (key : List ℕ) → is_inside lo.now hi.now key ≡ true
        → AreOutside version result (chain_at chains.now.entries key) }
    ensures later { version < result }
    ensures until { result ≤ until }
{
    if compare(lo.as_slice(), hi.as_slice()).is_gt() {
        return until;
    }
    after_all(chains.range(lo..hi), version, until)
}

fn after_all(chains: Range<'_, Text, VersionChain>, version: u64, until: u64) -> u64
    requires { version < until }
    ensures outside { AllOutside version result chains.entry }
    ensures later { version < result }
    ensures until { result ≤ until }
{
    let mut first = until;
    for (_key, chain) in chains {
        first = chain.first_after(version, first);
    }
    first
}
