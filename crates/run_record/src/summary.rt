//! The counts of the end line.

ghost use Rattle.std.specs.Prelude.{◌≡◌, ◌<◌, ◌^◌, ◌++◌, slice_get, IfOk, OnOk};
ghost use Rattle.std.specs.List.{list_any};
ghost use Rattle.run_record.specs.Right.{conflicts_in, count_distinct, counts_of, is_named, is_same, ops_told, stops_told};

use crate::run::{Listed, Summary};
use fs_base::{ClientId, Items, Memory};
use std::alloc::Global;
use txn_task::Entry;

/// The counts of a run at whose end so many files are being deleted.
pub fn counts_of(
    alloc: Global,
    clients: &[ClientId],
    receipts: &[Listed],
    entries: &[Entry],
    waiting: u64,
) -> Result<Summary, Memory>
    requires { conflicts_in receipts.now < 2 ^ 64 }
    ensures { IfOk result (λ summary. summary ≡ counts_of clients.now receipts.now entries.now waiting) }
{
    let ops = ops_told(alloc, clients, receipts)?;
    let stops = stops_told(alloc, receipts)?;
    Ok(Summary {
        ops: count_distinct(ops.as_slice()),
        commits: entries.len() as u64,
        conflicts: conflicts_in(receipts),
        stops: count_distinct(stops.as_slice()),
        waiting,
    })
}

fn conflicts_in(receipts: &[Listed]) -> u64
    requires { conflicts_in receipts.now < 2 ^ 64 }
    ensures { result ≡ conflicts_in receipts.now }
{
    let mut conflicts = 0;
    for listed in receipts {
        conflicts += listed.receipt.conflicts.len() as u64;
    }
    conflicts
}

/// Whether the pair is one of these.
fn is_among(pair: (u64, u64), pairs: &[(u64, u64)]) -> bool
    ensures { result ≡ list_any (is_same pair) pairs.now }
{
    pairs
        .iter()
        .any(|other| pair.0 == other.0 && pair.1 == other.1)
}

/// How many different pairs there are: each counts where it stands last. The work grows with their square.
fn count_distinct(pairs: &[(u64, u64)]) -> u64
    ensures { result ≡ count_distinct pairs.now }
{
    let mut count = 0;
    for place in 0..pairs.len() {
        if !is_among(pairs[place], &pairs[place + 1..]) {
            count += 1;
        }
    }
    count
}

/// Whether the id of a receipt's client isn't the nil one.
fn is_named(clients: &[ClientId], client: u16) -> bool
    ensures { result ≡ is_named (slice_get clients.now client) }
{
    match clients.get(usize::from(client)) {
        Some(id) => id.0 != 0,
        None => false,
    }
}

/// The client and the operation of each receipt, the sweeper's excepted.
fn ops_told(
    alloc: Global,
    clients: &[ClientId],
    receipts: &[Listed],
) -> Result<Items<(u64, u64)>, Memory>
    ensures { IfOk result (λ pairs. pairs ≡ ops_told clients.now receipts.now) }
{
    let mut pairs = Items::new(alloc);
    for listed in receipts {
        if is_named(clients, listed.client) {
            pairs.push((u64::from(listed.client), u64::from(listed.receipt.op)))?;
        }
    }
    Ok(pairs)
}

fn push_stops(pairs: &mut Items<(u64, u64)>, gone: &Items<(u8, u32)>) -> Result<(), Memory>
    ensures { OnOk result (pairs.new ≡ pairs.old ++ gone.now) }
{
    for stop in gone.as_slice() {
        pairs.push((u64::from(stop.0), u64::from(stop.1)))?;
    }
    Ok(())
}

/// The server of each stop that took a request away, and which of its stops it was.
fn stops_told(alloc: Global, receipts: &[Listed]) -> Result<Items<(u64, u64)>, Memory>
    ensures { IfOk result (λ pairs. pairs ≡ stops_told receipts.now) }
{
    let mut pairs = Items::new(alloc);
    for listed in receipts {
        push_stops(&mut pairs, &listed.receipt.gone)?;
    }
    Ok(pairs)
}
