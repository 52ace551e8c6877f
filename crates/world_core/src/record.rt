//! From a world to its record.

ghost use Rattle.std.specs.Prelude.{◌≡◌, ◌<◌, ◌++◌, ◌^◌, map, IfOk, OnOk};
ghost use Rattle.run_record.specs.Right.{conflicts_in, summary_of, waiting_in};
ghost use Rattle.request_run.specs.Entries.{entries_of};
ghost use Rattle.request_run.specs.Sound.{IsStoreOpening};
ghost use Rattle.seat_turns.specs.Seats.{receipts_in, scripts_of_seats};

use fs_base::{ClientId, Config, Items, Memory};
use kv_store::KvState;
use meta_task::MetaEntry;
use request_run::sound_store;
use run_record::{Listed, Record, counts_of};
use seat_turns::Seat;
use std::alloc::Global;
use txn_task::Entry;

fn ids(alloc: Global, seats: &[Seat]) -> Result<Items<ClientId>, Memory>
    ensures { IfOk result (λ ids. ids ≡ map (λ script. script.id) (scripts_of_seats seats.now)) }
{
    let mut ids = Items::new(alloc);
    for seat in seats {
        ids.push(seat.client.id())?;
    }
    Ok(ids)
}

fn append(all: &mut Items<Listed>, receipts: Items<Listed>) -> Result<(), Memory>
    ensures { OnOk result (all.new ≡ all.old ++ receipts) }
{
    for listed in receipts.into_vec() {
        all.push(listed)?;
    }
    Ok(())
}

fn receipts_of(seat: Seat) -> Items<Listed>
    ensures { result ≡ seat.receipts }
{
    let Seat {
        client: _,
        work: _,
        again: _,
        receipts,
    } = seat;
    receipts
}

fn receipts(alloc: Global, seats: Vec<Seat>) -> Result<Items<Listed>, Memory>
    ensures { IfOk result (λ receipts. receipts ≡ receipts_in seats.items) }
{
    let mut all = Items::new(alloc);
    for seat in seats {
        append(&mut all, receipts_of(seat))?;
    }
    Ok(all)
}

fn entries(alloc: Global, journal: Items<MetaEntry>) -> Result<Items<Entry>, Memory>
    ensures { IfOk result (λ entries. entries ≡ entries_of journal) }
{
    let mut entries = Items::new(alloc);
    for whole in journal.into_vec() {
        entries.push(whole.entry)?;
    }
    Ok(entries)
}

/// How many files are being deleted, once all entries are made: no more than there are entries, so one page
/// has their rows.
fn waiting_in(store: &KvState<MetaEntry>) -> Result<u64, Memory>
    requires { IsStoreOpening store.now }
    ensures { IfOk result (λ waiting. waiting ≡ waiting_in store.now.config (entries_of store.now.journal)) }
{
    sound_store(store);
    let from = [b'G', b'C', b'O', b'L'];
    let to = [b'G', b'C', b'O', b'M'];
    let rows = store.range_at(store.front(), from.as_slice(), to.as_slice(), u32::MAX)?;
    Ok(rows.len() as u64)
}

/// What is kept of a run.
pub(crate) fn record_of(
    alloc: Global,
    config: Config,
    store: KvState<MetaEntry>,
    seats: Vec<Seat>,
) -> Result<Record, Memory>
    requires few { conflicts_in (receipts_in seats.items) < 2 ^ 64 }
    requires open { IsStoreOpening store }
    requires config { store.config ≡ config }
    ensures config { IfOk result (λ run. run.config ≡ config) }
    ensures clients { IfOk result
        (λ run. run.clients ≡ map (λ script. script.id) (scripts_of_seats seats.items)) }
    ensures receipts { IfOk result (λ run. run.receipts ≡ receipts_in seats.items) }
    ensures entries { IfOk result (λ run. run.entries ≡ entries_of store.journal) }
    ensures summary { IfOk result (λ run. run.summary ≡ summary_of config run.clients run.receipts run.entries) }
{
    let clients = ids(alloc, seats.as_slice())?;
    let waiting = waiting_in(&store)?;
    let receipts = receipts(alloc, seats)?;
    let (_opening, journal) = store.into_parts();
    let entries = entries(alloc, journal)?;
    let summary = counts_of(
        alloc,
        clients.as_slice(),
        receipts.as_slice(),
        entries.as_slice(),
        waiting,
    )?;
    Ok(Record {
        config,
        clients,
        receipts,
        entries,
        summary,
    })
}
