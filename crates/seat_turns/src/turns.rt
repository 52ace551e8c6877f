//! One turn of a client, over all clients and servers.

ghost use Rattle.std.specs.Prelude.{◌≡◌, ◌≤◌, ◌<◌, ℕ, Some, false, length, slice_get, IfOk, OnOk};
ghost use Rattle.client_core.specs.Client.{has_ended};
ghost use Rattle.client_core.specs.Plans.{AreDistinct};
ghost use Rattle.request_run.specs.Answered.{IsExchange};
ghost use Rattle.request_run.specs.Entries.{IsGrowth, IsGrowthOf, entries_of};
ghost use Rattle.request_run.specs.Served.{AreCovered, IsAskPending, IsTaskReady, IsTaskServed};
ghost use Rattle.request_run.specs.Sound.{IsStoreOpening};
ghost use Rattle.run_record.specs.Stops.{IsPlannedStop};
ghost use Rattle.seat_turns.specs.Events.{HasExchanged, IsEvent, IsTurnOf};
ghost use Rattle.seat_turns.specs.Kept.{IsSeat};
ghost use Rattle.seat_turns.specs.Left.{SeatsGoOn};
ghost use Rattle.seat_turns.specs.Seats.{AreSeated, scripts_of_seats};
ghost use Rattle.seat_turns.specs.Servers.{AreCounted, HasCounted, has_made};
ghost use Rattle.seat_turns.specs.declared.seats.Seat.{Seat as SeatView};
ghost use Rattle.seat_turns.specs.declared.seats.Work.{Work as WorkView};

use crate::ending::settle;
use crate::seats::{Seat, Work};
use crate::servers::Servers;
use crate::starting::start;
use crate::stopping::{lose_all, take_work};
use fs_base::limits::{ATTEMPTS, JOURNAL_ENTRIES, STOPS};
use fs_base::{Config, Memory};
use kv_store::KvState;
use meta_task::MetaEntry;
use request_run::{Serving, serve, sound_store};
use std::alloc::Global;

/// One ask of a request.
fn advance(alloc: Global, store: &mut KvState<MetaEntry>, work: Work) -> Result<Work, Memory>
    requires opened { IsStoreOpening store.old }
    requires served { IsTaskServed store.old.config work.task.attempts (entries_of store.old.journal) work.task.request
        work.front work.task }
    requires pending { IsAskPending store.old.config work.task work.ask }
    ensures served { IfOk result
        (λ new. IsTaskReady store.old.config work.task.attempts
        (entries_of store.new.journal) work.task.request
        work.front new.task new.ask) }
    ensures exchanged { IfOk result
        (λ new. IsExchange store.old.config (entries_of store.old.journal) (entries_of store.new.journal)
        work.task work.ask new.task new.ask) }
    ensures work { IfOk result (λ new. new ≡ record work { task = new.task; ask = new.ask }) }
    ensures grows { IsGrowthOf store.old store.new work.task.request }
    ensures few { OnOk result (length store.new.journal ≤ JOURNAL_ENTRIES) }
    ensures covered { AreCovered store.old.config (entries_of store.old.journal)
        → OnOk result (AreCovered store.old.config (entries_of store.new.journal)) }
{
    let Work {
        task,
        ask,
        server,
        front,
    } = work;
    let Serving { task, ask, front } = serve(alloc, store, Serving { task, ask, front })?;
    Ok(Work {
        task,
        ask,
        server,
        front,
    })
}

/// The server that was asked, and the number of the stop that came behind the ask.
#[derive(Clone, Copy, Debug)]
struct Asking {
    server: u8,
    stop: Option<u32>,
}

/// One ask of the client's request, which a server works on.
fn go_on(
    alloc: Global,
    store: &mut KvState<MetaEntry>,
    config: Config,
    attempts: u8,
    servers: &mut Servers,
    k: u16,
    seat: &mut Seat,
) -> Result<Asking, Memory>
    requires config { store.old.config ≡ config }
    requires opened { IsStoreOpening store.old }
    requires short { length store.old.journal ≤ JOURNAL_ENTRIES }
    requires few { length servers.old.stops ≤ STOPS }
    requires counted { AreCounted config servers.old.stops (entries_of store.old.journal) servers.old.counts.items }
    requires seat { IsSeat config attempts servers.old.stops (entries_of store.old.journal) k seat.old }
    requires covered { AreCovered config (entries_of store.old.journal) }
    requires there { (work : WorkView) × (seat.old.work ≡ Some work) }
    ensures stops { servers.new.stops ≡ servers.old.stops }
    ensures kept { OnOk result
        (IsSeat config attempts servers.old.stops (entries_of store.new.journal) k seat.new
        × AreCovered config (entries_of store.new.journal) × (length store.new.journal ≤ JOURNAL_ENTRIES)) }
    ensures counts { OnOk result
        (AreCounted config servers.old.stops (entries_of store.new.journal) servers.new.counts.items) }
    ensures planned { IfOk result (λ asking. (number : ℕ) → asking.stop ≡ Some number
        → IsPlannedStop servers.old.stops (entries_of store.new.journal) (asking.server, number)) }
    ensures exchanged { IfOk result
        (λ asking. HasExchanged config k asking.server asking.stop (entries_of store.old.journal)
        (entries_of store.new.journal) seat.old seat.new) }
    ensures counted { IfOk result
        (λ asking. HasCounted servers.old.stops asking.server
        (has_made (entries_of store.old.journal) (entries_of store.new.journal)) asking.stop
        servers.old.counts.items servers.new.counts.items) }
    ensures script { seat.new.client.script ≡ seat.old.client.script }
    ensures step { IsGrowth store.old store.new seat.old.client.script.id }
{
    let Some(work) = take_work(seat) else {
        unreachable!()
    };
    let server = work.server;
    let before = store.front();
    let work = advance(alloc, store, work)?;
    let stop = servers.count(server, before < store.front())?;
    settle(alloc, config, k, seat, work, stop)?;
    Ok(Asking { server, stop })
}

/// One turn of a client: at most one ask.
fn turn(
    alloc: Global,
    store: &mut KvState<MetaEntry>,
    config: Config,
    attempts: u8,
    servers: &mut Servers,
    k: u16,
    seat: &mut Seat,
) -> Result<Asking, Memory>
    requires config { store.old.config ≡ config }
    requires opened { IsStoreOpening store.old }
    requires from { 1 ≤ attempts }
    requires to { attempts ≤ ATTEMPTS }
    requires short { length store.old.journal ≤ JOURNAL_ENTRIES }
    requires few { length servers.old.stops ≤ STOPS }
    requires left { has_ended seat.old.client ≡ false }
    requires counted { AreCounted config servers.old.stops (entries_of store.old.journal) servers.old.counts.items }
    requires seat { IsSeat config attempts servers.old.stops (entries_of store.old.journal) k seat.old }
    requires covered { AreCovered config (entries_of store.old.journal) }
    ensures stops { servers.new.stops ≡ servers.old.stops }
    ensures kept { OnOk result
        (IsSeat config attempts servers.old.stops (entries_of store.new.journal) k seat.new
        × AreCovered config (entries_of store.new.journal) × (length store.new.journal ≤ JOURNAL_ENTRIES)) }
    ensures counts { OnOk result
        (AreCounted config servers.old.stops (entries_of store.new.journal) servers.new.counts.items) }
    ensures planned { IfOk result (λ asking. (number : ℕ) → asking.stop ≡ Some number
        → IsPlannedStop servers.old.stops (entries_of store.new.journal) (asking.server, number)) }
    ensures event { IfOk result
        (λ asking. IsEvent config attempts k asking.server asking.stop (entries_of store.old.journal)
        (entries_of store.new.journal) seat.old seat.new) }
    ensures counted { IfOk result
        (λ asking. HasCounted servers.old.stops asking.server
        (has_made (entries_of store.old.journal) (entries_of store.new.journal)) asking.stop
        servers.old.counts.items servers.new.counts.items) }
    ensures script { seat.new.client.script ≡ seat.old.client.script }
    ensures step { IsGrowth store.old store.new seat.old.client.script.id }
{
    start(alloc, store, config, attempts, k, seat)?;
    go_on(alloc, store, config, attempts, servers, k, seat)
}

/// One turn of the client at this place: at most one ask, answered by the store.
///
/// Where no server works on a request of the client, it sends one first: its next one, or the one whose server
/// stopped. The server counts the ask. Where it stops then, each client whose request it worked on learns so, and
/// else the client learns in the same turn what its request came to, if the answer ends it.
pub fn event(
    alloc: Global,
    store: &mut KvState<MetaEntry>,
    config: Config,
    attempts: u8,
    servers: &mut Servers,
    seats: &mut Vec<Seat>,
    k: u16,
) -> Result<(), Memory>
    requires config { store.old.config ≡ config }
    requires begun { IsStoreOpening store.old }
    requires from { 1 ≤ attempts }
    requires to { attempts ≤ ATTEMPTS }
    requires few { length servers.old.stops ≤ STOPS }
    requires distinct { AreDistinct (scripts_of_seats seats.old.items) }
    requires within { k < length seats.old.items }
    requires left { (seat : SeatView) → slice_get seats.old.items k ≡ Some seat → has_ended seat.client ≡ false }
    requires seated { AreSeated config attempts servers.old.stops servers.old.counts.items
        (entries_of store.old.journal) seats.old.items }
    ensures seated { OnOk result
        (AreSeated config attempts servers.old.stops servers.new.counts.items (entries_of store.new.journal)
        seats.new.items) }
    ensures scripts { scripts_of_seats seats.new.items ≡ scripts_of_seats seats.old.items }
    ensures stops { servers.new.stops ≡ servers.old.stops }
    ensures config { store.new.config ≡ store.old.config }
    ensures begun { IsStoreOpening store.new }
    ensures step { (seat : SeatView) → slice_get seats.old.items k ≡ Some seat
        → IsGrowth store.old store.new seat.client.script.id }
    ensures goes { OnOk result (SeatsGoOn seats.old.items seats.new.items k) }
    ensures turn { OnOk result
        (IsTurnOf config attempts k servers.old.stops (entries_of store.old.journal) (entries_of store.new.journal)
        servers.old.counts.items servers.new.counts.items seats.old.items seats.new.items) }
{
    sound_store(store);
    let asking = turn(
        alloc,
        store,
        config,
        attempts,
        servers,
        k,
        &mut seats[usize::from(k)],
    )?;
    match asking.stop {
        None => Ok(()),
        Some(stop) => lose_all(seats, asking.server, stop),
    }
}
