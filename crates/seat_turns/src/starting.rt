//! A request is sent: its call begins, or its server stopped.

ghost use Rattle.std.specs.Prelude.{◌≡◌, ◌≤◌, List, [], Some, None, false, length, slice_get, IfOk, OnOk};
ghost use Rattle.client_core.specs.Client.{IsSending, has_ended, send};
ghost use Rattle.meta_task.specs.Task.{new_task};
ghost use Rattle.meta_task.specs.declared.waiting.Waiting.TheVariants as waits;
ghost use Rattle.path_walk.specs.Requests.{IsRequest};
ghost use Rattle.request_run.specs.Entries.{entries_of};
ghost use Rattle.request_run.specs.Served.{HasMetConflicts, IsTaskReady};
ghost use Rattle.seat_turns.specs.Events.{HasSent, HasSentAgain, IsAtWork};
ghost use Rattle.seat_turns.specs.Kept.{IsSeat};
ghost use Rattle.fs_base.specs.declared.call.Request.{Request as RequestView};
ghost use Rattle.client_core.specs.declared.plan.Stop.{Stop as StopView};
ghost use Rattle.txn_task.specs.declared.messages.Ask.TheVariants as asks;
ghost use Rattle.txn_task.specs.declared.messages.Entry.{Entry};

use crate::seats::{Seat, Work};
use client_core::{ClientAnswer, ClientAsk};
use fs_base::limits::ATTEMPTS;
use fs_base::{Config, Memory, Request};
use kv_store::KvState;
use meta_task::MetaEntry;
use request_run::{Serving, begin};
use std::alloc::Global;

fn set_work(seat: &mut Seat, work: Work)
    ensures { seat.new ≡ record seat.old { work = Some work; again = None } }
{
    seat.work = Some(work);
    seat.again = None;
}

/// The client's next step, where nothing is under way.
fn next_step(seat: &mut Seat) -> Result<ClientAsk, Memory>
    requires { seat.old.client.request ≡ None }
    ensures seat { OnOk result
        (seat.new ≡ record seat.old
        { client = (send seat.old.client (slice_get seat.old.client.script.ops seat.old.client.op)).0 }) }
    ensures ask { IfOk result
        (λ ask. ask ≡ (send seat.old.client (slice_get seat.old.client.script.ops seat.old.client.op)).1) }
    ensures valid { IfOk result (λ ask. IsSending seat.old.client.config ask) }
    ensures script { seat.new.client.script ≡ seat.old.client.script }
{
    let answer = if seat.receipts.is_empty() {
        ClientAnswer::Start
    } else {
        ClientAnswer::Next
    };
    let ask = seat.client.next(answer)?;
    Ok(ask)
}

/// The request's work, which waits for the answer to its first ask.
fn new_work(
    alloc: Global,
    config: Config,
    attempts: u8,
    server: u8,
    request: Request,
    front: u64,
) -> Result<Work, Memory>
    requires valid { IsRequest config request }
    requires from { 1 ≤ attempts }
    requires to { attempts ≤ ATTEMPTS }
    ensures work { IfOk result
        (λ work. work
        ≡ record {
          task = record (new_task config attempts request) { waiting = waits.Beginning };
          ask = asks.Begin;
          server = server;
          front = front;
        }) }
    ensures served { (journal : List Entry) → HasMetConflicts config journal request front []
        → IfOk result (λ work. IsTaskReady config attempts journal request front work.task work.ask) }
{
    let Serving { task, ask, front } = begin(alloc, config, attempts, request, front)?;
    Ok(Work {
        task,
        ask,
        server,
        front,
    })
}

/// Sends the client's next request, where none is under way: its call begins now.
fn send_next(
    alloc: Global,
    store: &KvState<MetaEntry>,
    config: Config,
    attempts: u8,
    k: u16,
    seat: &mut Seat,
) -> Result<(), Memory>
    requires from { 1 ≤ attempts }
    requires to { attempts ≤ ATTEMPTS }
    requires seat { (stops : List StopView) × IsSeat config attempts stops (entries_of store.now.journal) k seat.old }
    requires idle { (seat.old.work ≡ None) × (seat.old.again ≡ None) }
    requires left { has_ended seat.old.client ≡ false }
    ensures seat { (stops : List StopView) → IsSeat config attempts stops (entries_of store.now.journal) k seat.old
        → OnOk result (IsSeat config attempts stops (entries_of store.now.journal) k seat.new) }
    ensures script { seat.new.client.script ≡ seat.old.client.script }
    ensures sent { OnOk result
        (HasSent config attempts (length (entries_of store.now.journal)) seat.old seat.new) }
{
    match next_step(seat)? {
        ClientAsk::Send { server, request } => {
            let work = new_work(alloc, config, attempts, server, request, store.front())?;
            set_work(seat, work);
            Ok(())
        }
        ClientAsk::Ended => unreachable!(),
        ClientAsk::CallEnd { .. } => unreachable!(),
    }
}

/// Sends the request under way to the client's present server, since the one that had it stopped.
fn send_again(
    alloc: Global,
    config: Config,
    attempts: u8,
    seat: &mut Seat,
    front: u64,
) -> Result<(), Memory>
    requires from { 1 ≤ attempts }
    requires to { attempts ≤ ATTEMPTS }
    requires config { seat.old.client.config ≡ config }
    requires sent { (request : RequestView) × (seat.old.client.request ≡ Some request) }
    ensures script { seat.new.client.script ≡ seat.old.client.script }
    ensures sent { OnOk result (HasSentAgain config attempts front seat.old seat.new) }
{
    let Some(request) = seat.client.pending()? else {
        unreachable!()
    };
    let server = request.server;
    let work = new_work(alloc, config, attempts, server, request, front)?;
    set_work(seat, work);
    Ok(())
}

/// Sends the client's request, where no server works on one.
pub(crate) fn start(
    alloc: Global,
    store: &KvState<MetaEntry>,
    config: Config,
    attempts: u8,
    k: u16,
    seat: &mut Seat,
) -> Result<(), Memory>
    requires from { 1 ≤ attempts }
    requires to { attempts ≤ ATTEMPTS }
    requires seat { (stops : List StopView) × IsSeat config attempts stops (entries_of store.now.journal) k seat.old }
    requires left { has_ended seat.old.client ≡ false }
    ensures seat { (stops : List StopView) → IsSeat config attempts stops (entries_of store.now.journal) k seat.old
        → OnOk result (IsSeat config attempts stops (entries_of store.now.journal) k seat.new) }
    ensures script { seat.new.client.script ≡ seat.old.client.script }
    ensures at_work { OnOk result
        (IsAtWork config attempts (length (entries_of store.now.journal)) seat.old seat.new seat.old.work
        seat.old.again) }
{
    if seat.work.is_some() {
        return Ok(());
    }
    match seat.again {
        Some(front) => send_again(alloc, config, attempts, seat, front),
        None => send_next(alloc, store, config, attempts, k, seat),
    }
}
