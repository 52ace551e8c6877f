//! What a request came to: its client learns it.

ghost use Rattle.std.specs.Prelude.{◌≡◌, ◌∷◌, [], Some, None, true, IfOk, OnOk};
ghost use Rattle.client_core.specs.Client.{end_call};
ghost use Rattle.client_core.specs.Files.{IsFileSound};
ghost use Rattle.client_core.specs.declared.messages.ClientAsk.TheVariants as client_asks;
ghost use Rattle.fs_base.specs.declared.call.Request.{Request as RequestView};
ghost use Rattle.run_record.specs.Receipts.{fronts_of};
ghost use Rattle.seat_turns.specs.Events.{Comes, HasLearned};
ghost use Rattle.seat_turns.specs.Ready.{TellsSound, is_done};
ghost use Rattle.txn_task.specs.declared.outcome.Outcome.{Outcome};
ghost use Rattle.txn_task.specs.declared.outcome.Receipt.{Receipt};

use crate::seats::{Seat, Work};
use crate::stopping::{let_go, take_away};
use client_core::{ClientAnswer, ClientAsk, ClientState};
use fs_base::{Config, Items, Memory};
use meta_task::MetaTask;
use run_record::{Listed, text_of};
use std::alloc::Global;
use txn_task::{Ask, Outcome, Receipt};

/// What a task that is done came to.
fn outcome_of(alloc: Global, task: &MetaTask) -> Result<Outcome, Memory>
    requires { (outcome : Outcome) × (task.now.outcome ≡ Some outcome) }
    ensures { IfOk result (λ outcome. task.now.outcome ≡ Some outcome) }
{
    match task.outcome() {
        Some(outcome) => {
            let copy = outcome.try_clone(alloc)?;
            Ok(copy)
        }
        None => unreachable!(),
    }
}

fn only(receipts: Items<Receipt>) -> Receipt
    requires { (receipt : Receipt) × (receipts ≡ receipt ∷ []) }
    ensures { receipts ≡ result ∷ [] }
{
    let mut receipts = receipts.into_vec();
    match receipts.pop() {
        Some(receipt) => receipt,
        None => unreachable!(),
    }
}

/// The client learns what its call came to, and keeps a receipt.
fn learn(client: &mut ClientState, server: u8, outcome: Outcome) -> Result<Receipt, Memory>
    requires sent { (request : RequestView) × (client.old.request ≡ Some request) }
    requires files { IsFileSound client.old.config outcome.reply }
    ensures client { OnOk result (client.new ≡ (end_call client.old server outcome client.old.request).0) }
    ensures receipt { IfOk result
        (λ receipt. client_asks.CallEnd (receipt ∷ []) true
        ≡ (end_call client.old server outcome client.old.request).1) }
    ensures script { client.new.script ≡ client.old.script }
{
    match client.next(ClientAnswer::Replied(server, outcome))? {
        ClientAsk::CallEnd { receipts, .. } => Ok(only(receipts)),
        _ => unreachable!(),
    }
}

/// The journal's front, and none of what the storage nodes do.
fn fronts(alloc: Global, config: &Config, front: u64) -> Result<Items<u64>, Memory>
    ensures { IfOk result (λ fronts. fronts ≡ fronts_of config.now front) }
{
    let mut fronts = Items::new(alloc);
    fronts.push(front)?;
    for _node in 0..config.nodes() {
        fronts.push(0)?;
    }
    Ok(fronts)
}

/// Ends the call with its outcome.
fn finish(
    alloc: Global,
    config: Config,
    k: u16,
    seat: &mut Seat,
    server: u8,
    front: u64,
    task: MetaTask,
) -> Result<(), Memory>
    requires idle { seat.old.work ≡ None }
    requires same_call { seat.old.again ≡ None }
    requires sent { (request : RequestView) × (seat.old.client.request ≡ Some request) }
    requires ended { (outcome : Outcome) × (task.outcome ≡ Some outcome) }
    requires files { TellsSound seat.old.client.config task }
    ensures script { seat.new.client.script ≡ seat.old.client.script }
    ensures learned { OnOk result (HasLearned config k seat.old seat.new server front task) }
{
    let outcome = outcome_of(alloc, &task)?;
    let_go(task);
    let receipt = learn(&mut seat.client, server, outcome)?;
    let text = text_of(alloc, &receipt.call, &receipt.reply)?;
    let fronts = fronts(alloc, &config, front)?;
    seat.receipts.push(Listed {
        client: k,
        fronts,
        receipt,
        text,
    })
}

fn is_done(ask: &Ask) -> bool
    ensures { result ≡ is_done ask.now }
{
    matches!(ask, Ask::Done)
}

/// Gives a client its receipt, or what goes on; where the server stopped behind the ask, it learns so.
pub(crate) fn settle(
    alloc: Global,
    config: Config,
    k: u16,
    seat: &mut Seat,
    work: Work,
    stop: Option<u32>,
) -> Result<(), Memory>
    requires idle { seat.old.work ≡ None }
    requires same_call { seat.old.again ≡ None }
    requires sent { (request : RequestView) × (seat.old.client.request ≡ Some request) }
    requires ended { is_done work.ask ≡ true → (outcome : Outcome) × (work.task.outcome ≡ Some outcome) }
    requires files { is_done work.ask ≡ true → TellsSound seat.old.client.config work.task }
    ensures script { seat.new.client.script ≡ seat.old.client.script }
    ensures comes { OnOk result (Comes config k seat.old seat.new work stop (is_done work.ask)) }
{
    if let Some(stop) = stop {
        return take_away(seat, work, stop);
    }
    if !is_done(&work.ask) {
        seat.work = Some(work);
        return Ok(());
    }
    let Work {
        task,
        ask: _,
        server,
        front,
    } = work;
    finish(alloc, config, k, seat, server, front, task)
}
