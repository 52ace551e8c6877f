//! A request being served, from its first ask to its end.

ghost use Rattle.std.specs.Prelude.{◌≡◌, ◌≤◌, List, [], length, IfOk, OnOk};
ghost use Rattle.meta_task.specs.Task.{new_task};
ghost use Rattle.meta_task.specs.declared.waiting.Waiting.TheVariants as waits;
ghost use Rattle.path_walk.specs.Requests.{IsRequest};
ghost use Rattle.request_run.specs.Answered.{IsExchange};
ghost use Rattle.request_run.specs.Entries.{IsGrowthOf, entries_of};
ghost use Rattle.request_run.specs.Served.{AreCovered, HasMetConflicts, IsAskPending, IsTaskReady, IsTaskServed};
ghost use Rattle.request_run.specs.Sound.{IsStoreOpening};
ghost use Rattle.txn_task.specs.declared.messages.Ask.TheVariants as asks;
ghost use Rattle.txn_task.specs.declared.messages.Entry.{Entry};

use crate::answers::sound_store;
use crate::exchanges::exchange;
use fs_base::limits::{ATTEMPTS, JOURNAL_ENTRIES};
use fs_base::{Config, Memory, Request};
use kv_store::KvState;
use meta_task::{MetaEntry, MetaTask};
use std::alloc::Global;
use txn_task::{Answer, Ask};

/// A request being served.
#[derive(Drop)]
pub struct Serving {
    pub task: MetaTask,
    /// The one that waits for its answer.
    pub ask: Ask,
    /// The length of the journal as the call began.
    pub front: u64,
}

/// A request's task, which waits for the answer to its first ask; its call began when the journal was as long
/// as the front.
pub fn begin(
    alloc: Global,
    config: Config,
    attempts: u8,
    request: Request,
    front: u64,
) -> Result<Serving, Memory>
    requires valid { IsRequest config request }
    requires from { 1 ≤ attempts }
    requires to { attempts ≤ ATTEMPTS }
    ensures task { IfOk result
        (λ begun. begun.task ≡ record (new_task config attempts request) { waiting = waits.Beginning }) }
    ensures ask { IfOk result (λ begun. begun.ask ≡ asks.Begin) }
    ensures front { IfOk result (λ begun. begun.front ≡ front) }
    ensures served { (journal : List Entry) → HasMetConflicts config journal request front []
        → IfOk result (λ begun. IsTaskReady config attempts journal request front begun.task begun.ask) }
{
    let mut task = MetaTask::new(alloc, request, config, attempts)?;
    let ask = task.next(Answer::Start)?;
    Ok(Serving { task, ask, front })
}

/// The ask that waits is answered by the store: the next one waits, or the request has ended.
pub fn serve(
    alloc: Global,
    store: &mut KvState<MetaEntry>,
    serving: Serving,
) -> Result<Serving, Memory>
    requires opened { IsStoreOpening store.old }
    requires served { IsTaskServed store.old.config serving.task.attempts (entries_of store.old.journal) serving.task.request
        serving.front serving.task }
    requires pending { IsAskPending store.old.config serving.task serving.ask }
    ensures served { IfOk result
        (λ next. IsTaskReady store.old.config serving.task.attempts (entries_of store.new.journal)
        serving.task.request serving.front next.task next.ask) }
    ensures exchanged { IfOk result
        (λ next. IsExchange store.old.config (entries_of store.old.journal) (entries_of store.new.journal)
        serving.task serving.ask next.task next.ask) }
    ensures front { IfOk result (λ next. next.front ≡ serving.front) }
    ensures grows { IsGrowthOf store.old store.new serving.task.request }
    ensures few { OnOk result (length store.new.journal ≤ JOURNAL_ENTRIES) }
    ensures covered { AreCovered store.old.config (entries_of store.old.journal)
        → OnOk result (AreCovered store.old.config (entries_of store.new.journal)) }
{
    sound_store(store);
    let Serving {
        mut task,
        ask,
        front,
    } = serving;
    let ask = exchange(alloc, store, &mut task, ask)?;
    sound_store(store);
    Ok(Serving { task, ask, front })
}
