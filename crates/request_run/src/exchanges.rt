//! A request's asks, each answered by one object.

ghost use Rattle.std.specs.Prelude.{◌≡◌, ◌⊎◌, List, IfOk};
ghost use Rattle.meta_task.specs.Task.{MayTake};
ghost use Rattle.request_run.specs.Answered.{IsAnswer, IsExchange, MayAnswer};
ghost use Rattle.request_run.specs.Entries.{entries_of, store_with_entry};
ghost use Rattle.request_run.specs.Sound.{IsStoreOpening};
ghost use Rattle.txn_task.specs.declared.messages.Answer.{Answer as AnswerView};
ghost use Rattle.txn_task.specs.declared.messages.Ask.TheVariants as asks;
ghost use Rattle.txn_task.specs.declared.messages.Entry.{Entry};

use crate::answers::answer;
use fs_base::Memory;
use kv_store::KvState;
use meta_task::{MetaEntry, MetaTask};
use std::alloc::Global;
use txn_task::Ask;

/// The ask that waits is answered by the store, and the task asks on.
pub fn exchange(
    alloc: Global,
    store: &mut KvState<MetaEntry>,
    task: &mut MetaTask,
    ask: Ask,
) -> Result<Ask, Memory>
    requires begun { IsStoreOpening store.old }
    requires may { MayAnswer store.old.config (entries_of store.old.journal) task.old.snapshot ask }
    requires fits { (new : List Entry) (answer : AnswerView)
        → IsAnswer store.old.config (entries_of store.old.journal) new task.old.snapshot ask answer
        → MayTake task.old.waiting answer }
    ensures exchanged { IfOk result
        (λ next. IsExchange store.old.config (entries_of store.old.journal) (entries_of store.new.journal)
        task.old ask task.new next) }
    ensures grows { (store.new ≡ store.old)
        ⊎ ((entry : Entry) × (ask ≡ asks.Commit entry) × (store.new ≡ store_with_entry store.old entry)) }
{
    let answer = answer(alloc, store, task.snapshot(), ask)?;
    let next = task.next(answer)?;
    Ok(next)
}
