ghost use Rattle.std.specs.Prelude.{◌≡◌, ◌↔◌, IsTrue, Some, None, IfOk, OnOk};
ghost use Rattle.txn_task.specs.declared.messages.Ask.TheVariants as asks;
ghost use Rattle.meta_task.specs.State.{view_of, IsState, IsRequestTaken};
ghost use Rattle.meta_task.specs.Steps.{EndsWith};
ghost use Rattle.meta_task.specs.declared.waiting.Waiting.TheVariants as waits;

use crate::op::OpTask;
use crate::waiting::Waiting;
use fs_base::{Config, Memory, Reply, Request};
use std::alloc::Global;
use std::mem;
use txn_task::{Ask, Outcome, Retry, Txn};

/// All that a request under way holds.
#[derive(Drop)]
pub(crate) struct State {
    pub(crate) alloc: Global,
    pub(crate) config: Config,
    pub(crate) request: Request,
    pub(crate) retry: Retry,
    pub(crate) txn: Txn,
    /// Whether an attempt is under way.
    pub(crate) begun: bool,
    pub(crate) waiting: Waiting,
    /// Absent while an update looks at its client's kept reply.
    pub(crate) op: Option<OpTask>,
    pub(crate) outcome: Option<Outcome>,
}

pub(crate) fn set_waiting(waiting: &mut Waiting, new: Waiting)
    ensures { waiting.new ≡ new }
{
    *waiting = new;
}

pub(crate) fn set_op(op: &mut Option<OpTask>, new: Option<OpTask>)
    ensures { op.new ≡ new }
{
    *op = new;
}

pub(crate) fn take_op(op: &mut Option<OpTask>) -> Option<OpTask>
    ensures { result ≡ op.old }
{
    mem::replace(op, None)
}

fn drop_outcome(outcome: &mut Option<Outcome>)
    ensures { outcome.new ≡ None }
{
    *outcome = None;
}

fn set_outcome(outcome: &mut Option<Outcome>, new: Outcome)
    ensures { outcome.new ≡ Some new }
{
    *outcome = Some(new);
}

impl State {
    pub(crate) fn has_failed(&self) -> bool
        ensures { IsTrue result ↔ (self.now.waiting ≡ waits.Failed) }
    {
        match &self.waiting {
            Waiting::Failed => true,
            _ => false,
        }
    }

    /// Memory ran out: nothing is known of the request from now on.
    pub(crate) fn fail(&mut self)
        ensures failed { self.new.waiting ≡ waits.Failed }
        ensures outcome { self.new.outcome ≡ None }
    {
        set_waiting(&mut self.waiting, Waiting::Failed);
        drop_outcome(&mut self.outcome);
    }

    /// The end, with this reply.
    pub(crate) fn end(&mut self, reply: Reply, version: u64, committed: bool) -> Result<Ask, Memory>
        requires { IsRequestTaken self.old.config self.old.request }
        ensures state { OnOk result (IsState self.new) }
        ensures done { IfOk result (λ ask. ask ≡ asks.Done) }
        ensures ends { IfOk result
            (λ ask. EndsWith (view_of self.old) (view_of self.new) reply version committed) }
    {
        set_waiting(&mut self.waiting, Waiting::Ended);
        let conflicts = self.retry.conflicts(self.alloc)?;
        let outcome = Outcome {
            reply,
            version,
            committed,
            conflicts,
        };
        set_outcome(&mut self.outcome, outcome);
        Ok(Ask::Done)
    }
}
