ghost use Rattle.std.specs.Prelude.{◌≡◌, ◌≢◌, ◌≤◌, IfOk, OnOk, OnErr};
ghost use Rattle.std.specs.Option.{option_copied};
ghost use Rattle.path_walk.specs.Requests.{IsRequest};
ghost use Rattle.meta_task.specs.declared.waiting.Waiting.TheVariants as waits;
ghost use Rattle.meta_task.specs.Task.{new_task, MayTake, Asks, HasOutcome};

use crate::state::State;
use crate::waiting::Waiting;
use fs_base::limits::ATTEMPTS;
use fs_base::{Config, Memory, Request};
use std::alloc::Global;
use std::marker::Model;
use txn_task::{Answer, Ask, Outcome, Retry, Txn};

/// One request under way, from its first step to its outcome.
#[derive(Drop)]
pub struct MetaTask {
    state: State,
}

impl Model for MetaTask {
    ghost use Rattle.std.specs.Coded.{codes};
    ghost use Rattle.conflict_sets.specs.contracts.sets.WriteSet as write_set;
    ghost use Rattle.meta_task.specs.State.{view_of, IsFailedOrState};
    ghost use Rattle.meta_task.specs.Task.{TaskView};

    ghost Value = { TaskView };

    ghost coded = { Prim.hlevel (codes, write_set.the_row.coded) };

    ghost view = { λ t. view_of t.state };

    ghost invariant = { λ t. IsFailedOrState t.state };
}

impl MetaTask {
    /// A request that may make so many attempts, 1 to 64.
    pub fn new(
        alloc: Global,
        request: Request,
        config: Config,
        attempts: u8,
    ) -> Result<MetaTask, Memory>
        requires valid { IsRequest config request }
        requires from { 1 ≤ attempts }
        requires to { attempts ≤ ATTEMPTS }
        ensures { IfOk result (λ task. task ≡ new_task config attempts request) }
    {
        let state = State {
            alloc,
            config,
            request,
            retry: Retry::new(alloc, attempts),
            txn: Txn::new(alloc),
            begun: false,
            waiting: Waiting::Fresh,
            op: None,
            outcome: None,
        };
        Ok(MetaTask { state })
    }

    /// The next ask. The answer fits the last one; the first is `Start`.
    ///
    /// Once memory ran out the answer is want of memory from then on, whatever comes.
    pub fn next(&mut self, answer: Answer) -> Result<Ask, Memory>
        requires { MayTake self.old.waiting answer }
        ensures asks { IfOk result (λ ask. Asks self.old answer self.new ask) }
        ensures alive { OnOk result (self.old.waiting ≢ waits.Failed) }
        ensures err { OnErr result (self.new.waiting ≡ waits.Failed) }
    {
        let ask = self.state.next(answer)?;
        Ok(ask)
    }

    /// The version last begun, 0 before the first.
    pub fn snapshot(&self) -> u64
        ensures { result ≡ self.now.snapshot }
    {
        self.state.txn.snapshot()
    }

    /// What the request came to, exactly once it is done.
    pub fn outcome(&self) -> Option<&Outcome>
        ensures value { option_copied result ≡ self.now.outcome }
        ensures done { HasOutcome self.now.waiting self.now.outcome }
    {
        self.state.outcome.as_ref()
    }
}
