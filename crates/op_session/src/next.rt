ghost use Rattle.std.specs.Prelude.{◌≡◌, [], true, false, IfOk, OnOk, OnErr};
ghost use Rattle.fs_base.specs.Config.{Settings};
ghost use Rattle.path_walk.specs.Owed.{HasStepped};
ghost use Rattle.op_session.specs.Session.{IsSessionReady, IsReadyWork, session_task_areas, session_effect, work_areas, work_effect};

use crate::held::held;
use crate::opening::open_on;
use crate::task::{SessionTask, SessionWork};
use fs_base::{ClientId, Memory};
use path_walk::forget;
use std::alloc::Global;
use txn_task::{Answer, OpStep, Txn};

impl SessionWork {
    /// On with what has been read.
    fn next(&mut self, client: ClientId, alloc: Global, txn: &mut Txn) -> Result<OpStep, Memory>
        requires ready { IsReadyWork self.old }
        requires writes { txn.old.writes ≡ [] }
        ensures ready { OnOk result (IsReadyWork self.new) }
        ensures step { IfOk result
            (λ s. (C : Settings)
            → HasStepped C (work_areas client self.old) (work_areas client self.new)
            (work_effect client self.old) (work_effect client self.new) txn.old txn.new s) }
    {
        match self {
            SessionWork::Opening(mode, stage) => {
                let step = open_on(*mode, client, alloc, txn, stage)?;
                Ok(step)
            }
            SessionWork::Held(call, session) => {
                let step = held(*call, client, alloc, txn, session)?;
                Ok(step)
            }
        }
    }
}

impl SessionTask {
    /// On with what has been read. The answer to the last ask stands among the reads.
    ///
    /// Once memory ran out the answer is want of memory from then on.
    pub fn next(&mut self, alloc: Global, answer: Answer, txn: &mut Txn) -> Result<OpStep, Memory>
        requires ready { IsSessionReady self.old }
        requires writes { txn.old.writes ≡ [] }
        ensures config { OnOk result (self.new.config ≡ self.old.config) }
        ensures ready { OnOk result (IsSessionReady self.new) }
        ensures step { IfOk result
            (HasStepped self.old.config (session_task_areas self.old) (session_task_areas self.new)
            (session_effect self.old)
            (session_effect self.new) txn.old txn.new) }
        ensures alive { OnOk result ((self.old.failed ≡ false) × (self.new.failed ≡ false)) }
        ensures err { OnErr result (self.new.failed ≡ true) }
    {
        forget(answer);
        if self.failed {
            return Err(Memory);
        }
        let step = self.go_on(alloc, txn);
        self.failed = step.is_err();
        step
    }

    fn go_on(&mut self, alloc: Global, txn: &mut Txn) -> Result<OpStep, Memory>
        requires ready { IsSessionReady self.old }
        requires writes { txn.old.writes ≡ [] }
        ensures config { OnOk result (self.new.config ≡ self.old.config) }
        ensures ready { OnOk result (IsSessionReady self.new) }
        ensures step { IfOk result
            (HasStepped self.old.config (session_task_areas self.old) (session_task_areas self.new)
            (session_effect self.old)
            (session_effect self.new) txn.old txn.new) }
    {
        let step = self.work.next(self.client, alloc, txn)?;
        Ok(step)
    }
}
