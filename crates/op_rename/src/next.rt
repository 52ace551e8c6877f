ghost use Rattle.std.specs.Prelude.{◌≡◌, [], true, false, IfOk, OnOk, OnErr};
ghost use Rattle.path_walk.specs.Owed.{HasStepped};
ghost use Rattle.op_rename.specs.Rename.{IsRenameReady, rename_areas, rename_effect};

use crate::source::rename_at;
use crate::task::RenameTask;
use fs_base::Memory;
use path_walk::{Reached, forget};
use std::alloc::Global;
use txn_task::{Answer, OpStep, Txn};

impl RenameTask {
    /// On with what has been read. The answer to the last ask stands among the reads.
    ///
    /// Once memory ran out the answer is want of memory from then on.
    pub fn next(&mut self, alloc: Global, answer: Answer, txn: &mut Txn) -> Result<OpStep, Memory>
        requires ready { IsRenameReady self.old }
        requires writes { txn.old.writes ≡ [] }
        ensures config { OnOk result (self.new.config ≡ self.old.config) }
        ensures ready { OnOk result (IsRenameReady self.new) }
        ensures step { IfOk result
            (HasStepped self.old.config (rename_areas self.old) (rename_areas self.new)
            (rename_effect self.old)
            (rename_effect self.new) txn.old txn.new) }
        ensures alive { OnOk result ((self.old.failed ≡ false) × (self.new.failed ≡ false)) }
        ensures err { OnErr result (self.new.failed ≡ true) }
    {
        forget(answer);
        if self.failed {
            return Err(Memory);
        }
        let step = self.go_on(alloc, txn);
        self.failed = step.is_err();
        step
    }

    /// The walk of the first place, and what is done where it ends.
    fn go_on(&mut self, alloc: Global, txn: &mut Txn) -> Result<OpStep, Memory>
        requires ready { IsRenameReady self.old }
        requires writes { txn.old.writes ≡ [] }
        ensures config { OnOk result (self.new.config ≡ self.old.config) }
        ensures ready { OnOk result (IsRenameReady self.new) }
        ensures step { IfOk result
            (HasStepped self.old.config (rename_areas self.old) (rename_areas self.new)
            (rename_effect self.old)
            (rename_effect self.new) txn.old txn.new) }
    {
        match self.stage.next(alloc, txn)? {
            Reached::Ask(ask) => Ok(OpStep::Ask(ask)),
            Reached::End(walked) => {
                let step = rename_at(alloc, txn, self.stamp, &self.to, walked)?;
                Ok(step)
            }
        }
    }
}
