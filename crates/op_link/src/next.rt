ghost use Rattle.std.specs.Prelude.{◌≡◌, [], true, false, IfOk, OnOk, OnErr};
ghost use Rattle.path_walk.specs.Owed.{HasStepped};
ghost use Rattle.path_walk.specs.Stages.{trip_at};
ghost use Rattle.path_walk.specs.Walks.{HasEnd};
ghost use Rattle.op_link.specs.Ending.{IsLinkEndStep};
ghost use Rattle.op_link.specs.Link.{IsLinkReady, link_areas, link_effect};

use crate::link::link_at;
use crate::rmdir::rmdir_at;
use crate::task::{LinkCall, LinkTask};
use crate::unlink::unlink_at;
use fs_base::Memory;
use path_walk::{Reached, forget};
use std::alloc::Global;
use tree_model::Walked;
use txn_task::{Answer, OpStep, Txn};

impl LinkTask {
    /// On with what has been read. The answer to the last ask stands among the reads.
    ///
    /// Once memory ran out the answer is want of memory from then on.
    pub fn next(&mut self, alloc: Global, answer: Answer, txn: &mut Txn) -> Result<OpStep, Memory>
        requires ready { IsLinkReady self.old }
        requires writes { txn.old.writes ≡ [] }
        ensures config { OnOk result (self.new.config ≡ self.old.config) }
        ensures ready { OnOk result (IsLinkReady self.new) }
        ensures step { IfOk result
            (HasStepped self.old.config (link_areas self.old) (link_areas self.new) (link_effect self.old)
            (link_effect self.new) txn.old txn.new) }
        ensures alive { OnOk result ((self.old.failed ≡ false) × (self.new.failed ≡ false)) }
        ensures err { OnErr result (self.new.failed ≡ true) }
    {
        forget(answer);
        if self.failed {
            return Err(Memory);
        }
        let step = self.go_on(alloc, txn);
        self.failed = step.is_err();
        step
    }

    /// The walk of the first place, and what the call does where it ends.
    fn go_on(&mut self, alloc: Global, txn: &mut Txn) -> Result<OpStep, Memory>
        requires ready { IsLinkReady self.old }
        requires writes { txn.old.writes ≡ [] }
        ensures config { OnOk result (self.new.config ≡ self.old.config) }
        ensures ready { OnOk result (IsLinkReady self.new) }
        ensures step { IfOk result
            (HasStepped self.old.config (link_areas self.old) (link_areas self.new) (link_effect self.old)
            (link_effect self.new) txn.old txn.new) }
    {
        match self.stage.next(alloc, txn)? {
            Reached::Ask(ask) => Ok(OpStep::Ask(ask)),
            Reached::End(walked) => {
                let step = self.at_end(alloc, txn, walked)?;
                Ok(step)
            }
        }
    }

    /// What the call does where its first walk ends.
    fn at_end(&self, alloc: Global, txn: &mut Txn, walked: Walked) -> Result<OpStep, Memory>
        requires ready { IsLinkReady self.now }
        requires writes { txn.old.writes ≡ [] }
        requires end { HasEnd (trip_at self.now.stage) txn.old.reads walked }
        ensures { IfOk result (IsLinkEndStep self.now.call self.now.stamp walked txn.old txn.new) }
    {
        match &self.call {
            LinkCall::Link(to) => link_at(alloc, txn, self.stamp, to, walked),
            LinkCall::Unlink => unlink_at(alloc, txn, self.stamp, walked),
            LinkCall::Rmdir => {
                let step = rmdir_at(alloc, txn, walked)?;
                Ok(step)
            }
        }
    }
}
