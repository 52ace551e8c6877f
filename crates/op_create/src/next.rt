ghost use Rattle.std.specs.Prelude.{◌≡◌, [], true, false, IfOk, OnOk, OnErr};
ghost use Rattle.tree_model.specs.declared.walk.Walked.TheVariants.{AtParent};
ghost use Rattle.path_walk.specs.Owed.{HasStepped};
ghost use Rattle.path_walk.specs.Stages.{trip_at};
ghost use Rattle.path_walk.specs.Walks.{HasEnd};
ghost use Rattle.op_create.specs.Create.{IsCreateEndStep, IsCreateReady, HasComeTo, create_areas};
ghost use Rattle.op_create.specs.Create.{create_effect};
ghost use Rattle.op_create.specs.NewRows.{IsDefaultFound};

use crate::task::CreateTask;
use fs_base::{Code, DefaultLayout, InodeId, Memory, Name, Reply};
use inode_record::InodePart;
use key_schema::Key;
use path_walk::{Reached, forget};
use std::alloc::Global;
use tree_model::Walked;
use txn_task::{Answer, Ask, OpStep, Txn, Want, want_alloc, want_dent, want_inode};

/// What is known of the directory that a node is made in.
#[derive(Drop)]
pub(crate) enum InDir {
    /// Its row is still to be asked for.
    Ask(Key),
    /// It is none.
    NotDir,
    /// The layout of what is made in it.
    Default(DefaultLayout),
}

fn in_dir(alloc: Global, txn: &Txn, dir: InodeId) -> Result<InDir, Memory>
    ensures { IfOk result (λ found. IsDefaultFound found txn.now.reads dir) }
{
    let row = match want_inode(alloc, txn, dir)? {
        Want::Ask(key) => return Ok(InDir::Ask(key)),
        Want::Absent => return Ok(InDir::NotDir),
        Want::There(row) => row,
    };
    match &row.part {
        InodePart::Dir { chunk, stripe, .. } => Ok(InDir::Default(DefaultLayout {
            chunk: *chunk,
            stripe: *stripe,
        })),
        _ => Ok(InDir::NotDir),
    }
}

impl CreateTask {
    /// On with what has been read. The answer to the last ask stands among the reads.
    ///
    /// Once memory ran out the answer is want of memory from then on.
    pub fn next(&mut self, alloc: Global, answer: Answer, txn: &mut Txn) -> Result<OpStep, Memory>
        requires ready { IsCreateReady self.old }
        requires writes { txn.old.writes ≡ [] }
        ensures config { OnOk result (self.new.config ≡ self.old.config) }
        ensures ready { OnOk result (IsCreateReady self.new) }
        ensures step { IfOk result
            (HasStepped self.old.config (create_areas self.old) (create_areas self.new)
            (create_effect self.old)
            (create_effect self.new) txn.old txn.new) }
        ensures alive { OnOk result ((self.old.failed ≡ false) × (self.new.failed ≡ false)) }
        ensures err { OnErr result (self.new.failed ≡ true) }
    {
        forget(answer);
        if self.failed {
            return Err(Memory);
        }
        let step = self.go_on(alloc, txn);
        self.failed = step.is_err();
        step
    }

    /// The walk, and what is made where it ends.
    fn go_on(&mut self, alloc: Global, txn: &mut Txn) -> Result<OpStep, Memory>
        requires ready { IsCreateReady self.old }
        requires writes { txn.old.writes ≡ [] }
        ensures config { OnOk result (self.new.config ≡ self.old.config) }
        ensures ready { OnOk result (IsCreateReady self.new) }
        ensures step { IfOk result
            (HasStepped self.old.config (create_areas self.old) (create_areas self.new)
            (create_effect self.old)
            (create_effect self.new) txn.old txn.new) }
    {
        match self.stage.next(alloc, txn)? {
            Reached::Ask(ask) => Ok(OpStep::Ask(ask)),
            Reached::End(walked) => {
                let step = self.at_end(alloc, txn, walked)?;
                Ok(step)
            }
        }
    }

    /// What the call does where its walk ends.
    fn at_end(&self, alloc: Global, txn: &mut Txn, walked: Walked) -> Result<OpStep, Memory>
        requires ready { IsCreateReady self.now }
        requires writes { txn.old.writes ≡ [] }
        requires end { HasEnd (trip_at self.now.stage) txn.old.reads walked }
        ensures { IfOk result (IsCreateEndStep self.now walked txn.old txn.new) }
    {
        match walked {
            Walked::At(_, _) => Ok(OpStep::Reply(Reply::Refused(Code::Exists))),
            Walked::NoName(_) => Ok(OpStep::Reply(Reply::Refused(Code::Exists))),
            Walked::Stopped(code) => Ok(OpStep::Reply(Reply::Refused(code))),
            Walked::AtParent(dir, name) => {
                let step = self.make(alloc, txn, dir, name)?;
                Ok(step)
            }
        }
    }

    /// In the directory where the walk has come.
    fn make(&self, alloc: Global, txn: &mut Txn, dir: InodeId, name: Name) -> Result<OpStep, Memory>
        requires ready { IsCreateReady self.now }
        requires come { HasComeTo self.now txn.old.reads }
        requires writes { txn.old.writes ≡ [] }
        ensures { IfOk result (IsCreateEndStep self.now (AtParent dir name) txn.old txn.new) }
    {
        let default = match in_dir(alloc, txn, dir)? {
            InDir::Ask(key) => return Ok(OpStep::Ask(Ask::Get(key))),
            InDir::NotDir => return Ok(OpStep::Reply(Reply::Refused(Code::NotDir))),
            InDir::Default(layout) => layout,
        };
        match want_dent(alloc, txn, dir, &name)? {
            Want::Ask(key) => return Ok(OpStep::Ask(Ask::Get(key))),
            Want::There(_) => return Ok(OpStep::Reply(Reply::Refused(Code::Exists))),
            Want::Absent => {}
        }
        match want_alloc(alloc, txn, self.server)? {
            Want::Ask(key) => Ok(OpStep::Ask(Ask::Get(key))),
            Want::Absent => self.put(alloc, txn, dir, &name, default, 1),
            Want::There(number) => self.put(alloc, txn, dir, &name, default, number),
        }
    }
}
