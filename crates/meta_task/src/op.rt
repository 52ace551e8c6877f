ghost use Rattle.std.specs.Prelude.{◌≡◌, [], IfOk, OnOk, IsTrue};
ghost use Rattle.path_walk.specs.Owed.{HasStepped};
ghost use Rattle.path_walk.specs.Requests.{IsRequest, is_built};
ghost use Rattle.op_attr.specs.Attr.{IsAttrCall};
ghost use Rattle.op_create.specs.Create.{IsCreateCall};
ghost use Rattle.op_link.specs.Link.{IsLinkCall};
ghost use Rattle.op_rename.specs.Rename.{IsRenameCall};
ghost use Rattle.op_session.specs.Session.{IsSessionCall};
ghost use Rattle.meta_task.specs.Ops.{IsFirstOp, IsOpReady, IsOfKind, op_config, op_effect, op_areas};

use fs_base::{Call, Config, Memory, Request};
use op_attr::AttrTask;
use op_create::CreateTask;
use op_link::LinkTask;
use op_rename::RenameTask;
use op_session::SessionTask;
use std::alloc::Global;
use txn_task::{Answer, OpStep, Txn};

/// An operation of a request under way, in one attempt.
#[derive(Drop)]
pub enum OpTask {
    /// lookup, stat, list, readlink or setattr.
    Attr(AttrTask),
    /// mkdir, create or symlink.
    Create(CreateTask),
    /// link, unlink or rmdir.
    Link(LinkTask),
    Rename(RenameTask),
    /// open, openr, extend or fstat.
    Session(SessionTask),
}

/// Which of these tasks does a call.
#[derive(Clone, Copy, Debug, PartialEq, Eq)]
enum TaskKind {
    Attr,
    Create,
    Link,
    Rename,
    Session,
}

fn kind_of(call: &Call) -> TaskKind
    requires { IsTrue (is_built call.now) }
    ensures { IsOfKind result call.now }
{
    match call {
        Call::Mkdir { .. } => TaskKind::Create,
        Call::Create { .. } => TaskKind::Create,
        Call::Symlink { .. } => TaskKind::Create,
        Call::Link { .. } => TaskKind::Link,
        Call::Unlink(_) => TaskKind::Link,
        Call::Rmdir(_) => TaskKind::Link,
        Call::Rename { .. } => TaskKind::Rename,
        Call::Openr(_) => TaskKind::Session,
        Call::Open(_) => TaskKind::Session,
        Call::Fstat(_) => TaskKind::Session,
        Call::Extend { .. } => TaskKind::Session,
        _ => TaskKind::Attr,
    }
}

fn attr(alloc: Global, request: &Request, config: &Config) -> Result<OpTask, Memory>
    requires valid { IsRequest config.now request.now }
    requires call { IsAttrCall request.now.call }
    ensures { IfOk result (λ op. IsFirstOp config.now request.now op) }
{
    let task = AttrTask::new(alloc, request, config)?;
    Ok(OpTask::Attr(task))
}

fn create(alloc: Global, request: &Request, config: &Config) -> Result<OpTask, Memory>
    requires valid { IsRequest config.now request.now }
    requires call { IsCreateCall request.now.call }
    ensures { IfOk result (λ op. IsFirstOp config.now request.now op) }
{
    let task = CreateTask::new(alloc, request, config)?;
    Ok(OpTask::Create(task))
}

fn link(alloc: Global, request: &Request, config: &Config) -> Result<OpTask, Memory>
    requires valid { IsRequest config.now request.now }
    requires call { IsLinkCall request.now.call }
    ensures { IfOk result (λ op. IsFirstOp config.now request.now op) }
{
    let task = LinkTask::new(alloc, request, config)?;
    Ok(OpTask::Link(task))
}

fn rename(alloc: Global, request: &Request, config: &Config) -> Result<OpTask, Memory>
    requires valid { IsRequest config.now request.now }
    requires call { IsRenameCall request.now.call }
    ensures { IfOk result (λ op. IsFirstOp config.now request.now op) }
{
    let task = RenameTask::new(alloc, request, config)?;
    Ok(OpTask::Rename(task))
}

fn session(alloc: Global, request: &Request, config: &Config) -> Result<OpTask, Memory>
    requires valid { IsRequest config.now request.now }
    requires call { IsSessionCall request.now.call }
    ensures { IfOk result (λ op. IsFirstOp config.now request.now op) }
{
    let task = SessionTask::new(alloc, request, config)?;
    Ok(OpTask::Session(task))
}

impl OpTask {
    /// The operation of a request, before its first step.
    pub fn new(alloc: Global, request: &Request, config: &Config) -> Result<OpTask, Memory>
        requires { IsRequest config.now request.now }
        ensures { IfOk result (λ op. IsFirstOp config.now request.now op) }
    {
        match kind_of(&request.call) {
            TaskKind::Attr => attr(alloc, request, config),
            TaskKind::Create => create(alloc, request, config),
            TaskKind::Link => link(alloc, request, config),
            TaskKind::Rename => rename(alloc, request, config),
            TaskKind::Session => session(alloc, request, config),
        }
    }

    /// The next step, once the answer is among the reads. Once memory ran out the answer is want of memory
    /// from then on.
    pub fn next(&mut self, alloc: Global, answer: Answer, txn: &mut Txn) -> Result<OpStep, Memory>
        requires ready { IsOpReady self.old }
        requires writes { txn.old.writes ≡ [] }
        ensures config { OnOk result (op_config self.new ≡ op_config self.old) }
        ensures ready { OnOk result (IsOpReady self.new) }
        ensures step { IfOk result
            (HasStepped (op_config self.old) (op_areas self.old) (op_areas self.new) (op_effect self.old)
            (op_effect self.new) txn.old txn.new) }
    {
        match self {
            OpTask::Attr(task) => {
                let step = task.next(alloc, answer, txn)?;
                Ok(step)
            }
            OpTask::Create(task) => {
                let step = task.next(alloc, answer, txn)?;
                Ok(step)
            }
            OpTask::Link(task) => {
                let step = task.next(alloc, answer, txn)?;
                Ok(step)
            }
            OpTask::Rename(task) => {
                let step = task.next(alloc, answer, txn)?;
                Ok(step)
            }
            OpTask::Session(task) => {
                let step = task.next(alloc, answer, txn)?;
                Ok(step)
            }
        }
    }
}
