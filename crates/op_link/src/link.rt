ghost use Rattle.std.specs.Prelude.{◌≡◌, [], IfOk, IsTrue};
ghost use Rattle.byte_fields.specs.Fields.{time};
ghost use Rattle.tree_model.specs.declared.walk.Walked.TheVariants.{At};
ghost use Rattle.op_link.specs.Ending.{HasSource, IsLinkEndStep, IsSource, IsLinkWayStep};
ghost use Rattle.op_link.specs.declared.task.LinkCall.TheVariants as link;

use crate::join::join_at;
use fs_base::{Code, InodeId, Kind, Memory, Place, Reply};
use path_walk::{Reached, Stage};
use std::alloc::Global;
use tree_model::{WalkEnd, Walked};
use txn_task::{OpStep, Txn};

/// What link does where the walk of its first path ends.
pub(crate) fn link_at(
    alloc: Global,
    txn: &mut Txn,
    stamp: u64,
    to: &Place,
    walked: Walked,
) -> Result<OpStep, Memory>
    requires stamp { IsTrue (time.fits stamp) }
    requires writes { txn.old.writes ≡ [] }
    requires source { HasSource txn.old.reads walked }
    ensures { IfOk result (IsLinkEndStep (link.Link to.now) stamp walked txn.old txn.new) }
{
    match walked {
        Walked::At(id, kind) => link_node(alloc, txn, stamp, to, id, kind),
        Walked::AtParent(_, _) => Ok(OpStep::Reply(Reply::Refused(Code::NotDir))),
        Walked::NoName(_) => Ok(OpStep::Reply(Reply::Refused(Code::NotDir))),
        Walked::Stopped(code) => Ok(OpStep::Reply(Reply::Refused(code))),
    }
}

/// A directory has one entry only.
fn link_node(
    alloc: Global,
    txn: &mut Txn,
    stamp: u64,
    to: &Place,
    id: InodeId,
    kind: Kind,
) -> Result<OpStep, Memory>
    requires stamp { IsTrue (time.fits stamp) }
    requires writes { txn.old.writes ≡ [] }
    requires source { HasSource txn.old.reads (At id kind) }
    ensures { IfOk result (IsLinkEndStep (link.Link to.now) stamp (At id kind) txn.old txn.new) }
{
    match kind {
        Kind::Dir => Ok(OpStep::Reply(Reply::Refused(Code::IsDir))),
        Kind::File => walk_to(alloc, txn, stamp, to, id),
        Kind::Link => walk_to(alloc, txn, stamp, to, id),
    }
}

/// The walk to where the new entry comes. It begins anew each time, and asks for nothing that was read.
fn walk_to(
    alloc: Global,
    txn: &mut Txn,
    stamp: u64,
    to: &Place,
    id: InodeId,
) -> Result<OpStep, Memory>
    requires stamp { IsTrue (time.fits stamp) }
    requires writes { txn.old.writes ≡ [] }
    requires source { IsSource txn.old.reads id }
    ensures { IfOk result (IsLinkWayStep to.now id stamp txn.old txn.new) }
{
    let mut stage = Stage::new(alloc, to, WalkEnd::Parent, None)?;
    match stage.next(alloc, txn)? {
        Reached::Ask(ask) => Ok(OpStep::Ask(ask)),
        Reached::End(walked) => {
            let step = join_at(alloc, txn, stamp, id, walked)?;
            Ok(step)
        }
    }
}
