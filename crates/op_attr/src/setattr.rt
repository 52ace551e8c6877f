ghost use Rattle.std.specs.Prelude.{◌≡◌, ◌<◌, ◌↔◌, [], IsTrue, IfOk, OnOk};
ghost use Rattle.fs_base.specs.declared.kind.Kind.{Kind};
ghost use Rattle.tree_model.specs.declared.walk.Walked.TheVariants.{At};
ghost use Rattle.op_attr.specs.declared.task.AttrCall.TheVariants as attr;
ghost use Rattle.op_attr.specs.Attr.{MaySet};
ghost use Rattle.op_attr.specs.Changing.{changed_row, PutsChanged};
ghost use Rattle.op_attr.specs.Ending.{IsAttrEndStep};

use fs_base::limits::INODE_IDS;
use fs_base::{Changes, Code, InodeId, Items, Memory, Reply};
use inode_record::InodeRow;
use std::alloc::Global;
use txn_task::{Ask, OpStep, Txn, Want, put_inode, want_inode};

/// Whether a row is already as setattr wants it.
fn is_unchanged(row: &InodeRow, changes: Changes, stamp: u64) -> bool
    ensures { IsTrue result ↔ (changed_row changes stamp row.now ≡ row.now) }
{
    changes.mode.unwrap_or(row.mode) == row.mode
        && changes.owner.unwrap_or(row.owner) == row.owner
        && changes.group.unwrap_or(row.group) == row.group
        && changes.atime.unwrap_or(row.atime) == row.atime
        && changes.mtime.unwrap_or(row.mtime) == row.mtime
        && stamp == row.ctime
}

fn changed(row: InodeRow, changes: Changes, stamp: u64) -> InodeRow
    ensures { result ≡ changed_row changes stamp row }
{
    InodeRow {
        mode: changes.mode.unwrap_or(row.mode),
        owner: changes.owner.unwrap_or(row.owner),
        group: changes.group.unwrap_or(row.group),
        links: row.links,
        atime: changes.atime.unwrap_or(row.atime),
        mtime: changes.mtime.unwrap_or(row.mtime),
        ctime: stamp,
        part: row.part,
    }
}

/// Puts the changed row, where it isn't the one that stands there.
fn put_changed(
    alloc: Global,
    txn: &mut Txn,
    id: InodeId,
    row: InodeRow,
    changes: Changes,
    stamp: u64,
) -> Result<(), Memory>
    ensures { OnOk result (PutsChanged id row (changed_row changes stamp row) txn.old txn.new) }
{
    if is_unchanged(&row, changes, stamp) {
        return Ok(());
    }
    put_inode(alloc, txn, id, &changed(row, changes, stamp))
}

/// An inode's number is below 2^36.
fn in_range(id: InodeId)
    ensures { id < INODE_IDS }
{
    let _id = id.get();
}

/// Sets the attributes of an inode. It is committed also where nothing changes.
pub(crate) fn setattr(
    alloc: Global,
    txn: &mut Txn,
    id: InodeId,
    changes: Changes,
    stamp: u64,
) -> Result<OpStep, Memory>
    requires ready { MaySet (attr.Setattr stamp changes) }
    requires writes { txn.old.writes ≡ [] }
    ensures { IfOk result
        (λ s. (kind : Kind) → IsAttrEndStep (attr.Setattr stamp changes) (At id kind) txn.old txn.new s) }
{
    let row = match want_inode(alloc, txn, id)? {
        Want::Ask(key) => return Ok(OpStep::Ask(Ask::Get(key))),
        Want::Absent => return Ok(OpStep::Reply(Reply::Refused(Code::NotFound))),
        Want::There(row) => row,
    };
    in_range(id);
    put_changed(alloc, txn, id, row, changes, stamp)?;
    Ok(OpStep::Commit(Reply::Done, Items::new(alloc)))
}
