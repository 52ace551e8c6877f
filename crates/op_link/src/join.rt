ghost use Rattle.std.specs.Prelude.{◌≡◌, [], IfOk, IsTrue};
ghost use Rattle.byte_fields.specs.Fields.{time};
ghost use Rattle.tree_model.specs.declared.walk.Walked.TheVariants.{AtParent};
ghost use Rattle.op_link.specs.Ending.{IsJoinStep, IsSource, MayJoin};

use fs_base::limits::LINK_COUNT;
use fs_base::{Code, InodeId, Items, Limit, Memory, Name, Reply};
use inode_record::InodeRow;
use path_walk::{InDir, in_dir, in_range, put_joined, recounted};
use std::alloc::Global;
use tree_model::Walked;
use txn_task::{Ask, OpStep, Txn, Want, want_dent, want_inode};

/// Where the walk to the new entry's place ends: the node with this id gets the entry.
pub(crate) fn join_at(
    alloc: Global,
    txn: &mut Txn,
    stamp: u64,
    id: InodeId,
    walked: Walked,
) -> Result<OpStep, Memory>
    requires stamp { IsTrue (time.fits stamp) }
    requires writes { txn.old.writes ≡ [] }
    requires source { IsSource txn.old.reads id }
    ensures { IfOk result (IsJoinStep id stamp walked txn.old txn.new) }
{
    match walked {
        Walked::At(_, _) => Ok(OpStep::Reply(Reply::Refused(Code::Exists))),
        Walked::NoName(_) => Ok(OpStep::Reply(Reply::Refused(Code::Exists))),
        Walked::Stopped(code) => Ok(OpStep::Reply(Reply::Refused(code))),
        Walked::AtParent(dir, name) => {
            let step = join(alloc, txn, stamp, id, dir, &name)?;
            Ok(step)
        }
    }
}

/// In the directory where the walk has come.
fn join(
    alloc: Global,
    txn: &mut Txn,
    stamp: u64,
    id: InodeId,
    dir: InodeId,
    name: &Name,
) -> Result<OpStep, Memory>
    requires stamp { IsTrue (time.fits stamp) }
    requires writes { txn.old.writes ≡ [] }
    requires source { IsSource txn.old.reads id }
    ensures { IfOk result (IsJoinStep id stamp (AtParent dir name.now) txn.old txn.new) }
{
    match in_dir(alloc, txn, dir)? {
        InDir::Ask(key) => return Ok(OpStep::Ask(Ask::Get(key))),
        InDir::NotDir => return Ok(OpStep::Reply(Reply::Refused(Code::NotDir))),
        InDir::Dir => {}
    }
    match want_dent(alloc, txn, dir, name)? {
        Want::Ask(key) => return Ok(OpStep::Ask(Ask::Get(key))),
        Want::There(_) => return Ok(OpStep::Reply(Reply::Refused(Code::Exists))),
        Want::Absent => {}
    }
    match want_inode(alloc, txn, id)? {
        Want::Ask(key) => Ok(OpStep::Ask(Ask::Get(key))),
        Want::Absent => Ok(OpStep::Reply(Reply::Refused(Code::NotFound))),
        Want::There(row) => put_link(alloc, txn, stamp, id, dir, name, row),
    }
}

/// The entry, where the node has this row.
fn put_link(
    alloc: Global,
    txn: &mut Txn,
    stamp: u64,
    id: InodeId,
    dir: InodeId,
    name: &Name,
    row: InodeRow,
) -> Result<OpStep, Memory>
    requires stamp { IsTrue (time.fits stamp) }
    requires writes { txn.old.writes ≡ [] }
    requires source { IsSource txn.old.reads id }
    requires may { MayJoin txn.old.reads dir name.now id row }
    ensures { IfOk result (IsJoinStep id stamp (AtParent dir name.now) txn.old txn.new) }
{
    if row.links >= LINK_COUNT {
        return Ok(OpStep::Reply(Reply::Refused(Code::AtLimit(Limit::Links))));
    }
    in_range(dir, name, id);
    let links = row.links + 1;
    let new = recounted(row, links, stamp);
    put_joined(alloc, txn, dir, name, id, &new)?;
    Ok(OpStep::Commit(Reply::Done, Items::new(alloc)))
}
