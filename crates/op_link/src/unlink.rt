ghost use Rattle.std.specs.Prelude.{◌≡◌, ◌≢◌, [], IfOk, IsTrue};
ghost use Rattle.byte_fields.specs.Fields.{time};
ghost use Rattle.fs_base.specs.declared.kind.Kind.TheVariants as kinds;
ghost use Rattle.tree_model.specs.declared.walk.Walked.TheVariants.{AtParent};
ghost use Rattle.path_walk.specs.Directories.{IsEntryRead};
ghost use Rattle.op_link.specs.Ending.{IsLinkEndStep};
ghost use Rattle.op_link.specs.declared.task.LinkCall.TheVariants as link;

use fs_base::{Code, InodeId, Items, Kind, Memory, Name, Reply};
use path_walk::{in_range, put_unlinked};
use row_records::DentRow;
use std::alloc::Global;
use tree_model::Walked;
use txn_task::{Ask, OpStep, Txn, Want, want_dent, want_inode};

/// What unlink does where its walk ends.
pub(crate) fn unlink_at(
    alloc: Global,
    txn: &mut Txn,
    stamp: u64,
    walked: Walked,
) -> Result<OpStep, Memory>
    requires stamp { IsTrue (time.fits stamp) }
    requires writes { txn.old.writes ≡ [] }
    ensures { IfOk result (IsLinkEndStep link.Unlink stamp walked txn.old txn.new) }
{
    match walked {
        Walked::At(_, _) => Ok(OpStep::Reply(Reply::Refused(Code::IsRoot))),
        Walked::NoName(_) => Ok(OpStep::Reply(Reply::Refused(Code::IsRoot))),
        Walked::Stopped(code) => Ok(OpStep::Reply(Reply::Refused(code))),
        Walked::AtParent(dir, name) => {
            let step = unlink(alloc, txn, stamp, dir, &name)?;
            Ok(step)
        }
    }
}

/// The entry tells what it leads to, so a directory's inode isn't asked for.
fn unlink(
    alloc: Global,
    txn: &mut Txn,
    stamp: u64,
    dir: InodeId,
    name: &Name,
) -> Result<OpStep, Memory>
    requires stamp { IsTrue (time.fits stamp) }
    requires writes { txn.old.writes ≡ [] }
    ensures { IfOk result (IsLinkEndStep link.Unlink stamp (AtParent dir name.now) txn.old txn.new) }
{
    let entry = match want_dent(alloc, txn, dir, name)? {
        Want::Ask(key) => return Ok(OpStep::Ask(Ask::Get(key))),
        Want::Absent => return Ok(OpStep::Reply(Reply::Refused(Code::NotFound))),
        Want::There(entry) => entry,
    };
    match entry.kind {
        Kind::Dir => Ok(OpStep::Reply(Reply::Refused(Code::IsDir))),
        Kind::File => leave(alloc, txn, stamp, dir, name, entry),
        Kind::Link => leave(alloc, txn, stamp, dir, name, entry),
    }
}

/// The node that the entry leads to, no directory.
fn leave(
    alloc: Global,
    txn: &mut Txn,
    stamp: u64,
    dir: InodeId,
    name: &Name,
    entry: DentRow,
) -> Result<OpStep, Memory>
    requires stamp { IsTrue (time.fits stamp) }
    requires writes { txn.old.writes ≡ [] }
    requires entry { IsEntryRead txn.old.reads dir name.now entry }
    requires no_dir { entry.kind ≢ kinds.Dir }
    ensures { IfOk result (IsLinkEndStep link.Unlink stamp (AtParent dir name.now) txn.old txn.new) }
{
    match want_inode(alloc, txn, entry.inode)? {
        Want::Ask(key) => Ok(OpStep::Ask(Ask::Get(key))),
        Want::Absent => Ok(OpStep::Reply(Reply::Refused(Code::NotFound))),
        Want::There(row) => {
            in_range(dir, name, entry.inode);
            put_unlinked(alloc, txn, stamp, dir, name, entry, row)?;
            Ok(OpStep::Commit(Reply::Done, Items::new(alloc)))
        }
    }
}
