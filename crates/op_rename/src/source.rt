ghost use Rattle.std.specs.Prelude.{◌≡◌, [], IfOk, IsTrue};
ghost use Rattle.byte_fields.specs.Fields.{time};
ghost use Rattle.tree_model.specs.declared.walk.Walked.TheVariants.{AtParent};
ghost use Rattle.path_walk.specs.Directories.{IsEntryRead};
ghost use Rattle.op_rename.specs.Ending.{IsRenameEndStep, IsRenameWayStep};

use crate::place::{Spot, place_at};
use fs_base::{Code, Memory, Place, Reply};
use path_walk::{Reached, Stage};
use row_records::DentRow;
use std::alloc::Global;
use tree_model::{WalkEnd, Walked};
use txn_task::{Ask, OpStep, Txn, Want, want_dent};

/// What is done where the walk of the first place ends.
pub(crate) fn rename_at(
    alloc: Global,
    txn: &mut Txn,
    stamp: u64,
    to: &Place,
    walked: Walked,
) -> Result<OpStep, Memory>
    requires stamp { IsTrue (time.fits stamp) }
    requires writes { txn.old.writes ≡ [] }
    ensures { IfOk result (IsRenameEndStep to.now stamp walked txn.old txn.new) }
{
    match walked {
        Walked::At(_, _) => Ok(OpStep::Reply(Reply::Refused(Code::IsRoot))),
        Walked::NoName(_) => Ok(OpStep::Reply(Reply::Refused(Code::IsRoot))),
        Walked::Stopped(code) => Ok(OpStep::Reply(Reply::Refused(code))),
        Walked::AtParent(dir, name) => {
            let step = rename_from(alloc, txn, stamp, to, Spot { dir, name })?;
            Ok(step)
        }
    }
}

/// The entry that is to move.
fn rename_from(
    alloc: Global,
    txn: &mut Txn,
    stamp: u64,
    to: &Place,
    from: Spot,
) -> Result<OpStep, Memory>
    requires stamp { IsTrue (time.fits stamp) }
    requires writes { txn.old.writes ≡ [] }
    ensures { IfOk result (IsRenameEndStep to.now stamp (AtParent from.dir from.name) txn.old txn.new) }
{
    match want_dent(alloc, txn, from.dir, &from.name)? {
        Want::Ask(key) => Ok(OpStep::Ask(Ask::Get(key))),
        Want::Absent => Ok(OpStep::Reply(Reply::Refused(Code::NotFound))),
        Want::There(entry) => {
            let step = walk_to(alloc, txn, stamp, to, from, entry)?;
            Ok(step)
        }
    }
}

/// The walk to where the entry comes. It begins anew each time, and asks for nothing that was read.
fn walk_to(
    alloc: Global,
    txn: &mut Txn,
    stamp: u64,
    to: &Place,
    from: Spot,
    entry: DentRow,
) -> Result<OpStep, Memory>
    requires stamp { IsTrue (time.fits stamp) }
    requires writes { txn.old.writes ≡ [] }
    requires entry { IsEntryRead txn.old.reads from.dir from.name entry }
    ensures { IfOk result (IsRenameWayStep from to.now stamp entry txn.old txn.new) }
{
    let mut stage = Stage::new(alloc, to, WalkEnd::Parent, None)?;
    match stage.next(alloc, txn)? {
        Reached::Ask(ask) => Ok(OpStep::Ask(ask)),
        Reached::End(walked) => {
            let step = place_at(alloc, txn, stamp, from, entry, walked)?;
            Ok(step)
        }
    }
}
