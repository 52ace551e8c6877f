ghost use Rattle.std.specs.Prelude.{◌≡◌, [], IfOk, IsTrue};
ghost use Rattle.byte_fields.specs.Fields.{time};
ghost use Rattle.tree_model.specs.declared.walk.Walked.TheVariants.{AtParent};
ghost use Rattle.path_walk.specs.Directories.{IsDirRead, IsEntryRead};
ghost use Rattle.op_rename.specs.Ending.{IsPlaceStep};

use crate::replace::move_entry;
use fs_base::{Code, InodeId, Memory, Name, Reply};
use path_walk::{InDir, in_dir};
use row_records::DentRow;
use std::alloc::Global;
use tree_model::Walked;
use txn_task::{Ask, OpStep, Txn, Want, want_dent};

/// A name in a directory.
#[derive(Debug, Drop)]
pub struct Spot {
    pub dir: InodeId,
    pub name: Name,
}

/// Where an entry stands, and where it is to come.
#[derive(Debug, Drop)]
pub struct Spots {
    pub from: Spot,
    pub to: Spot,
}

/// Where the walk to the entry's new place ends.
pub(crate) fn place_at(
    alloc: Global,
    txn: &mut Txn,
    stamp: u64,
    from: Spot,
    entry: DentRow,
    walked: Walked,
) -> Result<OpStep, Memory>
    requires stamp { IsTrue (time.fits stamp) }
    requires writes { txn.old.writes ≡ [] }
    requires entry { IsEntryRead txn.old.reads from.dir from.name entry }
    ensures { IfOk result (IsPlaceStep from stamp entry walked txn.old txn.new) }
{
    match walked {
        Walked::At(_, _) => Ok(OpStep::Reply(Reply::Refused(Code::IsRoot))),
        Walked::NoName(_) => Ok(OpStep::Reply(Reply::Refused(Code::IsRoot))),
        Walked::Stopped(code) => Ok(OpStep::Reply(Reply::Refused(code))),
        Walked::AtParent(dir, name) => {
            let to = Spot { dir, name };
            let step = place(alloc, txn, stamp, &Spots { from, to }, entry)?;
            Ok(step)
        }
    }
}

/// The directory that the entry is to come in.
fn place(
    alloc: Global,
    txn: &mut Txn,
    stamp: u64,
    spots: &Spots,
    entry: DentRow,
) -> Result<OpStep, Memory>
    requires stamp { IsTrue (time.fits stamp) }
    requires writes { txn.old.writes ≡ [] }
    requires entry { IsEntryRead txn.old.reads spots.now.from.dir spots.now.from.name entry }
    ensures { IfOk result
        (IsPlaceStep spots.now.from stamp entry (AtParent spots.now.to.dir spots.now.to.name) txn.old txn.new) }
{
    match in_dir(alloc, txn, spots.to.dir)? {
        InDir::Ask(key) => Ok(OpStep::Ask(Ask::Get(key))),
        InDir::NotDir => Ok(OpStep::Reply(Reply::Refused(Code::NotDir))),
        InDir::Dir => place_in(alloc, txn, stamp, spots, entry),
    }
}

/// The name in that directory: free, or taken by another entry.
fn place_in(
    alloc: Global,
    txn: &mut Txn,
    stamp: u64,
    spots: &Spots,
    entry: DentRow,
) -> Result<OpStep, Memory>
    requires stamp { IsTrue (time.fits stamp) }
    requires writes { txn.old.writes ≡ [] }
    requires entry { IsEntryRead txn.old.reads spots.now.from.dir spots.now.from.name entry }
    requires dir { IsDirRead txn.old.reads spots.now.to.dir }
    ensures { IfOk result
        (IsPlaceStep spots.now.from stamp entry (AtParent spots.now.to.dir spots.now.to.name) txn.old txn.new) }
{
    match want_dent(alloc, txn, spots.to.dir, &spots.to.name)? {
        Want::Ask(key) => Ok(OpStep::Ask(Ask::Get(key))),
        Want::Absent => {
            let step = move_entry(alloc, txn, stamp, spots, entry, None)?;
            Ok(step)
        }
        Want::There(taken) => {
            let step = move_entry(alloc, txn, stamp, spots, entry, Some(taken))?;
            Ok(step)
        }
    }
}
