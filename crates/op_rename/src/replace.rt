ghost use Rattle.std.specs.Prelude.{◌≡◌, ◌≢◌, ℕ, [], true, false, IfOk, IsTrue, None, OnOk, Some};
ghost use Rattle.byte_fields.specs.Fields.{time};
ghost use Rattle.fs_base.specs.declared.kind.Kind.TheVariants as kinds;
ghost use Rattle.path_walk.specs.Directories.{IsDirRead, IsEntryRead, IsNameRead, IsRowRead};
ghost use Rattle.path_walk.specs.RowPuts.{HasPut};
ghost use Rattle.op_rename.specs.Ending.{IsMoveStep};
ghost use Rattle.op_rename.specs.Puts.{cleared_puts};
ghost use Rattle.op_rename.specs.Replace.{AreEntriesRead, GoesBeside, IsPlaceCleared, IsInRange, IsOtherNode};
ghost use Rattle.op_rename.specs.Replace.{IsSameNode};

use crate::climb::{Climb, climb_from};
use crate::place::Spots;
use crate::rows::{put_dir, put_moved};
use fs_base::{Code, Items, Kind, Memory, Reply};
use inode_record::InodeRow;
use path_walk::{in_range, put_gone, put_unlinked};
use row_records::DentRow;
use std::alloc::Global;
use txn_task::{Ask, OpStep, Txn, Want, WantFirst, want_inode, want_range};

/// Whether both entries lead to one node.
fn is_same(entry: &DentRow, taken: &Option<DentRow>) -> bool
    ensures same { result ≡ true → IsSameNode entry.now taken.now }
    ensures other { result ≡ false → IsOtherNode entry.now taken.now }
{
    match taken {
        None => false,
        Some(old) => old.inode == entry.inode,
    }
}

/// Both entries are known: the one that moves, and what stands at its new place.
///
/// Two entries of one node stay as they are.
pub(crate) fn move_entry(
    alloc: Global,
    txn: &mut Txn,
    stamp: u64,
    spots: &Spots,
    entry: DentRow,
    taken: Option<DentRow>,
) -> Result<OpStep, Memory>
    requires stamp { IsTrue (time.fits stamp) }
    requires writes { txn.old.writes ≡ [] }
    requires entry { IsEntryRead txn.old.reads spots.now.from.dir spots.now.from.name entry }
    requires dir { IsDirRead txn.old.reads spots.now.to.dir }
    requires taken { IsNameRead txn.old.reads spots.now.to.dir spots.now.to.name taken }
    ensures { IfOk result (IsMoveStep spots.now stamp entry taken txn.old txn.new) }
{
    if is_same(&entry, &taken) {
        return Ok(OpStep::Commit(Reply::Done, Items::new(alloc)));
    }
    match entry.kind {
        Kind::Dir => {
            let step = move_dir(alloc, txn, spots, entry, taken)?;
            Ok(step)
        }
        Kind::File => move_leaf(alloc, txn, stamp, spots, entry, taken),
        Kind::Link => move_leaf(alloc, txn, stamp, spots, entry, taken),
    }
}

/// A directory comes neither into itself nor below, whatever stands at its new place.
fn move_dir(
    alloc: Global,
    txn: &mut Txn,
    spots: &Spots,
    entry: DentRow,
    taken: Option<DentRow>,
) -> Result<OpStep, Memory>
    requires writes { txn.old.writes ≡ [] }
    requires known { AreEntriesRead txn.old.reads spots.now entry taken }
    requires other { IsOtherNode entry taken }
    requires is_dir { entry.kind ≡ kinds.Dir }
    ensures { IfOk result (λ s. (stamp : ℕ) → IsMoveStep spots.now stamp entry taken txn.old txn.new s) }
{
    match climb_from(alloc, txn, entry.inode, spots.to.dir)? {
        Climb::Ask(key) => return Ok(OpStep::Ask(Ask::Get(key))),
        Climb::Found => return Ok(OpStep::Reply(Reply::Refused(Code::IntoItself))),
        Climb::Clear => {}
    }
    match taken {
        None => carry(alloc, txn, spots, entry, None),
        Some(old) => over_dir(alloc, txn, spots, entry, old),
    }
}

/// What stands there has to be a directory without entries.
fn over_dir(
    alloc: Global,
    txn: &mut Txn,
    spots: &Spots,
    entry: DentRow,
    old: DentRow,
) -> Result<OpStep, Memory>
    requires writes { txn.old.writes ≡ [] }
    requires known { AreEntriesRead txn.old.reads spots.now entry (Some old) }
    requires other { old.inode ≢ entry.inode }
    requires beside { GoesBeside txn.old.reads spots.now entry }
    ensures { IfOk result (λ s. (stamp : ℕ) → IsMoveStep spots.now stamp entry (Some old) txn.old txn.new s) }
{
    match old.kind {
        Kind::Dir => {}
        Kind::File => return Ok(OpStep::Reply(Reply::Refused(Code::NotDir))),
        Kind::Link => return Ok(OpStep::Reply(Reply::Refused(Code::NotDir))),
    }
    match want_range(alloc, txn, old.inode)? {
        WantFirst::Ask(ask) => Ok(OpStep::Ask(ask)),
        WantFirst::Used => Ok(OpStep::Reply(Reply::Refused(Code::NotEmpty))),
        WantFirst::Empty => carry(alloc, txn, spots, entry, Some(old)),
    }
}

/// Nothing hinders the directory: its row is read.
fn carry(
    alloc: Global,
    txn: &mut Txn,
    spots: &Spots,
    entry: DentRow,
    taken: Option<DentRow>,
) -> Result<OpStep, Memory>
    requires writes { txn.old.writes ≡ [] }
    requires known { AreEntriesRead txn.old.reads spots.now entry taken }
    requires other { IsOtherNode entry taken }
    requires beside { GoesBeside txn.old.reads spots.now entry }
    requires cleared { IsPlaceCleared txn.old.reads taken }
    ensures { IfOk result (λ s. (stamp : ℕ) → IsMoveStep spots.now stamp entry taken txn.old txn.new s) }
{
    match want_inode(alloc, txn, entry.inode)? {
        Want::Ask(key) => Ok(OpStep::Ask(Ask::Get(key))),
        Want::Absent => Ok(OpStep::Reply(Reply::Refused(Code::NotFound))),
        Want::There(row) => put_carried(alloc, txn, spots, entry, taken, row),
    }
}

/// The directory that is replaced is gone, where there is one, and the entry moves with this row.
fn put_carried(
    alloc: Global,
    txn: &mut Txn,
    spots: &Spots,
    entry: DentRow,
    taken: Option<DentRow>,
    row: InodeRow,
) -> Result<OpStep, Memory>
    requires writes { txn.old.writes ≡ [] }
    requires known { AreEntriesRead txn.old.reads spots.now entry taken }
    requires other { IsOtherNode entry taken }
    requires beside { GoesBeside txn.old.reads spots.now entry }
    requires cleared { IsPlaceCleared txn.old.reads taken }
    requires row { IsRowRead txn.old.reads entry.inode row }
    ensures { IfOk result (λ s. (stamp : ℕ) → IsMoveStep spots.now stamp entry taken txn.old txn.new s) }
{
    in_range(spots.from.dir, &spots.from.name, entry.inode);
    in_range(spots.to.dir, &spots.to.name, entry.inode);
    clear(alloc, txn, spots, taken)?;
    put_dir(alloc, txn, spots, entry, row)?;
    Ok(OpStep::Commit(Reply::Done, Items::new(alloc)))
}

/// Takes the directory that is replaced away, where there is one.
fn clear(alloc: Global, txn: &mut Txn, spots: &Spots, taken: Option<DentRow>) -> Result<(), Memory>
    requires writes { txn.old.writes ≡ [] }
    ensures puts { OnOk result (HasPut (cleared_puts spots.now taken) txn.old txn.new) }
    ensures range { IsInRange taken }
{
    match taken {
        None => Ok(()),
        Some(old) => {
            in_range(spots.to.dir, &spots.to.name, old.inode);
            put_gone(alloc, txn, spots.to.dir, &spots.to.name, old.inode)
        }
    }
}

/// A file or link, which is moved over anything but a directory.
fn move_leaf(
    alloc: Global,
    txn: &mut Txn,
    stamp: u64,
    spots: &Spots,
    entry: DentRow,
    taken: Option<DentRow>,
) -> Result<OpStep, Memory>
    requires stamp { IsTrue (time.fits stamp) }
    requires writes { txn.old.writes ≡ [] }
    requires known { AreEntriesRead txn.old.reads spots.now entry taken }
    requires other { IsOtherNode entry taken }
    requires no_dir { entry.kind ≢ kinds.Dir }
    ensures { IfOk result (IsMoveStep spots.now stamp entry taken txn.old txn.new) }
{
    let Some(old) = taken else {
        let step = put_free(alloc, txn, spots, entry)?;
        return Ok(step);
    };
    match old.kind {
        Kind::Dir => Ok(OpStep::Reply(Reply::Refused(Code::IsDir))),
        Kind::File => over_leaf(alloc, txn, stamp, spots, entry, old),
        Kind::Link => over_leaf(alloc, txn, stamp, spots, entry, old),
    }
}

/// To a free name.
fn put_free(alloc: Global, txn: &mut Txn, spots: &Spots, entry: DentRow) -> Result<OpStep, Memory>
    requires writes { txn.old.writes ≡ [] }
    requires known { AreEntriesRead txn.old.reads spots.now entry None }
    requires no_dir { entry.kind ≢ kinds.Dir }
    ensures { IfOk result (λ s. (stamp : ℕ) → IsMoveStep spots.now stamp entry None txn.old txn.new s) }
{
    in_range(spots.from.dir, &spots.from.name, entry.inode);
    in_range(spots.to.dir, &spots.to.name, entry.inode);
    put_moved(alloc, txn, spots, entry)?;
    Ok(OpStep::Commit(Reply::Done, Items::new(alloc)))
}

/// The file or link there is unlinked.
fn over_leaf(
    alloc: Global,
    txn: &mut Txn,
    stamp: u64,
    spots: &Spots,
    entry: DentRow,
    old: DentRow,
) -> Result<OpStep, Memory>
    requires stamp { IsTrue (time.fits stamp) }
    requires writes { txn.old.writes ≡ [] }
    requires known { AreEntriesRead txn.old.reads spots.now entry (Some old) }
    requires other { old.inode ≢ entry.inode }
    requires no_dir { entry.kind ≢ kinds.Dir }
    requires old_no_dir { old.kind ≢ kinds.Dir }
    ensures { IfOk result (IsMoveStep spots.now stamp entry (Some old) txn.old txn.new) }
{
    match want_inode(alloc, txn, old.inode)? {
        Want::Ask(key) => Ok(OpStep::Ask(Ask::Get(key))),
        Want::Absent => Ok(OpStep::Reply(Reply::Refused(Code::NotFound))),
        Want::There(row) => put_over(alloc, txn, stamp, spots, entry, old, row),
    }
}

fn put_over(
    alloc: Global,
    txn: &mut Txn,
    stamp: u64,
    spots: &Spots,
    entry: DentRow,
    old: DentRow,
    row: InodeRow,
) -> Result<OpStep, Memory>
    requires stamp { IsTrue (time.fits stamp) }
    requires writes { txn.old.writes ≡ [] }
    requires known { AreEntriesRead txn.old.reads spots.now entry (Some old) }
    requires other { old.inode ≢ entry.inode }
    requires no_dir { entry.kind ≢ kinds.Dir }
    requires old_no_dir { old.kind ≢ kinds.Dir }
    requires row { IsRowRead txn.old.reads old.inode row }
    ensures { IfOk result (IsMoveStep spots.now stamp entry (Some old) txn.old txn.new) }
{
    in_range(spots.from.dir, &spots.from.name, entry.inode);
    in_range(spots.to.dir, &spots.to.name, old.inode);
    put_unlinked(alloc, txn, stamp, spots.to.dir, &spots.to.name, old, row)?;
    put_moved(alloc, txn, spots, entry)?;
    Ok(OpStep::Commit(Reply::Done, Items::new(alloc)))
}
