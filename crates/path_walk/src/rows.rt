ghost use Rattle.std.specs.Prelude.{◌≡◌, ◌<◌, [], IsTrue, OnOk};
ghost use Rattle.fs_base.specs.Names.{is_name};
ghost use Rattle.row_tree.specs.Steps as rows;
ghost use Rattle.path_walk.specs.RowPuts.{HasPut, gone_puts, join_puts, left_puts, unlinked_puts, waiting_puts};

use fs_base::limits::INODE_IDS;
use fs_base::{InodeId, Kind, Memory, Name};
use inode_record::InodeRow;
use row_records::{DentRow, GcRow};
use std::alloc::Global;
use txn_task::{Txn, kind_of, put_doomed, put_entry, put_inode, remove_entry, remove_inode};

/// An inode's number is below 2^36, and a name one of those that may be.
pub fn in_range(dir: InodeId, name: &Name, id: InodeId)
    ensures dir { dir < INODE_IDS }
    ensures name { IsTrue (is_name name.now) }
    ensures id { id < INODE_IDS }
{
    let _dir = dir.get();
    let _name = name.bytes();
    let _id = id.get();
}

/// The row with another count of entries, and the stamp as its change time.
pub fn recounted(row: InodeRow, links: u32, stamp: u64) -> InodeRow
    ensures { result ≡ rows.recounted stamp links row }
{
    InodeRow {
        mode: row.mode,
        owner: row.owner,
        group: row.group,
        links,
        atime: row.atime,
        mtime: row.mtime,
        ctime: stamp,
        part: row.part,
    }
}

/// Puts a further entry of a node, and its row.
pub fn put_joined(
    alloc: Global,
    txn: &mut Txn,
    dir: InodeId,
    name: &Name,
    id: InodeId,
    row: &InodeRow,
) -> Result<(), Memory>
    requires writes { txn.old.writes ≡ [] }
    ensures { OnOk result (HasPut (join_puts dir name.now id row.now) txn.old txn.new) }
{
    let kind = kind_of(&row.part);
    put_inode(alloc, txn, id, row)?;
    put_entry(alloc, txn, dir, name, DentRow { inode: id, kind })?;
    Ok(())
}

/// Takes an entry away, and puts the row of the node that it led to.
pub fn put_left(
    alloc: Global,
    txn: &mut Txn,
    dir: InodeId,
    name: &Name,
    id: InodeId,
    row: &InodeRow,
) -> Result<(), Memory>
    requires writes { txn.old.writes ≡ [] }
    ensures { OnOk result (HasPut (left_puts dir name.now id row.now) txn.old txn.new) }
{
    remove_entry(alloc, txn, dir, name)?;
    put_inode(alloc, txn, id, row)?;
    Ok(())
}

/// The same, and the file waits to be deleted.
pub fn put_waiting(
    alloc: Global,
    txn: &mut Txn,
    dir: InodeId,
    name: &Name,
    id: InodeId,
    row: &InodeRow,
) -> Result<(), Memory>
    requires writes { txn.old.writes ≡ [] }
    ensures { OnOk result (HasPut (waiting_puts dir name.now id row.now) txn.old txn.new) }
{
    put_left(alloc, txn, dir, name, id, row)?;
    put_doomed(alloc, txn, id, GcRow::Waiting)?;
    Ok(())
}

/// Takes a node away with its entry.
pub fn put_gone(
    alloc: Global,
    txn: &mut Txn,
    dir: InodeId,
    name: &Name,
    id: InodeId,
) -> Result<(), Memory>
    requires writes { txn.old.writes ≡ [] }
    ensures { OnOk result (HasPut (gone_puts dir name.now id) txn.old txn.new) }
{
    remove_entry(alloc, txn, dir, name)?;
    remove_inode(alloc, txn, id)?;
    Ok(())
}

/// Takes an entry away of a node that is no directory, and puts what becomes of the node.
pub fn put_unlinked(
    alloc: Global,
    txn: &mut Txn,
    stamp: u64,
    dir: InodeId,
    name: &Name,
    entry: DentRow,
    row: InodeRow,
) -> Result<(), Memory>
    requires writes { txn.old.writes ≡ [] }
    ensures { OnOk result (HasPut (unlinked_puts stamp dir name.now entry row) txn.old txn.new) }
{
    if row.links >= 2 {
        let links = row.links - 1;
        let new = recounted(row, links, stamp);
        return put_left(alloc, txn, dir, name, entry.inode, &new);
    }
    match entry.kind {
        Kind::File => {
            let new = recounted(row, 0, stamp);
            put_waiting(alloc, txn, dir, name, entry.inode, &new)
        }
        Kind::Dir => put_gone(alloc, txn, dir, name, entry.inode),
        Kind::Link => put_gone(alloc, txn, dir, name, entry.inode),
    }
}
