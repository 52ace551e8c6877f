ghost use Rattle.std.specs.Prelude.{◌≡◌, OnOk};
ghost use Rattle.row_tree.specs.Steps as rows;
ghost use Rattle.op_rename.specs.Puts.{PutsMore, dir_puts, moved_puts};

use crate::place::Spots;
use fs_base::{InodeId, Memory};
use inode_record::{InodePart, InodeRow};
use row_records::DentRow;
use std::alloc::Global;
use txn_task::{Txn, put_entry, put_inode, remove_entry};

/// A directory's part with another parent.
fn reparented(part: InodePart, parent: InodeId) -> InodePart
    ensures { result ≡ rows.reparented parent part }
{
    match part {
        InodePart::Dir { chunk, stripe, .. } => InodePart::Dir {
            parent,
            chunk,
            stripe,
        },
        other => other,
    }
}

/// The row with another parent.
fn under(row: InodeRow, parent: InodeId) -> InodeRow
    ensures { result ≡ rows.under parent row }
{
    InodeRow {
        part: reparented(row.part, parent),
        ..row
    }
}

/// Takes the entry away, and puts it at its new place.
pub(crate) fn put_moved(
    alloc: Global,
    txn: &mut Txn,
    spots: &Spots,
    entry: DentRow,
) -> Result<(), Memory>
    ensures { OnOk result (PutsMore (moved_puts spots.now entry) txn.old txn.new) }
{
    remove_entry(alloc, txn, spots.from.dir, &spots.from.name)?;
    put_entry(alloc, txn, spots.to.dir, &spots.to.name, entry)?;
    Ok(())
}

/// The same for a directory with this row, which has another parent then where it comes to another directory.
pub(crate) fn put_dir(
    alloc: Global,
    txn: &mut Txn,
    spots: &Spots,
    entry: DentRow,
    row: InodeRow,
) -> Result<(), Memory>
    ensures { OnOk result (PutsMore (dir_puts spots.now entry row) txn.old txn.new) }
{
    let id = entry.inode;
    put_moved(alloc, txn, spots, entry)?;
    if spots.from.dir == spots.to.dir {
        return Ok(());
    }
    let new = under(row, spots.to.dir);
    put_inode(alloc, txn, id, &new)?;
    Ok(())
}
