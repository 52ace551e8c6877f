ghost use Rattle.std.specs.Prelude.{◌≡◌, None, Some, OnOk, OnErr};
ghost use Rattle.inode_record.specs.Inode.{spelled_inode};
ghost use Rattle.key_schema.specs.Keys.{spelled_key};
ghost use Rattle.key_schema.specs.declared.key.Key.TheVariants as keys;
ghost use Rattle.row_records.specs.Rows.{spelled_alloc, spelled_dent, spelled_gc};
ghost use Rattle.row_tree.specs.TypedRows.{kind_of};
ghost use Rattle.txn_task.specs.Writes.{set_write};

use crate::txn::Txn;
use fs_base::{InodeId, Kind, Memory, Name};
use inode_record::{InodePart, InodeRow};
use key_schema::Key;
use row_records::{AllocRow, DentRow, GcRow};
use std::alloc::Global;

/// The kind of an inode, by what its row has by kind.
pub fn kind_of(part: &InodePart) -> Kind
    ensures { result ≡ kind_of part.now }
{
    match part {
        InodePart::Dir { .. } => Kind::Dir,
        InodePart::File { .. } => Kind::File,
        InodePart::Link { .. } => Kind::Link,
    }
}

/// Sets the row of an inode.
pub fn put_inode(alloc: Global, txn: &mut Txn, id: InodeId, row: &InodeRow) -> Result<(), Memory>
    ensures ok { OnOk result
        (txn.new ≡ record txn.old
        { writes = set_write (spelled_key (keys.Inode id)) (Some (spelled_inode row.now)) txn.old.writes }) }
    ensures err { OnErr result (txn.new ≡ txn.old) }
{
    let bytes = row.write(alloc)?;
    txn.put(alloc, &Key::Inode(id), Some(bytes))
}

/// Sets the row of a directory's entry.
pub fn put_entry(
    alloc: Global,
    txn: &mut Txn,
    dir: InodeId,
    name: &Name,
    entry: DentRow,
) -> Result<(), Memory>
    ensures ok { OnOk result
        (txn.new ≡ record txn.old {
          writes = set_write (spelled_key (keys.Dent dir name.now)) (Some (spelled_dent entry)) txn.old.writes;
        }) }
    ensures err { OnErr result (txn.new ≡ txn.old) }
{
    let bytes = entry.write(alloc)?;
    let key = Key::Dent(dir, name.try_clone(alloc)?);
    txn.put(alloc, &key, Some(bytes))
}

/// Sets the row of a server's next number.
pub fn put_next(alloc: Global, txn: &mut Txn, server: u8, next: u64) -> Result<(), Memory>
    ensures ok { OnOk result
        (txn.new ≡ record txn.old {
          writes = set_write (spelled_key (keys.Alloc server)) (Some (spelled_alloc (record { next = next })))
              txn.old.writes;
        }) }
    ensures err { OnErr result (txn.new ≡ txn.old) }
{
    let bytes = AllocRow { next }.write(alloc)?;
    txn.put(alloc, &Key::Alloc(server), Some(bytes))
}

/// Takes the row of an inode away.
pub fn remove_inode(alloc: Global, txn: &mut Txn, id: InodeId) -> Result<(), Memory>
    ensures ok { OnOk result
        (txn.new ≡ record txn.old { writes = set_write (spelled_key (keys.Inode id)) None txn.old.writes }) }
    ensures err { OnErr result (txn.new ≡ txn.old) }
{
    txn.put(alloc, &Key::Inode(id), None)
}

/// Takes the row of a directory's entry away.
pub fn remove_entry(alloc: Global, txn: &mut Txn, dir: InodeId, name: &Name) -> Result<(), Memory>
    ensures ok { OnOk result
        (txn.new ≡ record txn.old
        { writes = set_write (spelled_key (keys.Dent dir name.now)) None txn.old.writes }) }
    ensures err { OnErr result (txn.new ≡ txn.old) }
{
    let key = Key::Dent(dir, name.try_clone(alloc)?);
    txn.put(alloc, &key, None)
}

/// Sets the row of a file that is being deleted.
pub fn put_doomed(alloc: Global, txn: &mut Txn, id: InodeId, row: GcRow) -> Result<(), Memory>
    ensures ok { OnOk result
        (txn.new ≡ record txn.old
        { writes = set_write (spelled_key (keys.Gc id)) (Some (spelled_gc row)) txn.old.writes }) }
    ensures err { OnErr result (txn.new ≡ txn.old) }
{
    let bytes = row.write(alloc)?;
    txn.put(alloc, &Key::Gc(id), Some(bytes))
}
