ghost use Rattle.std.specs.Prelude.{◌≡◌, ℕ, Some, None, Result, IfOk, IsOk};
ghost use Rattle.std.specs.FinMap.{get};
ghost use Rattle.std.specs.Option.{option_map};
ghost use Rattle.byte_fields.specs.Outcome.{fault_place, NeedsNoMemory};
ghost use Rattle.fs_base.specs.Gives.{Gives};
ghost use Rattle.key_schema.specs.Keys.{spelled_key};
ghost use Rattle.key_schema.specs.declared.key.Key.TheVariants as keys;
ghost use Rattle.row_tree.specs.TypedRows.{TypedRows};
ghost use Rattle.txn_task.specs.Wanted.{IsRowReading, IsWant};
ghost use Rattle.txn_task.specs.Writes.{read_of};

use crate::txn::Txn;
use byte_fields::RowError;
use fs_base::{ClientId, InodeId, Memory, Name};
use inode_record::InodeRow;
use key_schema::Key;
use row_records::{AllocRow, DentRow, KeptRow};
use std::alloc::Global;

/// A row among the reads of an attempt.
///
/// Bytes that are no row of the key's form stand in no store of well-formed rows; they count as absent.
#[derive(Debug, Drop)]
pub enum Want<T> {
    /// The key is still to be asked for.
    Ask(Key),
    Absent,
    There(T),
}

pub(crate) fn kept_at<'a>(
    alloc: Global,
    txn: &'a Txn,
    key: &Key,
) -> Result<Option<Option<&'a [u8]>>, Memory>
    ensures { IfOk result
        (λ kept. option_map (option_map (λ v. v.now)) kept ≡ read_of txn.now.reads.keys (spelled_key key.now)) }
{
    let bytes = key.write(alloc)?;
    Ok(txn.kept(bytes.as_slice()))
}

/// The row, or none where the bytes aren't one.
pub(crate) fn found<T: Drop>(row: Result<T, RowError>) -> Result<Option<T>, Memory>
    ensures read { IfOk result
        (λ read. (answer : Result T ℕ) → Gives fault_place (λ x. x) row answer → IsRowReading answer read) }
    ensures memory { NeedsNoMemory fault_place row → IsOk result }
{
    match row {
        Ok(row) => Ok(Some(row)),
        Err(RowError::NotARecord(_)) => Ok(None),
        Err(RowError::Memory) => Err(Memory),
    }
}

/// The row of an inode.
pub fn want_inode(alloc: Global, txn: &Txn, id: InodeId) -> Result<Want<InodeRow>, Memory>
    ensures { IfOk result (λ want. IsWant want txn.now.reads (keys.Inode id) (λ S. get S.inodes id)) }
{
    let key = Key::Inode(id);
    match kept_at(alloc, txn, &key)? {
        None => Ok(Want::Ask(key)),
        Some(None) => Ok(Want::Absent),
        Some(Some(bytes)) => match found(InodeRow::read(alloc, bytes))? {
            None => Ok(Want::Absent),
            Some(row) => Ok(Want::There(row)),
        },
    }
}

/// The row of a directory's entry.
pub fn want_dent(
    alloc: Global,
    txn: &Txn,
    dir: InodeId,
    name: &Name,
) -> Result<Want<DentRow>, Memory>
    ensures { IfOk result
        (λ want. IsWant want txn.now.reads (keys.Dent dir name.now) (λ S. get S.dents (dir, name.now))) }
{
    let key = Key::Dent(dir, name.try_clone(alloc)?);
    match kept_at(alloc, txn, &key)? {
        None => Ok(Want::Ask(key)),
        Some(None) => Ok(Want::Absent),
        Some(Some(bytes)) => match found(DentRow::read(alloc, bytes))? {
            None => Ok(Want::Absent),
            Some(row) => Ok(Want::There(row)),
        },
    }
}

/// The next inode number of a server.
pub fn want_alloc(alloc: Global, txn: &Txn, server: u8) -> Result<Want<u64>, Memory>
    ensures { IfOk result (λ want. IsWant want txn.now.reads (keys.Alloc server) (λ S. get S.next server)) }
{
    let key = Key::Alloc(server);
    match kept_at(alloc, txn, &key)? {
        None => Ok(Want::Ask(key)),
        Some(None) => Ok(Want::Absent),
        Some(Some(bytes)) => match found(AllocRow::read(alloc, bytes))? {
            None => Ok(Want::Absent),
            Some(row) => Ok(Want::There(row.next)),
        },
    }
}

/// The row of a client's last update.
pub fn want_kept(alloc: Global, txn: &Txn, client: ClientId) -> Result<Want<KeptRow>, Memory>
    ensures { IfOk result (λ want. IsWant want txn.now.reads (keys.Idem client) (λ S. get S.kept client.0)) }
{
    let key = Key::Idem(client);
    match kept_at(alloc, txn, &key)? {
        None => Ok(Want::Ask(key)),
        Some(None) => Ok(Want::Absent),
        Some(Some(bytes)) => match found(KeptRow::read(alloc, bytes))? {
            None => Ok(Want::Absent),
            Some(row) => Ok(Want::There(row)),
        },
    }
}
