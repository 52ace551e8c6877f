ghost use Rattle.std.specs.Prelude.{◌≡◌, Some, IfOk, OnOk, OnErr};
ghost use Rattle.std.specs.FinMap.{get};
ghost use Rattle.key_schema.specs.Keys.{spelled_key};
ghost use Rattle.key_schema.specs.declared.key.Key.TheVariants as keys;
ghost use Rattle.row_records.specs.Rows.{spelled_session};
ghost use Rattle.txn_task.specs.Wanted.{IsWant};
ghost use Rattle.txn_task.specs.Writes.{set_write};

use crate::txn::Txn;
use crate::want::{Want, found, kept_at};
use fs_base::{ClientId, InodeId, Memory};
use key_schema::Key;
use row_records::SessionRow;
use std::alloc::Global;

/// The stamp of a write session. Number 0 is asked for as any other, and nothing stands there.
pub fn want_session(
    alloc: Global,
    txn: &Txn,
    file: InodeId,
    client: ClientId,
    number: u64,
) -> Result<Want<u64>, Memory>
    ensures { IfOk result
        (λ want. IsWant want txn.now.reads (keys.Session file client number)
        (λ S. get S.sessions (file, (client.0, number)))) }
{
    let key = Key::Session(file, client, number);
    match kept_at(alloc, txn, &key)? {
        None => Ok(Want::Ask(key)),
        Some(None) => Ok(Want::Absent),
        Some(Some(bytes)) => match found(SessionRow::read(alloc, bytes))? {
            None => Ok(Want::Absent),
            Some(row) => Ok(Want::There(row.stamp)),
        },
    }
}

/// Sets the row of a write session: when it was opened.
pub fn put_session(
    alloc: Global,
    txn: &mut Txn,
    file: InodeId,
    client: ClientId,
    number: u64,
    stamp: u64,
) -> Result<(), Memory>
    ensures ok { OnOk result
        (txn.new ≡ record txn.old {
          writes = set_write (spelled_key (keys.Session file client number))
              (Some (spelled_session (record { stamp = stamp }))) txn.old.writes;
        }) }
    ensures err { OnErr result (txn.new ≡ txn.old) }
{
    let bytes = SessionRow { stamp }.write(alloc)?;
    txn.put(alloc, &Key::Session(file, client, number), Some(bytes))
}
