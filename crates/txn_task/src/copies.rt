ghost use Rattle.std.specs.Prelude.{◌≡◌, IfOk};
ghost use Rattle.key_schema.specs.declared.key.Key.TheVariants as keys;
ghost use Rattle.txn_task.specs.Copies.{IsLook};
ghost use Rattle.txn_task.specs.declared.messages.Ask.TheVariants as asks;

use crate::messages::Ask;
use fs_base::{ClientId, InodeId, Items, Memory, Name, Text};
use key_schema::Key;
use std::alloc::Global;

fn copy_id(id: &InodeId) -> InodeId
    ensures { result ≡ id.now }
{
    InodeId::new(id.get())
}

fn copy_dent(alloc: Global, dir: &InodeId, name: &Name) -> Result<Key, Memory>
    ensures { IfOk result (λ copy. copy ≡ keys.Dent dir.now name.now) }
{
    let name = name.try_clone(alloc)?;
    Ok(Key::Dent(copy_id(dir), name))
}

fn copy_session(file: &InodeId, client: &ClientId, number: u64) -> Key
    ensures { result ≡ keys.Session file.now client.now number }
{
    let client = ClientId(client.0);
    Key::Session(copy_id(file), client, number)
}

/// An equal key of its own.
pub fn copy_key(alloc: Global, key: &Key) -> Result<Key, Memory>
    ensures { IfOk result (λ copy. copy ≡ key.now) }
{
    match key {
        Key::Alloc(server) => Ok(Key::Alloc(*server)),
        Key::Dent(dir, name) => copy_dent(alloc, dir, name),
        Key::Gc(id) => Ok(Key::Gc(copy_id(id))),
        Key::Idem(client) => Ok(Key::Idem(ClientId(client.0))),
        Key::Inode(id) => Ok(Key::Inode(copy_id(id))),
        Key::Session(file, client, number) => Ok(copy_session(file, client, *number)),
    }
}

fn copy_get(alloc: Global, key: &Key) -> Result<Ask, Memory>
    ensures { IfOk result (λ copy. copy ≡ asks.Get key.now) }
{
    let key = copy_key(alloc, key)?;
    Ok(Ask::Get(key))
}

fn copy_range(lo: &Text, hi: &Text, limit: u32) -> Result<Ask, Memory>
    ensures { IfOk result (λ copy. copy ≡ asks.Range lo.now hi.now limit) }
{
    let lo = lo.try_clone()?;
    let hi = hi.try_clone()?;
    Ok(Ask::Range { lo, hi, limit })
}

/// An equal ask of its own, of a key or a range.
pub fn copy_look(alloc: Global, ask: &Ask) -> Result<Ask, Memory>
    requires { IsLook ask.now }
    ensures { IfOk result (λ copy. copy ≡ ask.now) }
{
    match ask {
        Ask::Get(key) => copy_get(alloc, key),
        Ask::Range { lo, hi, limit } => copy_range(lo, hi, *limit),
        _ => unreachable!(),
    }
}

/// Copies of conflicts, in the same order.
pub(crate) fn copy_conflicts(
    alloc: Global,
    conflicts: &[(u64, Key)],
) -> Result<Items<(u64, Key)>, Memory>
    ensures { IfOk result (λ copies. copies ≡ conflicts.now) }
{
    let mut copies = Items::new(alloc);
    for (version, key) in conflicts {
        copies.push((*version, copy_key(alloc, key)?))?;
    }
    Ok(copies)
}
