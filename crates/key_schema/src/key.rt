ghost use Rattle.std.specs.Prelude.{◌≡◌, [], ◌∷◌, ◌++◌, IfOk, OnOk};
ghost use Rattle.std.specs.Int.{w64, w128, to_le_bytes, to_be_bytes};
ghost use Rattle.key_schema.specs.Keys.{body, spelled_key, OneKeyEach};
ghost use Rattle.key_schema.specs.declared.key.KeyError.TheVariants as errors;

use fs_base::{ClientId, InodeId, Memory, Name};
use std::alloc::Global;
use thiserror::Error;

/// What a row of the store is about.
///
/// The prefixes `INOD` and `DENT` and the little-endian ids are those of the 3FS Design Notes.
#[derive(Debug, Drop)]
pub enum Key {
    /// The next inode number of a server, 0 to 15.
    Alloc(u8),
    /// The entry of a name in a directory.
    Dent(InodeId, Name),
    /// A file that is being deleted.
    Gc(InodeId),
    /// A client's kept reply. The UUID's bytes are in the order of RFC 9562.
    Idem(ClientId),
    /// An inode's own row.
    Inode(InodeId),
    /// A write session: its file, client and number, from 1.
    Session(InodeId, ClientId, u64),
}

/// Why bytes are no key.
#[derive(Clone, Copy, Debug, PartialEq, Eq, Error)]
pub enum KeyError {
    #[error("not a key")]
    NotAKey,
    #[error("out of memory")]
    Memory,
}

impl From<Memory> for KeyError {
    ghost from_gives = { λ _ e. e ≡ errors.Memory };

    fn from(_e: Memory) -> KeyError {
        KeyError::Memory
    }
}

impl Key {
    /// The key's bytes.
    #[tactic(auto, unfolding(crate::specs::Keys::spelled_key))]
    pub fn write(&self, alloc: Global) -> Result<Vec<u8>, Memory>
        ensures { IfOk result (λ bytes. bytes.items ≡ spelled_key self.now) }
    {
        let mut bytes = Vec::new(alloc);
        bytes.extend_from_slice(&self.letters())?;
        self.put_body(&mut bytes)?;
        Ok(bytes)
    }

    /// Adds what follows the letters.
    fn put_body(&self, bytes: &mut Vec<u8>) -> Result<(), Memory>
        ensures { OnOk result (bytes.new.items ≡ bytes.old.items ++ body self.now) }
    {
        match self {
            Key::Alloc(server) => put_server(bytes, *server),
            Key::Dent(parent, name) => put_entry(bytes, *parent, name),
            Key::Gc(inode) | Key::Inode(inode) => put_id(bytes, *inode),
            Key::Idem(client) => put_client(bytes, *client),
            Key::Session(file, client, number) => put_session(bytes, *file, *client, *number),
        }
    }
}

fn put_server(bytes: &mut Vec<u8>, server: u8) -> Result<(), Memory>
    ensures { OnOk result (bytes.new.items ≡ bytes.old.items ++ server ∷ []) }
{
    bytes.push(server)?;
    Ok(())
}

fn put_id(bytes: &mut Vec<u8>, inode: InodeId) -> Result<(), Memory>
    ensures { OnOk result (bytes.new.items ≡ bytes.old.items ++ to_le_bytes w64 inode) }
{
    bytes.extend_from_slice(&inode.get().to_le_bytes())?;
    Ok(())
}

fn put_entry(bytes: &mut Vec<u8>, parent: InodeId, name: &Name) -> Result<(), Memory>
    ensures { OnOk result (bytes.new.items ≡ bytes.old.items ++ (to_le_bytes w64 parent ++ name.now)) }
{
    put_id(bytes, parent)?;
    bytes.extend_from_slice(name.bytes())?;
    Ok(())
}

fn put_client(bytes: &mut Vec<u8>, client: ClientId) -> Result<(), Memory>
    ensures { OnOk result (bytes.new.items ≡ bytes.old.items ++ to_be_bytes w128 client.0) }
{
    bytes.extend_from_slice(&client.0.to_be_bytes())?;
    Ok(())
}

/// A session's number, most significant byte first.
fn put_number(bytes: &mut Vec<u8>, number: u64) -> Result<(), Memory>
    ensures { OnOk result (bytes.new.items ≡ bytes.old.items ++ to_be_bytes w64 number) }
{
    bytes.extend_from_slice(&number.to_be_bytes())?;
    Ok(())
}

fn put_holder(bytes: &mut Vec<u8>, client: ClientId, number: u64) -> Result<(), Memory>
    ensures { OnOk result
        (bytes.new.items ≡ bytes.old.items ++ (to_be_bytes w128 client.0 ++ to_be_bytes w64 number)) }
{
    put_client(bytes, client)?;
    put_number(bytes, number)
}

fn put_session(
    bytes: &mut Vec<u8>,
    file: InodeId,
    client: ClientId,
    number: u64,
) -> Result<(), Memory>
    ensures { OnOk result
        (bytes.new.items ≡ bytes.old.items
        ++ (to_le_bytes w64 file ++ (to_be_bytes w128 client.0 ++ to_be_bytes w64 number))) }
{
    put_id(bytes, file)?;
    put_holder(bytes, client, number)?;
    Ok(())
}

/// Keys with one spelling are one key. It does nothing; its contract is the law.
pub fn one_key_each()
    ensures { OneKeyEach }
{}
