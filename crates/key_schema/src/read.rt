ghost use Rattle.std.specs.Prelude.{◌≡◌, ◌<◌, ◌^◌, ◌≤◌, ◌++◌, ℕ, List, IfOk, IfErr, MatchOption};
ghost use Rattle.std.specs.Int.{w64, w128, to_le_bytes, to_be_bytes};
ghost use Rattle.key_schema.specs.Keys.{IsKeyOf, IsNoKey, IsForm, IsHolder, IsNameless};
ghost use Rattle.fs_base.specs.declared.ids.ClientId.{ClientId};
ghost use Rattle.key_schema.specs.declared.key.Key.{Key};
ghost use Rattle.key_schema.specs.declared.key.Key.TheVariants as keys;
ghost use Rattle.key_schema.specs.declared.key.KeyError.TheVariants as errors;

use crate::key::{Key, KeyError};
use fs_base::limits::{INODE_IDS, SERVERS};
use fs_base::{ClientId, InodeId, Memory, Name, NameError};
use std::alloc::Global;

/// The id in the first eight bytes, and what follows it.
fn id_before(bytes: &[u8]) -> Option<(u64, &[u8])>
    ensures { MatchOption result
        ((i : ℕ) (rest : List ℕ) → i < INODE_IDS → to_le_bytes w64 i ++ rest ≡ bytes.now → ⊥)
        (λ found. (found.0 < INODE_IDS) × (to_le_bytes w64 found.0 ++ found.1.now ≡ bytes.now)) }
{
    match bytes {
        [a, b, c, d, e, f, g, h, rest @ ..] => {
            let number = u64::from_le_bytes([*a, *b, *c, *d, *e, *f, *g, *h]);
            if number < INODE_IDS {
                Some((number, rest))
            } else {
                None
            }
        }
        _ => None,
    }
}

/// The number in the first eight bytes, most significant byte first, and what follows it.
fn number_before(bytes: &[u8]) -> Option<(u64, &[u8])>
    ensures { MatchOption result ((n : ℕ) (rest : List ℕ) → to_be_bytes w64 n ++ rest ≡ bytes.now → ⊥)
        (λ found. (found.0 < 2 ^ 64) × (to_be_bytes w64 found.0 ++ found.1.now ≡ bytes.now)) }
{
    match bytes {
        [a, b, c, d, e, f, g, h, rest @ ..] => {
            let number = u64::from_be_bytes([*a, *b, *c, *d, *e, *f, *g, *h]);
            Some((number, rest))
        }
        _ => None,
    }
}

/// The client in the first sixteen bytes, and what follows it.
fn client_before(bytes: &[u8]) -> Option<(ClientId, &[u8])>
    ensures { MatchOption result ((c : ℕ) (rest : List ℕ) → to_be_bytes w128 c ++ rest ≡ bytes.now → ⊥)
        (λ found. (found.0.0 < 2 ^ 128) × (to_be_bytes w128 found.0.0 ++ found.1.now ≡ bytes.now)) }
{
    let Some((high, rest)) = number_before(bytes) else {
        return None;
    };
    let Some((low, rest)) = number_before(rest) else {
        return None;
    };
    let client = u128::from(high) * (1 << 64) + u128::from(low);
    Some((ClientId(client), rest))
}

#[tactic(auto, unfolding(crate::specs::Keys::spelled_key))]
fn alloc_in(bytes: &[u8]) -> Option<Key>
    ensures { IsForm bytes.now (λ (server : ℕ). keys.Alloc server) result }
{
    match bytes {
        [b'A', b'L', b'O', b'C', server] if *server < SERVERS => Some(Key::Alloc(*server)),
        _ => None,
    }
}

#[tactic(auto, unfolding(crate::specs::Keys::spelled_key))]
fn inode_in(bytes: &[u8]) -> Option<Key>
    ensures { IsForm bytes.now (λ (id : ℕ). keys.Inode id) result }
{
    let [b'I', b'N', b'O', b'D', body @ ..] = bytes else {
        return None;
    };
    match id_before(body) {
        Some((id, [])) => Some(Key::Inode(InodeId::new(id))),
        _ => None,
    }
}

#[tactic(auto, unfolding(crate::specs::Keys::spelled_key))]
fn gc_in(bytes: &[u8]) -> Option<Key>
    ensures { IsForm bytes.now (λ (id : ℕ). keys.Gc id) result }
{
    let [b'G', b'C', b'O', b'L', body @ ..] = bytes else {
        return None;
    };
    match id_before(body) {
        Some((id, [])) => Some(Key::Gc(InodeId::new(id))),
        _ => None,
    }
}

/// A client, which is all of the bytes.
fn client_in(bytes: &[u8]) -> Option<ClientId>
    ensures { MatchOption result ((client : ClientId) → to_be_bytes w128 client.0 ≡ bytes.now → ⊥)
        (λ client. (client.0 < 2 ^ 128) × (to_be_bytes w128 client.0 ≡ bytes.now)) }
{
    match client_before(bytes) {
        Some((client, [])) => Some(client),
        _ => None,
    }
}

#[tactic(auto, unfolding(crate::specs::Keys::spelled_key))]
fn idem_in(bytes: &[u8]) -> Option<Key>
    ensures { IsForm bytes.now (λ (client : ClientId). keys.Idem client) result }
{
    match bytes {
        [b'I', b'D', b'E', b'M', body @ ..] => client_in(body).map(Key::Idem),
        _ => None,
    }
}

/// A session's client and number, which are all of the bytes.
fn holder_in(bytes: &[u8]) -> Option<(ClientId, u64)>
    ensures { MatchOption result
        ((client : ClientId) (n : ℕ) → IsHolder client n
        → to_be_bytes w128 client.0 ++ to_be_bytes w64 n ≡ bytes.now → ⊥)
        (λ found. IsHolder found.0 found.1 × (to_be_bytes w128 found.0.0 ++ to_be_bytes w64 found.1 ≡ bytes.now)) }
{
    let Some((client, rest)) = client_before(bytes) else {
        return None;
    };
    match number_before(rest) {
        Some((number, [])) if number > 0 => Some((client, number)),
        _ => None,
    }
}

/// A session's inode, client and number, which are all of the bytes.
fn session_of(bytes: &[u8]) -> Option<(u64, ClientId, u64)>
    ensures { MatchOption result
        ((x : ℕ × ClientId × ℕ) → x.0 < INODE_IDS → IsHolder x.1 x.2
        → to_le_bytes w64 x.0 ++ (to_be_bytes w128 x.1.0 ++ to_be_bytes w64 x.2) ≡ bytes.now → ⊥)
        (λ x. (x.0 < INODE_IDS) × IsHolder x.1 x.2 × (to_le_bytes w64 x.0 ++ (to_be_bytes w128 x.1.0 ++ to_be_bytes w64 x.2) ≡ bytes.now)) }
{
    let Some((inode, rest)) = id_before(bytes) else {
        return None;
    };
    let Some((client, number)) = holder_in(rest) else {
        return None;
    };
    Some((inode, client, number))
}

#[tactic(auto, unfolding(crate::specs::Keys::spelled_key))]
fn session_in(bytes: &[u8]) -> Option<Key>
    ensures { IsForm bytes.now (λ (x : ℕ × ClientId × ℕ). keys.Session x.0 x.1 x.2) result }
{
    match bytes {
        [b'S', b'E', b'S', b'S', body @ ..] => match session_of(body) {
            Some((inode, client, number)) => {
                Some(Key::Session(InodeId::new(inode), client, number))
            }
            None => None,
        },
        _ => None,
    }
}

#[tactic(auto, unfolding(crate::specs::Keys::spelled_key, fs_base::specs::Names::name_of))]
fn dent_in(alloc: Global, bytes: &[u8]) -> Result<Option<Key>, Memory>
    ensures { IfOk result (IsForm bytes.now (λ (x : ℕ × List ℕ). keys.Dent x.0 x.1)) }
{
    let [b'D', b'E', b'N', b'T', body @ ..] = bytes else {
        return Ok(None);
    };
    let Some((parent, rest)) = id_before(body) else {
        return Ok(None);
    };
    match Name::read(alloc, rest) {
        Ok(name) => Ok(Some(Key::Dent(InodeId::new(parent), name))),
        Err(NameError::BadName) => Ok(None),
        Err(NameError::Memory) => Err(Memory),
    }
}

/// The key, where the bytes are one that has no name.
fn nameless_in(bytes: &[u8]) -> Option<Key>
    ensures { MatchOption result (IsNameless bytes.now) (λ key. IsKeyOf bytes.now key) }
{
    if let Some(key) = inode_in(bytes) {
        return Some(key);
    }
    if let Some(key) = session_in(bytes) {
        return Some(key);
    }
    if let Some(key) = idem_in(bytes) {
        return Some(key);
    }
    if let Some(key) = gc_in(bytes) {
        return Some(key);
    }
    alloc_in(bytes)
}

impl Key {
    /// The key that these bytes spell; `NotAKey` exactly where they spell none.
    #[tactic(auto, using(crate::proofs::Forms::no_key))]
    pub fn read(alloc: Global, bytes: &[u8]) -> Result<Key, KeyError>
        ensures ok { IfOk result (λ key. IsKeyOf bytes.now key) }
        ensures none { IfErr result (λ e. e ≡ errors.NotAKey → IsNoKey bytes.now) }
        ensures back { (key : Key) → IsKeyOf bytes.now key → IfOk result (λ found. found ≡ key) }
    {
        if let Some(key) = nameless_in(bytes) {
            return Ok(key);
        }
        match dent_in(alloc, bytes) {
            Ok(Some(key)) => Ok(key),
            Ok(None) => Err(KeyError::NotAKey),
            Err(Memory) => Err(KeyError::Memory),
        }
    }
}
