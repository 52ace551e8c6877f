use anyhow::{Context, Result, bail};
use byte_fields::RowError;
use fs_base::{Call, InodeId, Memory, Reply};
use inode_record::InodeRow;
use key_schema::{Key, KeyError, dir_range, session_range};
use row_records::{
    AllocRow, DentRow, GcRow, KeptRow, SessionRow, call_read, call_write, reply_read, reply_write,
};
use std::alloc::Global;
use std::fmt::Debug;
use test_support::bytes_of;

/// What bytes are read as, and written again.
trait Spelled: Debug + Drop {
    fn read(alloc: Global, bytes: &[u8]) -> Result<Self, RowError>;

    fn write(&self, alloc: Global) -> Result<Vec<u8>, Memory>;
}

/// Written of a copy.
impl Spelled for InodeRow {
    fn read(alloc: Global, bytes: &[u8]) -> Result<InodeRow, RowError> {
        InodeRow::read(alloc, bytes)
    }

    fn write(&self, alloc: Global) -> Result<Vec<u8>, Memory> {
        let copy = self.try_clone(alloc)?;
        copy.write(alloc)
    }
}

impl Spelled for DentRow {
    fn read(alloc: Global, bytes: &[u8]) -> Result<DentRow, RowError> {
        DentRow::read(alloc, bytes)
    }

    fn write(&self, alloc: Global) -> Result<Vec<u8>, Memory> {
        DentRow::write(self, alloc)
    }
}

impl Spelled for SessionRow {
    fn read(alloc: Global, bytes: &[u8]) -> Result<SessionRow, RowError> {
        SessionRow::read(alloc, bytes)
    }

    fn write(&self, alloc: Global) -> Result<Vec<u8>, Memory> {
        SessionRow::write(self, alloc)
    }
}

impl Spelled for KeptRow {
    fn read(alloc: Global, bytes: &[u8]) -> Result<KeptRow, RowError> {
        KeptRow::read(alloc, bytes)
    }

    fn write(&self, alloc: Global) -> Result<Vec<u8>, Memory> {
        KeptRow::write(self, alloc)
    }
}

impl Spelled for AllocRow {
    fn read(alloc: Global, bytes: &[u8]) -> Result<AllocRow, RowError> {
        AllocRow::read(alloc, bytes)
    }

    fn write(&self, alloc: Global) -> Result<Vec<u8>, Memory> {
        AllocRow::write(self, alloc)
    }
}

impl Spelled for GcRow {
    fn read(alloc: Global, bytes: &[u8]) -> Result<GcRow, RowError> {
        GcRow::read(alloc, bytes)
    }

    fn write(&self, alloc: Global) -> Result<Vec<u8>, Memory> {
        GcRow::write(self, alloc)
    }
}

/// A stamp and a call, written of a copy.
impl Spelled for (u64, Call) {
    fn read(alloc: Global, bytes: &[u8]) -> Result<(u64, Call), RowError> {
        call_read(alloc, bytes)
    }

    fn write(&self, alloc: Global) -> Result<Vec<u8>, Memory> {
        let copy = self.1.try_clone(alloc)?;
        call_write(alloc, self.0, &copy)
    }
}

/// Written of a copy.
impl Spelled for Reply {
    fn read(alloc: Global, bytes: &[u8]) -> Result<Reply, RowError> {
        reply_read(alloc, bytes)
    }

    fn write(&self, alloc: Global) -> Result<Vec<u8>, Memory> {
        let copy = self.try_clone(alloc)?;
        reply_write(alloc, &copy)
    }
}

/// A value that bytes were read as; the bytes that are written of it, where they are others.
fn value<T: Debug>(alloc: Global, bytes: &[u8], value: &T, written: &[u8]) -> Result<String> {
    if written == bytes {
        return Ok(format!(in alloc; " = {value:?}")?);
    }
    let written = hex::encode(alloc, written)?;
    Ok(format!(in alloc; " = {value:?}, written as {written}")?)
}

/// What bytes read as.
fn row<T: Spelled>(alloc: Global, bytes: &[u8]) -> Result<String> {
    match T::read(alloc, bytes) {
        Ok(row) => {
            let written = row.write(alloc)?;
            value(alloc, bytes, &row, written.as_slice())
        }
        Err(RowError::NotARecord(place)) => Ok(format!(in alloc; " is none at byte {place}")?),
        Err(RowError::Memory) => bail!(Memory),
    }
}

fn key(alloc: Global, bytes: &[u8]) -> Result<String> {
    match Key::read(alloc, bytes) {
        Ok(key) => {
            let written = key.write(alloc)?;
            value(alloc, bytes, &key, written.as_slice())
        }
        Err(KeyError::NotAKey) => Ok(format!(in alloc; " is none")?),
        Err(KeyError::Memory) => bail!(Memory),
    }
}

/// What bytes of a kind read as.
pub fn told(alloc: Global, kind: &str, word: &str) -> Result<String> {
    let bytes = bytes_of(alloc, word)?;
    let bytes = bytes.as_slice();
    match kind {
        "key" => key(alloc, bytes),
        "inode" => row::<InodeRow>(alloc, bytes),
        "dent" => row::<DentRow>(alloc, bytes),
        "session" => row::<SessionRow>(alloc, bytes),
        "kept" => row::<KeptRow>(alloc, bytes),
        "alloc" => row::<AllocRow>(alloc, bytes),
        "gc" => row::<GcRow>(alloc, bytes),
        "call" => row::<(u64, Call)>(alloc, bytes),
        "reply" => row::<Reply>(alloc, bytes),
        _ => bail!("no such kind of bytes"),
    }
}

/// The ranges of an inode's entries and sessions.
pub fn ranges(alloc: Global, word: &str) -> Result<String> {
    let id = InodeId::read(word.parse::<u64>()?).context("no inode has this number")?;
    let (first, behind) = dir_range(id);
    let first = hex::encode(alloc, first.as_slice())?;
    let behind = hex::encode(alloc, behind.as_slice())?;
    let (lo, hi) = session_range(id);
    let lo = hex::encode(alloc, lo.as_slice())?;
    let hi = hex::encode(alloc, hi.as_slice())?;
    Ok(format!(in alloc; " = {first} to {behind}, {lo} to {hi}")?)
}
