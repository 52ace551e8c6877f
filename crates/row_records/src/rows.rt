ghost use Rattle.std.specs.Prelude.{◌≡◌, ◌++◌, IfOk, OnOk};
ghost use Rattle.fs_base.specs.Gives.{Gives};
ghost use Rattle.byte_fields.specs.Outcome.{left_of, fault_place, NeedsNoMemory};
ghost use Rattle.row_records.specs.Rows.{dent, session_row, kept, alloc_row, by_phase, gc, spelled_dent, read_dent, spelled_session, read_session, spelled_kept, read_kept, spelled_alloc, read_alloc, spelled_gc, read_gc};

use crate::reply_reading::reply;
use crate::reply_writing::put_reply;
use byte_fields::{Cursor, FieldError, RowError, Writer};
use fs_base::limits::LAST_NUMBER;
use fs_base::{InodeId, Kind, Layout, Memory, Reply};
use std::alloc::Global;

/// The row of a directory's entry: the inode, and its kind.
#[derive(Clone, Copy, Debug, PartialEq, Eq)]
pub struct DentRow {
    pub inode: InodeId,
    pub kind: Kind,
}

/// The row of a write session: the stamp of the request that opened it, below 2^53.
#[derive(Clone, Copy, Debug, PartialEq, Eq)]
pub struct SessionRow {
    pub stamp: u64,
}

/// The row of a client's last update: its number, at least 1, and what it was answered.
#[derive(Debug, Drop)]
pub struct KeptRow {
    pub number: u64,
    pub reply: Reply,
}

/// The row of a server's next inode number, 1 to 4,294,967,295.
#[derive(Clone, Copy, Debug, PartialEq, Eq)]
pub struct AllocRow {
    pub next: u64,
}

/// The row of a file that is being deleted.
#[derive(Clone, Copy, Debug, PartialEq, Eq)]
pub enum GcRow {
    /// Its node is still there.
    Waiting,
    /// Its node is gone; where its chunks lie, and how many places of the layout were in use, 1 to the
    /// stripe.
    Purged { layout: Layout, hint: u16 },
}

impl DentRow {
    /// The row's bytes.
    #[tactic(auto, unfolding(crate::specs::Rows::dent))]
    pub fn write(&self, alloc: Global) -> Result<Vec<u8>, Memory>
        ensures { IfOk result (λ bytes. bytes.items ≡ spelled_dent self.now) }
    {
        let mut writer = Writer::new(alloc);
        writer.version()?;
        writer.inode_id(self.inode)?;
        writer.kind(self.kind)?;
        Ok(writer.into_bytes())
    }

    /// The row that all the bytes spell.
    pub fn read(_alloc: Global, bytes: &[u8]) -> Result<DentRow, RowError>
        ensures gives { Gives fault_place (λ row. row) result (read_dent bytes.now) }
        ensures memory { NeedsNoMemory fault_place result }
    {
        let mut cursor = Cursor::new(bytes);
        let row = dent(&mut cursor);
        cursor.finish(bytes.len(), row)
    }
}

#[tactic(auto, unfolding(crate::specs::Rows::dent))]
fn dent(cursor: &mut Cursor) -> Result<DentRow, FieldError>
    ensures gives { Gives left_of (λ row. (row, cursor.new)) result (dent.reads cursor.old) }
    ensures memory { NeedsNoMemory left_of result }
{
    cursor.version()?;
    let inode = cursor.inode_id()?;
    let kind = cursor.kind()?;
    Ok(DentRow { inode, kind })
}

impl SessionRow {
    /// The row's bytes.
    #[tactic(auto, unfolding(crate::specs::Rows::session_row))]
    pub fn write(&self, alloc: Global) -> Result<Vec<u8>, Memory>
        ensures { IfOk result (λ bytes. bytes.items ≡ spelled_session self.now) }
    {
        let mut writer = Writer::new(alloc);
        writer.version()?;
        writer.time(self.stamp)?;
        Ok(writer.into_bytes())
    }

    /// The row that all the bytes spell.
    pub fn read(_alloc: Global, bytes: &[u8]) -> Result<SessionRow, RowError>
        ensures gives { Gives fault_place (λ row. row) result (read_session bytes.now) }
        ensures memory { NeedsNoMemory fault_place result }
    {
        let mut cursor = Cursor::new(bytes);
        let row = session(&mut cursor);
        cursor.finish(bytes.len(), row)
    }
}

#[tactic(auto, unfolding(crate::specs::Rows::session_row))]
fn session(cursor: &mut Cursor) -> Result<SessionRow, FieldError>
    ensures gives { Gives left_of (λ row. (row, cursor.new)) result (session_row.reads cursor.old) }
    ensures memory { NeedsNoMemory left_of result }
{
    cursor.version()?;
    let stamp = cursor.time()?;
    Ok(SessionRow { stamp })
}

impl KeptRow {
    /// The row's bytes.
    #[tactic(auto, unfolding(crate::specs::Rows::kept))]
    pub fn write(&self, alloc: Global) -> Result<Vec<u8>, Memory>
        ensures { IfOk result (λ bytes. bytes.items ≡ spelled_kept self.now) }
    {
        let mut writer = Writer::new(alloc);
        writer.version()?;
        writer.u64(self.number)?;
        put_reply(&mut writer, &self.reply)?;
        Ok(writer.into_bytes())
    }

    /// The row that all the bytes spell.
    pub fn read(alloc: Global, bytes: &[u8]) -> Result<KeptRow, RowError>
        ensures { Gives fault_place (λ row. row) result (read_kept bytes.now) }
    {
        let mut cursor = Cursor::new(bytes);
        let row = kept(alloc, &mut cursor);
        cursor.finish(bytes.len(), row)
    }
}

#[tactic(auto, unfolding(crate::specs::Rows::kept))]
fn kept(alloc: Global, cursor: &mut Cursor) -> Result<KeptRow, FieldError>
    ensures { Gives left_of (λ row. (row, cursor.new)) result (kept.reads cursor.old) }
{
    cursor.version()?;
    let number = cursor.u64_within(1, u64::MAX)?;
    let reply = reply(alloc, cursor)?;
    Ok(KeptRow { number, reply })
}

impl AllocRow {
    /// The row's bytes.
    #[tactic(auto, unfolding(crate::specs::Rows::alloc_row))]
    pub fn write(&self, alloc: Global) -> Result<Vec<u8>, Memory>
        ensures { IfOk result (λ bytes. bytes.items ≡ spelled_alloc self.now) }
    {
        let mut writer = Writer::new(alloc);
        writer.version()?;
        writer.u64(self.next)?;
        Ok(writer.into_bytes())
    }

    /// The row that all the bytes spell.
    pub fn read(_alloc: Global, bytes: &[u8]) -> Result<AllocRow, RowError>
        ensures gives { Gives fault_place (λ row. row) result (read_alloc bytes.now) }
        ensures memory { NeedsNoMemory fault_place result }
    {
        let mut cursor = Cursor::new(bytes);
        let row = next(&mut cursor);
        cursor.finish(bytes.len(), row)
    }
}

#[tactic(auto, unfolding(crate::specs::Rows::alloc_row))]
fn next(cursor: &mut Cursor) -> Result<AllocRow, FieldError>
    ensures gives { Gives left_of (λ row. (row, cursor.new)) result (alloc_row.reads cursor.old) }
    ensures memory { NeedsNoMemory left_of result }
{
    cursor.version()?;
    let next = cursor.u64_within(1, u64::from(LAST_NUMBER))?;
    Ok(AllocRow { next })
}

impl GcRow {
    /// The row's bytes.
    #[tactic(auto, unfolding(crate::specs::Rows::gc))]
    pub fn write(&self, alloc: Global) -> Result<Vec<u8>, Memory>
        ensures { IfOk result (λ bytes. bytes.items ≡ spelled_gc self.now) }
    {
        let mut writer = Writer::new(alloc);
        writer.version()?;
        self.put(&mut writer)?;
        Ok(writer.into_bytes())
    }

    #[tactic(auto, unfolding(crate::specs::Rows::by_phase))]
    fn put(&self, writer: &mut Writer) -> Result<(), Memory>
        ensures { OnOk result (writer.new ≡ writer.old ++ by_phase.spelled self.now) }
    {
        match self {
            GcRow::Waiting => writer.u8(0),
            GcRow::Purged { layout, hint } => {
                writer.u8(1)?;
                writer.used_layout(*layout, *hint)
            }
        }
    }

    /// The row that all the bytes spell.
    pub fn read(_alloc: Global, bytes: &[u8]) -> Result<GcRow, RowError>
        ensures gives { Gives fault_place (λ row. row) result (read_gc bytes.now) }
        ensures memory { NeedsNoMemory fault_place result }
    {
        let mut cursor = Cursor::new(bytes);
        let row = gc(&mut cursor);
        cursor.finish(bytes.len(), row)
    }
}

#[tactic(auto, unfolding(crate::specs::Rows::gc))]
fn gc(cursor: &mut Cursor) -> Result<GcRow, FieldError>
    ensures gives { Gives left_of (λ row. (row, cursor.new)) result (gc.reads cursor.old) }
    ensures memory { NeedsNoMemory left_of result }
{
    cursor.version()?;
    by_phase(cursor)
}

#[tactic(auto, unfolding(crate::specs::Rows::by_phase))]
fn by_phase(cursor: &mut Cursor) -> Result<GcRow, FieldError>
    ensures gives { Gives left_of (λ row. (row, cursor.new)) result (by_phase.reads cursor.old) }
    ensures memory { NeedsNoMemory left_of result }
{
    let left = cursor.left();
    match cursor.u8()? {
        0 => Ok(GcRow::Waiting),
        1 => {
            let (layout, hint) = cursor.used_layout()?;
            Ok(GcRow::Purged { layout, hint })
        }
        _ => Err(FieldError::Unread(left)),
    }
}
