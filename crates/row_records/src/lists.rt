//! Lists: a number of items, and the items. No memory is asked for by the number.

ghost use Rattle.std.specs.Prelude.{◌≡◌, ◌++◌, OnOk, None};
ghost use Rattle.fs_base.specs.Gives.{Gives};
ghost use Rattle.byte_fields.specs.Fields.{client};
ghost use Rattle.byte_fields.specs.Forms.{anywhere, reads_items, spelled_items};
ghost use Rattle.byte_fields.specs.Outcome.{left_of};
ghost use Rattle.row_records.specs.Calls.{ascends, clients};
ghost use Rattle.row_records.specs.Replies.{entry, names, doomed_inode, doomed, data_run, data_runs};

use crate::fields::{phase, put_phase};
use byte_fields::{Cursor, FieldError, Writer};
use fs_base::{ClientId, DataRun, DirEntry, DoomedInode, Items, Memory};
use std::alloc::Global;

#[tactic(auto, unfolding(crate::specs::Replies::entry))]
fn entry(alloc: Global, cursor: &mut Cursor) -> Result<DirEntry, FieldError>
    ensures { Gives left_of (λ e. (e, cursor.new)) result (entry.reads cursor.old) }
{
    let name = cursor.owned_text(alloc)?;
    let inode = cursor.inode_id()?;
    let kind = cursor.kind()?;
    Ok(DirEntry { name, inode, kind })
}

#[tactic(auto, unfolding(crate::specs::Replies::entry))]
fn put_entry(writer: &mut Writer, value: &DirEntry) -> Result<(), Memory>
    ensures { OnOk result (writer.new ≡ writer.old ++ entry.spelled value.now) }
{
    writer.text(value.name.as_slice())?;
    writer.inode_id(value.inode)?;
    writer.kind(value.kind)
}

#[tactic(auto, unfolding(crate::specs::Replies::names))]
pub(crate) fn names(alloc: Global, cursor: &mut Cursor) -> Result<Items<DirEntry>, FieldError>
    ensures { Gives left_of (λ items. (items, cursor.new)) result (names.reads cursor.old) }
{
    let count = cursor.u64()?;
    names_of(alloc, cursor, count)
}

fn names_of(alloc: Global, cursor: &mut Cursor, count: u64) -> Result<Items<DirEntry>, FieldError>
    ensures { Gives left_of (λ items. (items, cursor.new)) result
        (reads_items entry anywhere None count cursor.old) }
{
    let mut items = Items::new(alloc);
    for _ in 0..count {
        let item = entry(alloc, cursor)?;
        items.push(item)?;
    }
    Ok(items)
}

#[tactic(auto, unfolding(crate::specs::Replies::names))]
pub(crate) fn put_names(writer: &mut Writer, items: &[DirEntry]) -> Result<(), Memory>
    ensures { OnOk result (writer.new ≡ writer.old ++ names.spelled items.now) }
{
    writer.u64(items.len() as u64)?;
    put_names_of(writer, items)
}

fn put_names_of(writer: &mut Writer, items: &[DirEntry]) -> Result<(), Memory>
    ensures { OnOk result (writer.new ≡ writer.old ++ spelled_items entry items.now) }
{
    for item in items {
        put_entry(writer, item)?;
    }
    Ok(())
}

#[tactic(auto, unfolding(crate::specs::Replies::doomed_inode))]
fn doomed_inode(cursor: &mut Cursor) -> Result<DoomedInode, FieldError>
    ensures { Gives left_of (λ d. (d, cursor.new)) result (doomed_inode.reads cursor.old) }
{
    let inode = cursor.inode_id()?;
    let phase = phase(cursor)?;
    Ok(DoomedInode { inode, phase })
}

#[tactic(auto, unfolding(crate::specs::Replies::doomed_inode))]
fn put_doomed_inode(writer: &mut Writer, value: &DoomedInode) -> Result<(), Memory>
    ensures { OnOk result (writer.new ≡ writer.old ++ doomed_inode.spelled value.now) }
{
    writer.inode_id(value.inode)?;
    put_phase(writer, value.phase)
}

#[tactic(auto, unfolding(crate::specs::Replies::doomed))]
pub(crate) fn doomed(alloc: Global, cursor: &mut Cursor) -> Result<Items<DoomedInode>, FieldError>
    ensures { Gives left_of (λ items. (items, cursor.new)) result (doomed.reads cursor.old) }
{
    let count = cursor.u64()?;
    doomed_of(alloc, cursor, count)
}

fn doomed_of(
    alloc: Global,
    cursor: &mut Cursor,
    count: u64,
) -> Result<Items<DoomedInode>, FieldError>
    ensures { Gives left_of (λ items. (items, cursor.new)) result
        (reads_items doomed_inode anywhere None count cursor.old) }
{
    let mut items = Items::new(alloc);
    for _ in 0..count {
        let item = doomed_inode(cursor)?;
        items.push(item)?;
    }
    Ok(items)
}

#[tactic(auto, unfolding(crate::specs::Replies::doomed))]
pub(crate) fn put_doomed(writer: &mut Writer, items: &[DoomedInode]) -> Result<(), Memory>
    ensures { OnOk result (writer.new ≡ writer.old ++ doomed.spelled items.now) }
{
    writer.u64(items.len() as u64)?;
    put_doomed_of(writer, items)
}

fn put_doomed_of(writer: &mut Writer, items: &[DoomedInode]) -> Result<(), Memory>
    ensures { OnOk result (writer.new ≡ writer.old ++ spelled_items doomed_inode items.now) }
{
    for item in items {
        put_doomed_inode(writer, item)?;
    }
    Ok(())
}

#[tactic(auto, unfolding(crate::specs::Replies::data_run))]
fn data_run(cursor: &mut Cursor) -> Result<DataRun, FieldError>
    ensures { Gives left_of (λ r. (r, cursor.new)) result (data_run.reads cursor.old) }
{
    let offset = cursor.u64()?;
    let len = cursor.u64()?;
    let fill = cursor.u8()?;
    Ok(DataRun { offset, len, fill })
}

#[tactic(auto, unfolding(crate::specs::Replies::data_run))]
fn put_data_run(writer: &mut Writer, value: &DataRun) -> Result<(), Memory>
    ensures { OnOk result (writer.new ≡ writer.old ++ data_run.spelled value.now) }
{
    writer.u64(value.offset)?;
    writer.u64(value.len)?;
    writer.u8(value.fill)
}

#[tactic(auto, unfolding(crate::specs::Replies::data_runs))]
pub(crate) fn data_runs(alloc: Global, cursor: &mut Cursor) -> Result<Items<DataRun>, FieldError>
    ensures { Gives left_of (λ items. (items, cursor.new)) result (data_runs.reads cursor.old) }
{
    let count = cursor.u64()?;
    data_runs_of(alloc, cursor, count)
}

fn data_runs_of(
    alloc: Global,
    cursor: &mut Cursor,
    count: u64,
) -> Result<Items<DataRun>, FieldError>
    ensures { Gives left_of (λ items. (items, cursor.new)) result
        (reads_items data_run anywhere None count cursor.old) }
{
    let mut items = Items::new(alloc);
    for _ in 0..count {
        let item = data_run(cursor)?;
        items.push(item)?;
    }
    Ok(items)
}

#[tactic(auto, unfolding(crate::specs::Replies::data_runs))]
pub(crate) fn put_data_runs(writer: &mut Writer, items: &[DataRun]) -> Result<(), Memory>
    ensures { OnOk result (writer.new ≡ writer.old ++ data_runs.spelled items.now) }
{
    writer.u64(items.len() as u64)?;
    put_data_runs_of(writer, items)
}

fn put_data_runs_of(writer: &mut Writer, items: &[DataRun]) -> Result<(), Memory>
    ensures { OnOk result (writer.new ≡ writer.old ++ spelled_items data_run items.now) }
{
    for item in items {
        put_data_run(writer, item)?;
    }
    Ok(())
}

/// Clients that ascend, each once.
#[tactic(auto, unfolding(crate::specs::Calls::clients))]
pub(crate) fn clients(alloc: Global, cursor: &mut Cursor) -> Result<Items<ClientId>, FieldError>
    ensures { Gives left_of (λ items. (items, cursor.new)) result (clients.reads cursor.old) }
{
    let count = cursor.u64()?;
    clients_of(alloc, cursor, count)
}

fn clients_of(alloc: Global, cursor: &mut Cursor, count: u64) -> Result<Items<ClientId>, FieldError>
    ensures { Gives left_of (λ items. (items, cursor.new)) result
        (reads_items client ascends None count cursor.old) }
{
    let mut items = Items::new(alloc);
    let mut before: Option<ClientId> = None;
    for _ in 0..count {
        let left = cursor.left();
        let item = cursor.client()?;
        if !ascends(before, item) {
            return Err(FieldError::Unread(left));
        }
        items.push(item)?;
        before = Some(item);
    }
    Ok(items)
}

fn ascends(before: Option<ClientId>, next: ClientId) -> bool
    ensures { result ≡ ascends before next }
{
    match before {
        None => true,
        Some(last) => last.0 < next.0,
    }
}

#[tactic(auto, unfolding(crate::specs::Calls::clients))]
pub(crate) fn put_clients(writer: &mut Writer, items: &[ClientId]) -> Result<(), Memory>
    ensures { OnOk result (writer.new ≡ writer.old ++ clients.spelled items.now) }
{
    writer.u64(items.len() as u64)?;
    put_clients_of(writer, items)
}

fn put_clients_of(writer: &mut Writer, items: &[ClientId]) -> Result<(), Memory>
    ensures { OnOk result (writer.new ≡ writer.old ++ spelled_items client items.now) }
{
    for item in items {
        writer.client(*item)?;
    }
    Ok(())
}
