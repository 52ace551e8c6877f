//! Fields of calls and replies, read and written.

ghost use Rattle.std.specs.Prelude.{◌≡◌, ◌++◌, OnOk};
ghost use Rattle.fs_base.specs.Gives.{Gives};
ghost use Rattle.byte_fields.specs.Outcome.{left_of};
ghost use Rattle.byte_fields.specs.Fields.{number_4, mode, time, optional};
ghost use Rattle.row_records.specs.Calls.{place, session, default_layout, changes, span};
ghost use Rattle.row_records.specs.Replies.{identity, ownership, three_times, attributes, told_layout, file_info, adopted, phase, limit};

use byte_fields::{Cursor, FieldError, Writer};
use fs_base::limits::SPAN_BYTES;
use fs_base::{
    Attributes, Changes, DefaultLayout, DeletionPhase, FileInfo, InodeId, Kind, Layout, Limit,
    Memory, Place, Session,
};
use std::alloc::Global;

#[tactic(auto, unfolding(crate::specs::Calls::place))]
pub(crate) fn place(alloc: Global, cursor: &mut Cursor) -> Result<Place, FieldError>
    ensures { Gives left_of (λ p. (p, cursor.new)) result (place.reads cursor.old) }
{
    let base = cursor.inode_id()?;
    let text = cursor.owned_text(alloc)?;
    Ok(Place { base, text })
}

#[tactic(auto, unfolding(crate::specs::Calls::place))]
pub(crate) fn put_place(writer: &mut Writer, value: &Place) -> Result<(), Memory>
    ensures { OnOk result (writer.new ≡ writer.old ++ place.spelled value.now) }
{
    writer.inode_id(value.base)?;
    writer.text(value.text.as_slice())
}

#[tactic(auto, unfolding(crate::specs::Calls::session))]
pub(crate) fn session(cursor: &mut Cursor) -> Result<Session, FieldError>
    ensures { Gives left_of (λ s. (s, cursor.new)) result (session.reads cursor.old) }
{
    let inode = cursor.inode_id()?;
    let number = cursor.u64()?;
    Ok(Session { inode, number })
}

#[tactic(auto, unfolding(crate::specs::Calls::session))]
pub(crate) fn put_session(writer: &mut Writer, value: &Session) -> Result<(), Memory>
    ensures { OnOk result (writer.new ≡ writer.old ++ session.spelled value.now) }
{
    writer.inode_id(value.inode)?;
    writer.u64(value.number)
}

#[tactic(auto, unfolding(crate::specs::Calls::default_layout))]
fn default_layout(cursor: &mut Cursor) -> Result<DefaultLayout, FieldError>
    ensures { Gives left_of (λ l. (l, cursor.new)) result (default_layout.reads cursor.old) }
{
    let chunk = cursor.u32()?;
    let stripe = cursor.u16()?;
    Ok(DefaultLayout { chunk, stripe })
}

#[tactic(auto, unfolding(crate::specs::Calls::default_layout))]
fn put_default_layout(writer: &mut Writer, value: &DefaultLayout) -> Result<(), Memory>
    ensures { OnOk result (writer.new ≡ writer.old ++ default_layout.spelled value.now) }
{
    writer.u32(value.chunk)?;
    writer.u16(value.stripe)
}

pub(crate) fn layout_option(cursor: &mut Cursor) -> Result<Option<DefaultLayout>, FieldError>
    ensures { Gives left_of (λ l. (l, cursor.new)) result ((optional default_layout).reads cursor.old) }
{
    let left = cursor.left();
    match cursor.u8()? {
        0 => Ok(None),
        1 => {
            let layout = default_layout(cursor)?;
            Ok(Some(layout))
        }
        _ => Err(FieldError::Unread(left)),
    }
}

pub(crate) fn put_layout_option(
    writer: &mut Writer,
    value: &Option<DefaultLayout>,
) -> Result<(), Memory>
    ensures { OnOk result (writer.new ≡ writer.old ++ (optional default_layout).spelled value.now) }
{
    match value {
        None => writer.u8(0),
        Some(layout) => {
            writer.u8(1)?;
            put_default_layout(writer, layout)
        }
    }
}

fn mode_option(cursor: &mut Cursor) -> Result<Option<u16>, FieldError>
    ensures { Gives left_of (λ m. (m, cursor.new)) result ((optional mode).reads cursor.old) }
{
    let left = cursor.left();
    match cursor.u8()? {
        0 => Ok(None),
        1 => {
            let mode = cursor.mode()?;
            Ok(Some(mode))
        }
        _ => Err(FieldError::Unread(left)),
    }
}

fn put_mode_option(writer: &mut Writer, value: Option<u16>) -> Result<(), Memory>
    ensures { OnOk result (writer.new ≡ writer.old ++ (optional mode).spelled value) }
{
    match value {
        None => writer.u8(0),
        Some(mode) => {
            writer.u8(1)?;
            writer.mode(mode)
        }
    }
}

fn u32_option(cursor: &mut Cursor) -> Result<Option<u32>, FieldError>
    ensures { Gives left_of (λ n. (n, cursor.new)) result ((optional number_4).reads cursor.old) }
{
    let left = cursor.left();
    match cursor.u8()? {
        0 => Ok(None),
        1 => {
            let number = cursor.u32()?;
            Ok(Some(number))
        }
        _ => Err(FieldError::Unread(left)),
    }
}

fn put_u32_option(writer: &mut Writer, value: Option<u32>) -> Result<(), Memory>
    ensures { OnOk result (writer.new ≡ writer.old ++ (optional number_4).spelled value) }
{
    match value {
        None => writer.u8(0),
        Some(number) => {
            writer.u8(1)?;
            writer.u32(number)
        }
    }
}

fn time_option(cursor: &mut Cursor) -> Result<Option<u64>, FieldError>
    ensures { Gives left_of (λ t. (t, cursor.new)) result ((optional time).reads cursor.old) }
{
    let left = cursor.left();
    match cursor.u8()? {
        0 => Ok(None),
        1 => {
            let time = cursor.time()?;
            Ok(Some(time))
        }
        _ => Err(FieldError::Unread(left)),
    }
}

fn put_time_option(writer: &mut Writer, value: Option<u64>) -> Result<(), Memory>
    ensures { OnOk result (writer.new ≡ writer.old ++ (optional time).spelled value) }
{
    match value {
        None => writer.u8(0),
        Some(time) => {
            writer.u8(1)?;
            writer.time(time)
        }
    }
}

#[tactic(auto, unfolding(crate::specs::Calls::changes))]
pub(crate) fn changes(cursor: &mut Cursor) -> Result<Changes, FieldError>
    ensures { Gives left_of (λ c. (c, cursor.new)) result (changes.reads cursor.old) }
{
    let mode = mode_option(cursor)?;
    let owner = u32_option(cursor)?;
    let group = u32_option(cursor)?;
    let atime = time_option(cursor)?;
    let mtime = time_option(cursor)?;
    Ok(Changes {
        mode,
        owner,
        group,
        atime,
        mtime,
    })
}

#[tactic(auto, unfolding(crate::specs::Calls::changes))]
pub(crate) fn put_changes(writer: &mut Writer, value: &Changes) -> Result<(), Memory>
    ensures { OnOk result (writer.new ≡ writer.old ++ changes.spelled value.now) }
{
    put_mode_option(writer, value.mode)?;
    put_u32_option(writer, value.owner)?;
    put_u32_option(writer, value.group)?;
    put_time_option(writer, value.atime)?;
    put_time_option(writer, value.mtime)
}

/// Offset and length of a write or read.
#[tactic(auto, unfolding(crate::specs::Calls::span))]
pub(crate) fn span(cursor: &mut Cursor) -> Result<(u64, u64), FieldError>
    ensures { Gives left_of (λ s. (s, cursor.new)) result (span.reads cursor.old) }
{
    let offset = cursor.file_size()?;
    let len = cursor.u64_within(1, SPAN_BYTES)?;
    Ok((offset, len))
}

#[tactic(auto, unfolding(crate::specs::Calls::span))]
pub(crate) fn put_span(writer: &mut Writer, offset: u64, len: u64) -> Result<(), Memory>
    ensures { OnOk result (writer.new ≡ writer.old ++ span.spelled (offset, len)) }
{
    writer.file_size(offset)?;
    writer.u64(len)
}

#[tactic(auto, unfolding(crate::specs::Replies::identity))]
fn identity(cursor: &mut Cursor) -> Result<(InodeId, (Kind, u16)), FieldError>
    ensures { Gives left_of (λ v. (v, cursor.new)) result (identity.reads cursor.old) }
{
    let inode = cursor.inode_id()?;
    let kind = cursor.kind()?;
    let mode = cursor.mode()?;
    Ok((inode, (kind, mode)))
}

#[tactic(auto, unfolding(crate::specs::Replies::ownership))]
fn ownership(cursor: &mut Cursor) -> Result<(u32, (u32, u32)), FieldError>
    ensures { Gives left_of (λ v. (v, cursor.new)) result (ownership.reads cursor.old) }
{
    let owner = cursor.u32()?;
    let group = cursor.u32()?;
    let links = cursor.u32()?;
    Ok((owner, (group, links)))
}

#[tactic(auto, unfolding(crate::specs::Replies::three_times))]
fn three_times(cursor: &mut Cursor) -> Result<(u64, (u64, u64)), FieldError>
    ensures { Gives left_of (λ v. (v, cursor.new)) result (three_times.reads cursor.old) }
{
    let atime = cursor.time()?;
    let mtime = cursor.time()?;
    let ctime = cursor.time()?;
    Ok((atime, (mtime, ctime)))
}

#[tactic(auto, unfolding(crate::specs::Replies::attributes))]
pub(crate) fn attributes(cursor: &mut Cursor) -> Result<Attributes, FieldError>
    ensures { Gives left_of (λ a. (a, cursor.new)) result (attributes.reads cursor.old) }
{
    let (inode, (kind, mode)) = identity(cursor)?;
    let (owner, (group, links)) = ownership(cursor)?;
    let (atime, (mtime, ctime)) = three_times(cursor)?;
    let length = cursor.u64()?;
    Ok(Attributes {
        inode,
        kind,
        mode,
        owner,
        group,
        links,
        atime,
        mtime,
        ctime,
        length,
    })
}

#[tactic(auto, unfolding(crate::specs::Replies::identity))]
fn put_identity(writer: &mut Writer, value: &Attributes) -> Result<(), Memory>
    ensures { OnOk result
        (writer.new ≡ writer.old ++ identity.spelled (value.now.inode, (value.now.kind, value.now.mode))) }
{
    writer.inode_id(value.inode)?;
    writer.kind(value.kind)?;
    writer.mode(value.mode)
}

#[tactic(auto, unfolding(crate::specs::Replies::ownership))]
fn put_ownership(writer: &mut Writer, value: &Attributes) -> Result<(), Memory>
    ensures { OnOk result
        (writer.new ≡ writer.old ++ ownership.spelled (value.now.owner, (value.now.group, value.now.links))) }
{
    writer.u32(value.owner)?;
    writer.u32(value.group)?;
    writer.u32(value.links)
}

#[tactic(auto, unfolding(crate::specs::Replies::three_times))]
fn put_three_times(writer: &mut Writer, value: &Attributes) -> Result<(), Memory>
    ensures { OnOk result
        (writer.new ≡ writer.old ++ three_times.spelled (value.now.atime, (value.now.mtime, value.now.ctime))) }
{
    writer.time(value.atime)?;
    writer.time(value.mtime)?;
    writer.time(value.ctime)
}

#[tactic(auto, unfolding(crate::specs::Replies::attributes))]
pub(crate) fn put_attributes(writer: &mut Writer, value: &Attributes) -> Result<(), Memory>
    ensures { OnOk result (writer.new ≡ writer.old ++ attributes.spelled value.now) }
{
    put_identity(writer, value)?;
    put_ownership(writer, value)?;
    put_three_times(writer, value)?;
    writer.u64(value.length)
}

#[tactic(auto, unfolding(crate::specs::Replies::told_layout))]
fn told_layout(cursor: &mut Cursor) -> Result<Layout, FieldError>
    ensures { Gives left_of (λ l. (l, cursor.new)) result (told_layout.reads cursor.old) }
{
    let chunk = cursor.u32()?;
    let stripe = cursor.u16()?;
    let start = cursor.u16()?;
    let mix = cursor.u64()?;
    Ok(Layout {
        chunk,
        stripe,
        start,
        mix,
    })
}

#[tactic(auto, unfolding(crate::specs::Replies::told_layout))]
fn put_told_layout(writer: &mut Writer, value: Layout) -> Result<(), Memory>
    ensures { OnOk result (writer.new ≡ writer.old ++ told_layout.spelled value) }
{
    writer.u32(value.chunk)?;
    writer.u16(value.stripe)?;
    writer.u16(value.start)?;
    writer.u64(value.mix)
}

#[tactic(auto, unfolding(crate::specs::Replies::file_info))]
pub(crate) fn file_info(cursor: &mut Cursor) -> Result<FileInfo, FieldError>
    ensures { Gives left_of (λ f. (f, cursor.new)) result (file_info.reads cursor.old) }
{
    let inode = cursor.inode_id()?;
    let length = cursor.u64()?;
    let truncs = cursor.u32()?;
    let layout = told_layout(cursor)?;
    let hint = cursor.u16()?;
    Ok(FileInfo {
        inode,
        length,
        truncs,
        layout,
        hint,
    })
}

#[tactic(auto, unfolding(crate::specs::Replies::file_info))]
pub(crate) fn put_file_info(writer: &mut Writer, value: &FileInfo) -> Result<(), Memory>
    ensures { OnOk result (writer.new ≡ writer.old ++ file_info.spelled value.now) }
{
    writer.inode_id(value.inode)?;
    writer.u64(value.length)?;
    writer.u32(value.truncs)?;
    put_told_layout(writer, value.layout)?;
    writer.u16(value.hint)
}

#[tactic(auto, unfolding(crate::specs::Replies::adopted))]
pub(crate) fn adopted(cursor: &mut Cursor) -> Result<bool, FieldError>
    ensures { Gives left_of (λ b. (b, cursor.new)) result (adopted.reads cursor.old) }
{
    let left = cursor.left();
    match cursor.u8()? {
        0 => Ok(false),
        1 => Ok(true),
        _ => Err(FieldError::Unread(left)),
    }
}

#[tactic(auto, unfolding(crate::specs::Replies::adopted))]
pub(crate) fn put_adopted(writer: &mut Writer, value: bool) -> Result<(), Memory>
    ensures { OnOk result (writer.new ≡ writer.old ++ adopted.spelled value) }
{
    if value { writer.u8(1) } else { writer.u8(0) }
}

#[tactic(auto, unfolding(crate::specs::Replies::phase))]
pub(crate) fn phase(cursor: &mut Cursor) -> Result<DeletionPhase, FieldError>
    ensures { Gives left_of (λ p. (p, cursor.new)) result (phase.reads cursor.old) }
{
    let left = cursor.left();
    match cursor.u8()? {
        0 => Ok(DeletionPhase::Waiting),
        1 => Ok(DeletionPhase::Purged),
        _ => Err(FieldError::Unread(left)),
    }
}

#[tactic(auto, unfolding(crate::specs::Replies::phase))]
pub(crate) fn put_phase(writer: &mut Writer, value: DeletionPhase) -> Result<(), Memory>
    ensures { OnOk result (writer.new ≡ writer.old ++ phase.spelled value) }
{
    match value {
        DeletionPhase::Waiting => writer.u8(0),
        DeletionPhase::Purged => writer.u8(1),
    }
}

#[tactic(auto, unfolding(crate::specs::Replies::limit))]
pub(crate) fn limit(cursor: &mut Cursor) -> Result<Limit, FieldError>
    ensures { Gives left_of (λ l. (l, cursor.new)) result (limit.reads cursor.old) }
{
    let left = cursor.left();
    match cursor.u8()? {
        1 => Ok(Limit::Inodes),
        2 => Ok(Limit::Links),
        3 => Ok(Limit::Truncations),
        _ => Err(FieldError::Unread(left)),
    }
}

#[tactic(auto, unfolding(crate::specs::Replies::limit))]
pub(crate) fn put_limit(writer: &mut Writer, value: Limit) -> Result<(), Memory>
    ensures { OnOk result (writer.new ≡ writer.old ++ limit.spelled value) }
{
    match value {
        Limit::Inodes => writer.u8(1),
        Limit::Links => writer.u8(2),
        Limit::Truncations => writer.u8(3),
    }
}
