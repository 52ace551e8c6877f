ghost use Rattle.std.specs.Prelude.{◌≡◌};
ghost use Rattle.fs_base.specs.Gives.{Gives};
ghost use Rattle.byte_fields.specs.Outcome.{left_of, fault_place};
ghost use Rattle.inode_record.specs.Inode.{access, times, head, dir_arm, file_arm, link_arm, by_kind, inode, read_inode};

use crate::inode::{Access, Head, InodePart, InodeRow, Times};
use byte_fields::{Cursor, FieldError, RowError};
use fs_base::Text;
use fs_base::limits::LINK_COUNT;
use std::alloc::Global;

impl InodeRow {
    /// The row that all the bytes spell.
    pub fn read(alloc: Global, bytes: &[u8]) -> Result<InodeRow, RowError>
        ensures { Gives fault_place (λ row. row) result (read_inode bytes.now) }
    {
        let mut cursor = Cursor::new(bytes);
        let row = inode(alloc, &mut cursor);
        cursor.finish(bytes.len(), row)
    }
}

#[tactic(auto, unfolding(crate::specs::Inode::inode))]
fn inode(alloc: Global, cursor: &mut Cursor) -> Result<InodeRow, FieldError>
    ensures { Gives left_of (λ row. (row, cursor.new)) result (inode.reads cursor.old) }
{
    cursor.version()?;
    by_kind(alloc, cursor)
}

#[tactic(auto, unfolding(crate::specs::Inode::by_kind))]
fn by_kind(alloc: Global, cursor: &mut Cursor) -> Result<InodeRow, FieldError>
    ensures { Gives left_of (λ row. (row, cursor.new)) result (by_kind.reads cursor.old) }
{
    let left = cursor.left();
    match cursor.u8()? {
        1 => dir_row(cursor),
        2 => file_row(cursor),
        3 => link_row(alloc, cursor),
        _ => Err(FieldError::Unread(left)),
    }
}

#[tactic(auto, unfolding(crate::specs::Inode::access))]
fn access(cursor: &mut Cursor) -> Result<Access, FieldError>
    ensures { Gives left_of (λ a. (a, cursor.new)) result (access.reads cursor.old) }
{
    let mode = cursor.mode()?;
    let owner = cursor.u32()?;
    let group = cursor.u32()?;
    let links = cursor.u32_within(0, LINK_COUNT)?;
    Ok(Access {
        mode,
        owner,
        group,
        links,
    })
}

#[tactic(auto, unfolding(crate::specs::Inode::times))]
fn times(cursor: &mut Cursor) -> Result<Times, FieldError>
    ensures { Gives left_of (λ t. (t, cursor.new)) result (times.reads cursor.old) }
{
    let atime = cursor.time()?;
    let mtime = cursor.time()?;
    let ctime = cursor.time()?;
    Ok(Times {
        atime,
        mtime,
        ctime,
    })
}

#[tactic(auto, unfolding(crate::specs::Inode::head))]
fn head(cursor: &mut Cursor) -> Result<Head, FieldError>
    ensures { Gives left_of (λ h. (h, cursor.new)) result (head.reads cursor.old) }
{
    let access = access(cursor)?;
    let times = times(cursor)?;
    Ok(Head { access, times })
}

#[tactic(auto, unfolding(crate::specs::Inode::dir_part))]
fn dir_row(cursor: &mut Cursor) -> Result<InodeRow, FieldError>
    ensures { Gives left_of (λ row. (row, cursor.new)) result (dir_arm.reads cursor.old) }
{
    let head = head(cursor)?;
    let parent = cursor.inode_id()?;
    let chunk = cursor.chunk()?;
    let stripe = cursor.stripe()?;
    Ok(head.with_part(InodePart::Dir {
        parent,
        chunk,
        stripe,
    }))
}

#[tactic(auto, unfolding(crate::specs::Inode::file_part))]
fn file_row(cursor: &mut Cursor) -> Result<InodeRow, FieldError>
    ensures { Gives left_of (λ row. (row, cursor.new)) result (file_arm.reads cursor.old) }
{
    let head = head(cursor)?;
    let length = cursor.file_size()?;
    let truncs = cursor.u32()?;
    let (layout, hint) = cursor.used_layout()?;
    Ok(head.with_part(InodePart::File {
        length,
        truncs,
        layout,
        hint,
    }))
}

fn link_row(alloc: Global, cursor: &mut Cursor) -> Result<InodeRow, FieldError>
    ensures { Gives left_of (λ row. (row, cursor.new)) result (link_arm.reads cursor.old) }
{
    let head = head(cursor)?;
    let target = cursor.path_text(alloc)?;
    let target = Text::from_slice(alloc, target)?;
    Ok(head.with_part(InodePart::Link { target }))
}
