ghost use Rattle.std.specs.Prelude.{◌≡◌};
ghost use Rattle.fs_base.specs.Gives.{Gives};
ghost use Rattle.byte_fields.specs.Forms.{reads_arm};
ghost use Rattle.byte_fields.specs.Outcome.{left_of, fault_place};
ghost use Rattle.row_records.specs.Calls.{made, query_arms, making_arms, naming_arms, writing_arms, deleting_arms, moving_arms, call, stamped_call, read_call};

use crate::fields::{changes, layout_option, place, session, span};
use crate::lists::clients;
use byte_fields::{Cursor, FieldError, RowError};
use fs_base::{Call, DefaultLayout, Place};
use std::alloc::Global;

/// The stamp and the call that all the bytes spell.
pub fn call_read(alloc: Global, bytes: &[u8]) -> Result<(u64, Call), RowError>
    ensures { Gives fault_place (λ call. call) result (read_call bytes.now) }
{
    let mut cursor = Cursor::new(bytes);
    let read = stamped_call(alloc, &mut cursor);
    cursor.finish(bytes.len(), read)
}

#[tactic(auto, unfolding(crate::specs::Calls::stamped_call))]
fn stamped_call(alloc: Global, cursor: &mut Cursor) -> Result<(u64, Call), FieldError>
    ensures { Gives left_of (λ c. (c, cursor.new)) result (stamped_call.reads cursor.old) }
{
    let stamp = cursor.time()?;
    let call = call(alloc, cursor)?;
    Ok((stamp, call))
}

#[tactic(auto, unfolding(crate::specs::Calls::call))]
fn call(alloc: Global, cursor: &mut Cursor) -> Result<Call, FieldError>
    ensures { Gives left_of (λ c. (c, cursor.new)) result (call.reads cursor.old) }
{
    let left = cursor.left();
    let tag = cursor.u8()?;
    query(alloc, cursor, tag, left)
}

/// What stands behind a tag of 1 to 7, or of a later one; `left` is how many bytes there were with the tag.
#[tactic(auto, unfolding(crate::specs::Calls::query_arms))]
fn query(alloc: Global, cursor: &mut Cursor, tag: u8, left: usize) -> Result<Call, FieldError>
    ensures { Gives left_of (λ c. (c, cursor.new)) result (reads_arm query_arms tag left cursor.old) }
{
    match tag {
        1 => {
            let place = place(alloc, cursor)?;
            Ok(Call::Lookup(place))
        }
        2 => {
            let place = place(alloc, cursor)?;
            Ok(Call::Stat(place))
        }
        3 => {
            let place = place(alloc, cursor)?;
            Ok(Call::List(place))
        }
        4 => {
            let place = place(alloc, cursor)?;
            Ok(Call::Readlink(place))
        }
        5 => {
            let place = place(alloc, cursor)?;
            Ok(Call::Openr(place))
        }
        6 => {
            let session = session(cursor)?;
            Ok(Call::Fstat(session))
        }
        7 => Ok(Call::Doomed),
        _ => making(alloc, cursor, tag, left),
    }
}

/// The fields of mkdir and create.
#[tactic(auto, unfolding(crate::specs::Calls::made))]
fn made(
    alloc: Global,
    cursor: &mut Cursor,
) -> Result<(Place, (u16, Option<DefaultLayout>)), FieldError>
    ensures { Gives left_of (λ m. (m, cursor.new)) result (made.reads cursor.old) }
{
    let place = place(alloc, cursor)?;
    let mode = cursor.mode()?;
    let layout = layout_option(cursor)?;
    Ok((place, (mode, layout)))
}

#[tactic(auto, unfolding(crate::specs::Calls::making_arms))]
fn making(alloc: Global, cursor: &mut Cursor, tag: u8, left: usize) -> Result<Call, FieldError>
    ensures { Gives left_of (λ c. (c, cursor.new)) result (reads_arm making_arms tag left cursor.old) }
{
    match tag {
        8 => {
            let (place, (mode, layout)) = made(alloc, cursor)?;
            Ok(Call::Mkdir {
                place,
                mode,
                layout,
            })
        }
        9 => {
            let (place, (mode, layout)) = made(alloc, cursor)?;
            Ok(Call::Create {
                place,
                mode,
                layout,
            })
        }
        10 => {
            let place = place(alloc, cursor)?;
            let target = cursor.owned_text(alloc)?;
            Ok(Call::Symlink { place, target })
        }
        11 => {
            let place = place(alloc, cursor)?;
            let changes = changes(cursor)?;
            Ok(Call::Setattr { place, changes })
        }
        12 => {
            let from = place(alloc, cursor)?;
            let to = place(alloc, cursor)?;
            Ok(Call::Link { from, to })
        }
        _ => naming(alloc, cursor, tag, left),
    }
}

#[tactic(auto, unfolding(crate::specs::Calls::naming_arms))]
fn naming(alloc: Global, cursor: &mut Cursor, tag: u8, left: usize) -> Result<Call, FieldError>
    ensures { Gives left_of (λ c. (c, cursor.new)) result (reads_arm naming_arms tag left cursor.old) }
{
    match tag {
        13 => {
            let place = place(alloc, cursor)?;
            Ok(Call::Unlink(place))
        }
        14 => {
            let place = place(alloc, cursor)?;
            Ok(Call::Rmdir(place))
        }
        15 => {
            let from = place(alloc, cursor)?;
            let to = place(alloc, cursor)?;
            Ok(Call::Rename { from, to })
        }
        16 => {
            let place = place(alloc, cursor)?;
            Ok(Call::Open(place))
        }
        _ => writing(alloc, cursor, tag, left),
    }
}

#[tactic(auto, unfolding(crate::specs::Calls::writing_arms))]
fn writing(alloc: Global, cursor: &mut Cursor, tag: u8, left: usize) -> Result<Call, FieldError>
    ensures { Gives left_of (λ c. (c, cursor.new)) result (reads_arm writing_arms tag left cursor.old) }
{
    match tag {
        17 => {
            let session = session(cursor)?;
            let place = cursor.u16()?;
            Ok(Call::Extend { session, place })
        }
        18 => {
            let session = session(cursor)?;
            let end = cursor.u64()?;
            let truncs = cursor.u32()?;
            Ok(Call::Report {
                session,
                end,
                truncs,
            })
        }
        19 => {
            let session = session(cursor)?;
            Ok(Call::Fsync(session))
        }
        20 => {
            let session = session(cursor)?;
            Ok(Call::Close(session))
        }
        21 => {
            let session = session(cursor)?;
            let length = cursor.u64()?;
            Ok(Call::Truncate { session, length })
        }
        _ => deleting(alloc, cursor, tag, left),
    }
}

#[tactic(auto, unfolding(crate::specs::Calls::deleting_arms))]
fn deleting(alloc: Global, cursor: &mut Cursor, tag: u8, left: usize) -> Result<Call, FieldError>
    ensures { Gives left_of (λ c. (c, cursor.new)) result (reads_arm deleting_arms tag left cursor.old) }
{
    match tag {
        22 => {
            let id = cursor.inode_id()?;
            Ok(Call::Purge(id))
        }
        23 => {
            let id = cursor.inode_id()?;
            Ok(Call::Reap(id))
        }
        24 => {
            let living = clients(alloc, cursor)?;
            Ok(Call::Prune(living))
        }
        _ => moving(cursor, tag, left),
    }
}

#[tactic(auto, unfolding(crate::specs::Calls::moving_arms))]
fn moving(cursor: &mut Cursor, tag: u8, left: usize) -> Result<Call, FieldError>
    ensures { Gives left_of (λ c. (c, cursor.new)) result (reads_arm moving_arms tag left cursor.old) }
{
    match tag {
        25 => {
            let session = session(cursor)?;
            let (offset, len) = span(cursor)?;
            let fill = cursor.u8()?;
            Ok(Call::Write {
                session,
                offset,
                len,
                fill,
            })
        }
        26 => {
            let inode = cursor.inode_id()?;
            let (offset, len) = span(cursor)?;
            Ok(Call::Read { inode, offset, len })
        }
        27 => Ok(Call::Sweep),
        _ => Err(FieldError::Unread(left)),
    }
}
