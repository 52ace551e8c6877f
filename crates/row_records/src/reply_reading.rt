ghost use Rattle.std.specs.Prelude.{◌≡◌};
ghost use Rattle.fs_base.specs.Gives.{Gives};
ghost use Rattle.byte_fields.specs.Forms.{reads_arm};
ghost use Rattle.byte_fields.specs.Outcome.{left_of, fault_place};
ghost use Rattle.row_records.specs.Replies.{found_arms, file_arms, count_arms, path_arms, inode_arms, code_arms, reply, read_reply};

use crate::fields::{adopted, attributes, file_info, limit};
use crate::lists::{data_runs, doomed, names};
use byte_fields::{Cursor, FieldError, RowError};
use fs_base::{Code, Reply};
use std::alloc::Global;

/// The reply that all the bytes spell.
pub fn reply_read(alloc: Global, bytes: &[u8]) -> Result<Reply, RowError>
    ensures { Gives fault_place (λ reply. reply) result (read_reply bytes.now) }
{
    let mut cursor = Cursor::new(bytes);
    let read = reply(alloc, &mut cursor);
    cursor.finish(bytes.len(), read)
}

#[tactic(auto, unfolding(crate::specs::Replies::reply))]
pub(crate) fn reply(alloc: Global, cursor: &mut Cursor) -> Result<Reply, FieldError>
    ensures { Gives left_of (λ r. (r, cursor.new)) result (reply.reads cursor.old) }
{
    let left = cursor.left();
    let tag = cursor.u8()?;
    found(alloc, cursor, tag, left)
}

/// What stands behind a tag of 1 to 6, or of a later one; `left` is how many bytes there were with the tag.
#[tactic(auto, unfolding(crate::specs::Replies::found_arms))]
fn found(alloc: Global, cursor: &mut Cursor, tag: u8, left: usize) -> Result<Reply, FieldError>
    ensures { Gives left_of (λ r. (r, cursor.new)) result (reads_arm found_arms tag left cursor.old) }
{
    match tag {
        1 => {
            let id = cursor.inode_id()?;
            Ok(Reply::Made(id))
        }
        2 => Ok(Reply::Done),
        3 => {
            let id = cursor.inode_id()?;
            let kind = cursor.kind()?;
            Ok(Reply::Found(id, kind))
        }
        4 => {
            let attributes = attributes(cursor)?;
            Ok(Reply::Attr(attributes))
        }
        5 => {
            let names = names(alloc, cursor)?;
            Ok(Reply::Names(names))
        }
        6 => {
            let target = cursor.owned_text(alloc)?;
            Ok(Reply::Target(target))
        }
        _ => file(alloc, cursor, tag, left),
    }
}

#[tactic(auto, unfolding(crate::specs::Replies::file_arms))]
fn file(alloc: Global, cursor: &mut Cursor, tag: u8, left: usize) -> Result<Reply, FieldError>
    ensures { Gives left_of (λ r. (r, cursor.new)) result (reads_arm file_arms tag left cursor.old) }
{
    match tag {
        7 => {
            let info = file_info(cursor)?;
            Ok(Reply::File(info))
        }
        8 => {
            let hint = cursor.u16()?;
            Ok(Reply::Hint(hint))
        }
        9 => {
            let adopted = adopted(cursor)?;
            let length = cursor.u64()?;
            Ok(Reply::Reported { adopted, length })
        }
        10 => {
            let length = cursor.file_size()?;
            Ok(Reply::Settled(length))
        }
        11 => {
            let length = cursor.u64()?;
            let truncs = cursor.u32()?;
            Ok(Reply::Cut { length, truncs })
        }
        12 => {
            let ids = doomed(alloc, cursor)?;
            Ok(Reply::Doomed(ids))
        }
        _ => counted(alloc, cursor, tag, left),
    }
}

#[tactic(auto, unfolding(crate::specs::Replies::count_arms))]
fn counted(alloc: Global, cursor: &mut Cursor, tag: u8, left: usize) -> Result<Reply, FieldError>
    ensures { Gives left_of (λ r. (r, cursor.new)) result (reads_arm count_arms tag left cursor.old) }
{
    match tag {
        13 => {
            let count = cursor.u64()?;
            Ok(Reply::Pruned(count))
        }
        14 => {
            let bytes = cursor.u64()?;
            let pieces = cursor.u32()?;
            Ok(Reply::Wrote { bytes, pieces })
        }
        15 => {
            let runs = data_runs(alloc, cursor)?;
            Ok(Reply::Data(runs))
        }
        16 => {
            let count = cursor.u64()?;
            Ok(Reply::Swept(count))
        }
        _ => refused_by_path(cursor, tag, left),
    }
}

#[tactic(auto, unfolding(crate::specs::Replies::path_arms))]
fn refused_by_path(cursor: &mut Cursor, tag: u8, left: usize) -> Result<Reply, FieldError>
    ensures { Gives left_of (λ r. (r, cursor.new)) result (reads_arm path_arms tag left cursor.old) }
{
    match tag {
        65 => Ok(Reply::Refused(Code::BadPath)),
        66 => Ok(Reply::Refused(Code::BadName)),
        67 => Ok(Reply::Refused(Code::NotFound)),
        68 => Ok(Reply::Refused(Code::NotDir)),
        69 => Ok(Reply::Refused(Code::IsDir)),
        70 => Ok(Reply::Refused(Code::Exists)),
        71 => Ok(Reply::Refused(Code::NotEmpty)),
        72 => Ok(Reply::Refused(Code::LinkLoop)),
        _ => refused_by_inode(cursor, tag, left),
    }
}

#[tactic(auto, unfolding(crate::specs::Replies::inode_arms))]
fn refused_by_inode(cursor: &mut Cursor, tag: u8, left: usize) -> Result<Reply, FieldError>
    ensures { Gives left_of (λ r. (r, cursor.new)) result (reads_arm inode_arms tag left cursor.old) }
{
    match tag {
        73 => Ok(Reply::Refused(Code::IntoItself)),
        74 => Ok(Reply::Refused(Code::IsRoot)),
        75 => Ok(Reply::Refused(Code::NotLink)),
        76 => Ok(Reply::Refused(Code::NoSession)),
        77 => Ok(Reply::Refused(Code::InUse)),
        78 => Ok(Reply::Refused(Code::NotDoomed)),
        79 => Ok(Reply::Refused(Code::NotPurged)),
        80 => Ok(Reply::Refused(Code::BadLayout)),
        _ => refused(cursor, tag, left),
    }
}

#[tactic(auto, unfolding(crate::specs::Replies::code_arms))]
fn refused(cursor: &mut Cursor, tag: u8, left: usize) -> Result<Reply, FieldError>
    ensures { Gives left_of (λ r. (r, cursor.new)) result (reads_arm code_arms tag left cursor.old) }
{
    match tag {
        81 => Ok(Reply::Refused(Code::TooLong)),
        82 => {
            let limit = limit(cursor)?;
            Ok(Reply::Refused(Code::AtLimit(limit)))
        }
        83 => Ok(Reply::Refused(Code::ShortHint)),
        84 => {
            let number = cursor.u64()?;
            Ok(Reply::Refused(Code::Stale(number)))
        }
        85 => Ok(Reply::Refused(Code::Conflict)),
        86 => Ok(Reply::Refused(Code::StoreFull)),
        87 => {
            let node = cursor.u8()?;
            let written = cursor.u64()?;
            Ok(Reply::Refused(Code::NodeFull { node, written }))
        }
        88 => {
            let version = cursor.u64()?;
            let written = cursor.u64()?;
            Ok(Reply::Refused(Code::Removed { version, written }))
        }
        _ => Err(FieldError::Unread(left)),
    }
}
