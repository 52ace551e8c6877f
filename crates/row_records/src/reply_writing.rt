ghost use Rattle.std.specs.Prelude.{◌≡◌, ◌++◌, IfOk, OnOk};
ghost use Rattle.byte_fields.specs.Fields.{number_1, number_2, number_4, number_8, inode_id, kind, file_size, text};
ghost use Rattle.row_records.specs.Replies.{written_code, written_reply, attributes, names, file_info, adopted, doomed, data_runs, reply, spelled_reply};

use crate::fields::{put_adopted, put_attributes, put_file_info, put_limit};
use crate::lists::{put_data_runs, put_doomed, put_names};
use byte_fields::Writer;
use fs_base::{Code, Memory, Reply};
use std::alloc::Global;

/// The reply's bytes.
pub fn reply_write(alloc: Global, reply: &Reply) -> Result<Vec<u8>, Memory>
    ensures { IfOk result (λ bytes. bytes.items ≡ spelled_reply reply.now) }
{
    let mut writer = Writer::new(alloc);
    put_reply(&mut writer, reply)?;
    Ok(writer.into_bytes())
}

#[tactic(auto, unfolding(crate::specs::Replies::reply))]
pub(crate) fn put_reply(writer: &mut Writer, value: &Reply) -> Result<(), Memory>
    ensures { OnOk result (writer.new ≡ writer.old ++ reply.spelled value.now) }
{
    writer.u8(reply_tag(value))?;
    put_fields(writer, value)
}

fn reply_tag(value: &Reply) -> u8
    ensures { result ≡ (written_reply value.now).tag }
{
    match value {
        Reply::Made(_) => 1,
        Reply::Done => 2,
        Reply::Found(_, _) => 3,
        Reply::Attr(_) => 4,
        Reply::Names(_) => 5,
        Reply::Target(_) => 6,
        Reply::File(_) => 7,
        Reply::Hint(_) => 8,
        Reply::Reported { .. } => 9,
        Reply::Settled(_) => 10,
        Reply::Cut { .. } => 11,
        Reply::Doomed(_) => 12,
        Reply::Pruned(_) => 13,
        Reply::Wrote { .. } => 14,
        Reply::Data(_) => 15,
        Reply::Swept(_) => 16,
        Reply::Refused(code) => code_tag(*code),
    }
}

/// 64 and the number of the code.
fn code_tag(value: Code) -> u8
    ensures { result ≡ (written_code value).tag }
{
    match value {
        Code::BadPath => 65,
        Code::BadName => 66,
        Code::NotFound => 67,
        Code::NotDir => 68,
        Code::IsDir => 69,
        Code::Exists => 70,
        Code::NotEmpty => 71,
        Code::LinkLoop => 72,
        Code::IntoItself => 73,
        Code::IsRoot => 74,
        Code::NotLink => 75,
        Code::NoSession => 76,
        Code::InUse => 77,
        Code::NotDoomed => 78,
        Code::NotPurged => 79,
        Code::BadLayout => 80,
        Code::TooLong => 81,
        Code::AtLimit(_) => 82,
        Code::ShortHint => 83,
        Code::Stale(_) => 84,
        Code::Conflict => 85,
        Code::StoreFull => 86,
        Code::NodeFull { .. } => 87,
        Code::Removed { .. } => 88,
    }
}

/// What stands behind the tag.
fn put_fields(writer: &mut Writer, value: &Reply) -> Result<(), Memory>
    ensures { OnOk result (writer.new ≡ writer.old ++ (written_reply value.now).spelled) }
{
    match value {
        Reply::Made(id) => writer.inode_id(*id),
        Reply::Done => Ok(()),
        Reply::Found(id, kind) => {
            writer.inode_id(*id)?;
            writer.kind(*kind)
        }
        Reply::Attr(attributes) => put_attributes(writer, attributes),
        Reply::Names(names) => put_names(writer, names.as_slice()),
        Reply::Target(target) => writer.text(target.as_slice()),
        Reply::File(info) => put_file_info(writer, info),
        Reply::Hint(hint) => writer.u16(*hint),
        Reply::Reported { adopted, length } => {
            put_adopted(writer, *adopted)?;
            writer.u64(*length)
        }
        Reply::Settled(length) => writer.file_size(*length),
        Reply::Cut { length, truncs } => {
            writer.u64(*length)?;
            writer.u32(*truncs)
        }
        Reply::Doomed(ids) => put_doomed(writer, ids.as_slice()),
        Reply::Pruned(count) => writer.u64(*count),
        Reply::Wrote { bytes, pieces } => {
            writer.u64(*bytes)?;
            writer.u32(*pieces)
        }
        Reply::Data(runs) => put_data_runs(writer, runs.as_slice()),
        Reply::Swept(count) => writer.u64(*count),
        Reply::Refused(code) => put_code_fields(writer, *code),
    }
}

fn put_code_fields(writer: &mut Writer, value: Code) -> Result<(), Memory>
    ensures { OnOk result (writer.new ≡ writer.old ++ (written_code value).spelled) }
{
    match value {
        Code::AtLimit(limit) => put_limit(writer, limit),
        Code::Stale(number) => writer.u64(number),
        Code::NodeFull { node, written } => {
            writer.u8(node)?;
            writer.u64(written)
        }
        Code::Removed { version, written } => {
            writer.u64(version)?;
            writer.u64(written)
        }
        _ => Ok(()),
    }
}
