ghost use Rattle.std.specs.Prelude.{◌≡◌, ◌++◌, IfOk, OnOk};
ghost use Rattle.byte_fields.specs.Fields.{number_1};
ghost use Rattle.byte_fields.specs.Forms.{paired};
ghost use Rattle.row_records.specs.Calls.{written_call, made, place, call, stamped_call, spelled_call};

use crate::fields::{put_changes, put_layout_option, put_place, put_session, put_span};
use crate::lists::put_clients;
use byte_fields::Writer;
use fs_base::{Call, DefaultLayout, Memory, Place};
use std::alloc::Global;

/// The bytes of a call and its stamp. A stamp or a number that its field's range doesn't admit is written
/// by the width of its type; such bytes are no call.
#[tactic(auto, unfolding(crate::specs::Calls::stamped_call))]
pub fn call_write(alloc: Global, stamp: u64, call: &Call) -> Result<Vec<u8>, Memory>
    ensures { IfOk result (λ bytes. bytes.items ≡ spelled_call (stamp, call.now)) }
{
    let mut writer = Writer::new(alloc);
    writer.time(stamp)?;
    put_call(&mut writer, call)?;
    Ok(writer.into_bytes())
}

#[tactic(auto, unfolding(crate::specs::Calls::call))]
fn put_call(writer: &mut Writer, value: &Call) -> Result<(), Memory>
    ensures { OnOk result (writer.new ≡ writer.old ++ call.spelled value.now) }
{
    writer.u8(call_tag(value))?;
    put_fields(writer, value)
}

fn call_tag(value: &Call) -> u8
    ensures { result ≡ (written_call value.now).tag }
{
    match value {
        Call::Lookup(_) => 1,
        Call::Stat(_) => 2,
        Call::List(_) => 3,
        Call::Readlink(_) => 4,
        Call::Openr(_) => 5,
        Call::Fstat(_) => 6,
        Call::Doomed => 7,
        Call::Mkdir { .. } => 8,
        Call::Create { .. } => 9,
        Call::Symlink { .. } => 10,
        Call::Setattr { .. } => 11,
        Call::Link { .. } => 12,
        Call::Unlink(_) => 13,
        Call::Rmdir(_) => 14,
        Call::Rename { .. } => 15,
        Call::Open(_) => 16,
        Call::Extend { .. } => 17,
        Call::Report { .. } => 18,
        Call::Fsync(_) => 19,
        Call::Close(_) => 20,
        Call::Truncate { .. } => 21,
        Call::Purge(_) => 22,
        Call::Reap(_) => 23,
        Call::Prune(_) => 24,
        Call::Write { .. } => 25,
        Call::Read { .. } => 26,
        Call::Sweep => 27,
    }
}

/// The fields of mkdir and create.
#[tactic(auto, unfolding(crate::specs::Calls::made))]
fn put_made(
    writer: &mut Writer,
    at: &Place,
    mode: u16,
    layout: &Option<DefaultLayout>,
) -> Result<(), Memory>
    ensures { OnOk result (writer.new ≡ writer.old ++ made.spelled (at.now, (mode, layout.now))) }
{
    put_place(writer, at)?;
    writer.mode(mode)?;
    put_layout_option(writer, layout)
}

/// The fields of link and rename.
fn put_two(writer: &mut Writer, from: &Place, to: &Place) -> Result<(), Memory>
    ensures { OnOk result (writer.new ≡ writer.old ++ (paired place place).spelled (from.now, to.now)) }
{
    put_place(writer, from)?;
    put_place(writer, to)
}

/// What stands behind the tag.
fn put_fields(writer: &mut Writer, value: &Call) -> Result<(), Memory>
    ensures { OnOk result (writer.new ≡ writer.old ++ (written_call value.now).spelled) }
{
    match value {
        Call::Lookup(place) => put_place(writer, place),
        Call::Stat(place) => put_place(writer, place),
        Call::List(place) => put_place(writer, place),
        Call::Readlink(place) => put_place(writer, place),
        Call::Openr(place) => put_place(writer, place),
        Call::Fstat(session) => put_session(writer, session),
        Call::Doomed => Ok(()),
        Call::Mkdir {
            place,
            mode,
            layout,
        } => put_made(writer, place, *mode, layout),
        Call::Create {
            place,
            mode,
            layout,
        } => put_made(writer, place, *mode, layout),
        Call::Symlink { place, target } => {
            put_place(writer, place)?;
            writer.text(target.as_slice())
        }
        Call::Setattr { place, changes } => {
            put_place(writer, place)?;
            put_changes(writer, changes)
        }
        Call::Link { from, to } => put_two(writer, from, to),
        Call::Unlink(place) => put_place(writer, place),
        Call::Rmdir(place) => put_place(writer, place),
        Call::Rename { from, to } => put_two(writer, from, to),
        Call::Open(place) => put_place(writer, place),
        Call::Extend { session, place } => {
            put_session(writer, session)?;
            writer.u16(*place)
        }
        Call::Report {
            session,
            end,
            truncs,
        } => {
            put_session(writer, session)?;
            writer.u64(*end)?;
            writer.u32(*truncs)
        }
        Call::Fsync(session) => put_session(writer, session),
        Call::Close(session) => put_session(writer, session),
        Call::Truncate { session, length } => {
            put_session(writer, session)?;
            writer.u64(*length)
        }
        Call::Purge(id) => writer.inode_id(*id),
        Call::Reap(id) => writer.inode_id(*id),
        Call::Prune(living) => put_clients(writer, living.as_slice()),
        Call::Write {
            session,
            offset,
            len,
            fill,
        } => {
            put_session(writer, session)?;
            put_span(writer, *offset, *len)?;
            writer.u8(*fill)
        }
        Call::Read { inode, offset, len } => {
            writer.inode_id(*inode)?;
            put_span(writer, *offset, *len)
        }
        Call::Sweep => Ok(()),
    }
}
