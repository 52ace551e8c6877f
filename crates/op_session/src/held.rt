ghost use Rattle.std.specs.Prelude.{◌≡◌, ◌<◌, [], Some, IfOk, OnOk};
ghost use Rattle.fs_base.specs.declared.limits.TheConstants.{INODE_IDS};
ghost use Rattle.row_tree.specs.TreeOf.{node_part};
ghost use Rattle.path_walk.specs.Directories.{IsRowRead};
ghost use Rattle.tree_model.specs.Sessions.{file_of};
ghost use Rattle.row_tree.specs.Steps.{hinted_row, part_hinted};
ghost use Rattle.op_session.specs.Ending.{IsHeld, IsHeldStep, PutsHint};
ghost use Rattle.op_session.specs.declared.task.HeldCall.TheVariants as held;

use crate::opening::file_of;
use crate::task::HeldCall;
use fs_base::{ClientId, Code, FileInfo, InodeId, Items, Memory, Reply, Session};
use inode_record::{InodePart, InodeRow};
use std::alloc::Global;
use tree_model::hint_over;
use txn_task::{Ask, OpStep, Txn, Want, put_inode, want_inode, want_session};

/// The same, with another hint where it is a file.
fn part_hinted(part: InodePart, hint: u16) -> InodePart
    ensures { result ≡ part_hinted hint part }
{
    match part {
        InodePart::File {
            length,
            truncs,
            layout,
            ..
        } => InodePart::File {
            length,
            truncs,
            layout,
            hint,
        },
        other => other,
    }
}

fn hinted(row: InodeRow, hint: u16) -> InodeRow
    ensures { result ≡ hinted_row hint row }
{
    InodeRow {
        part: part_hinted(row.part, hint),
        ..row
    }
}

/// Puts the row with another hint, where it isn't the one that it has.
fn put_hint(
    alloc: Global,
    txn: &mut Txn,
    id: InodeId,
    row: InodeRow,
    old: u16,
    hint: u16,
) -> Result<(), Memory>
    requires writes { txn.old.writes ≡ [] }
    ensures { OnOk result (PutsHint id old hint row txn.old txn.new) }
{
    if hint == old {
        return Ok(());
    }
    put_inode(alloc, txn, id, &hinted(row, hint))?;
    Ok(())
}

/// The inode of a session.
fn file_id(session: &Session) -> InodeId
    ensures same { result ≡ session.now.inode }
    ensures small { session.now.inode < INODE_IDS }
{
    InodeId::new(session.inode.get())
}

/// Brings a place of the file's layout into use. It is committed also where the hint is above it already.
fn extend(
    client: ClientId,
    session: &Session,
    alloc: Global,
    txn: &mut Txn,
    row: InodeRow,
    file: FileInfo,
    place: u16,
) -> Result<OpStep, Memory>
    requires writes { txn.old.writes ≡ [] }
    requires held { IsHeld txn.old.reads client session.now }
    requires row { IsRowRead txn.old.reads session.now.inode row }
    requires file { file_of session.now.inode (node_part row.part) ≡ Some file }
    ensures { IfOk result (IsHeldStep (held.Extend place) client session.now txn.old txn.new) }
{
    if place >= file.layout.stripe {
        return Ok(OpStep::Reply(Reply::Refused(Code::ShortHint)));
    }
    let id = file_id(session);
    let hint = hint_over(file.layout.stripe, place, file.hint);
    put_hint(alloc, txn, id, row, file.hint, hint)?;
    Ok(OpStep::Commit(Reply::Hint(hint), Items::new(alloc)))
}

/// What is done at the file of a session that was found.
fn at_file(
    call: HeldCall,
    client: ClientId,
    session: &Session,
    alloc: Global,
    txn: &mut Txn,
) -> Result<OpStep, Memory>
    requires writes { txn.old.writes ≡ [] }
    requires held { IsHeld txn.old.reads client session.now }
    ensures { IfOk result (IsHeldStep call client session.now txn.old txn.new) }
{
    let id = file_id(session);
    let row = match want_inode(alloc, txn, id)? {
        Want::Ask(key) => return Ok(OpStep::Ask(Ask::Get(key))),
        Want::Absent => return Ok(OpStep::Reply(Reply::Refused(Code::NoSession))),
        Want::There(row) => row,
    };
    let file = match file_of(id, &row.part) {
        None => return Ok(OpStep::Reply(Reply::Refused(Code::NoSession))),
        Some(file) => file,
    };
    match call {
        HeldCall::Fstat => Ok(OpStep::Reply(Reply::File(file))),
        HeldCall::Extend { place } => extend(client, session, alloc, txn, row, file, place),
    }
}

/// What is done by a session of the client, where there is one.
pub(crate) fn held(
    call: HeldCall,
    client: ClientId,
    alloc: Global,
    txn: &mut Txn,
    session: &Session,
) -> Result<OpStep, Memory>
    requires writes { txn.old.writes ≡ [] }
    ensures { IfOk result (IsHeldStep call client session.now txn.old txn.new) }
{
    let id = file_id(session);
    match want_session(alloc, txn, id, client, session.number)? {
        Want::Ask(key) => Ok(OpStep::Ask(Ask::Get(key))),
        Want::Absent => Ok(OpStep::Reply(Reply::Refused(Code::NoSession))),
        Want::There(_) => at_file(call, client, session, alloc, txn),
    }
}
