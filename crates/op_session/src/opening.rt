ghost use Rattle.std.specs.Prelude.{◌≡◌, ◌<◌, ◌^◌, [], IfOk, OnOk};
ghost use Rattle.fs_base.specs.declared.limits.TheConstants.{INODE_IDS};
ghost use Rattle.row_tree.specs.TreeOf.{node_part};
ghost use Rattle.tree_model.specs.Sessions.{file_of};
ghost use Rattle.tree_model.specs.declared.walk.Walked.TheVariants.{At};
ghost use Rattle.path_walk.specs.Footprint.{file_row_at};
ghost use Rattle.path_walk.specs.Owed.{HasStepped};
ghost use Rattle.path_walk.specs.Stages.{does, looks, trip_at};
ghost use Rattle.fs_base.specs.Config.{Settings};
ghost use Rattle.op_session.specs.Ending.{IsFileRead, IsNodeStep, IsOpenStep};
ghost use Rattle.op_session.specs.Session.{MayOpen, opens_at};

use crate::task::OpenMode;
use fs_base::{ClientId, Code, FileInfo, InodeId, Items, Kind, Memory, Reply};
use inode_record::InodePart;
use path_walk::{Reached, Stage};
use std::alloc::Global;
use tree_model::Walked;
use txn_task::{Ask, OpStep, Txn, Want, put_session, want_inode};

/// What is told of an inode as a file, if it is one.
pub(crate) fn file_of(id: InodeId, part: &InodePart) -> Option<FileInfo>
    ensures { result ≡ file_of id (node_part part.now) }
{
    match part {
        InodePart::Dir { .. } => None,
        InodePart::File {
            length,
            truncs,
            layout,
            hint,
        } => Some(FileInfo {
            inode: id,
            length: *length,
            truncs: *truncs,
            layout: *layout,
            hint: *hint,
        }),
        InodePart::Link { .. } => None,
    }
}

/// The numbers of a session are in their ranges.
fn in_range(id: InodeId, client: ClientId, number: u64)
    ensures id { id < INODE_IDS }
    ensures client { client.0 < 2 ^ 128 }
    ensures number { number < 2 ^ 64 }
{
    let _id = id.get();
    let _client = client.0;
    let _number = number;
}

/// A file's numbers are in the ranges of their types.
fn in_types(file: &FileInfo)
    ensures inode { file.now.inode < 2 ^ 36 }
    ensures length { file.now.length < 2 ^ 64 }
    ensures truncs { file.now.truncs < 2 ^ 32 }
    ensures chunk { file.now.layout.chunk < 2 ^ 32 }
    ensures stripe { file.now.layout.stripe < 2 ^ 16 }
    ensures start { file.now.layout.start < 2 ^ 16 }
    ensures mix { file.now.layout.mix < 2 ^ 64 }
    ensures hint { file.now.hint < 2 ^ 16 }
{
    let _inode = file.inode.get();
    let _length = file.length;
    let _truncs = file.truncs;
    let _chunk = file.layout.chunk;
    let _stripe = file.layout.stripe;
    let _start = file.layout.start;
    let _mix = file.layout.mix;
    let _hint = file.hint;
}

/// The file of an inode: with a session, where it is opened for writing.
fn open_file(
    mode: OpenMode,
    client: ClientId,
    alloc: Global,
    txn: &mut Txn,
    id: InodeId,
    file: FileInfo,
) -> Result<OpStep, Memory>
    requires ready { MayOpen mode }
    requires writes { txn.old.writes ≡ [] }
    requires file { IsFileRead txn.old.reads id file }
    ensures { IfOk result (IsNodeStep mode client id txn.old txn.new) }
{
    match mode {
        OpenMode::Read => Ok(OpStep::Reply(Reply::File(file))),
        OpenMode::Write { number, stamp } => {
            in_range(id, client, number);
            in_types(&file);
            put_session(alloc, txn, id, client, number, stamp)?;
            Ok(OpStep::Commit(Reply::File(file), Items::new(alloc)))
        }
    }
}

/// What is done at an inode that is no directory by its entry.
fn open_node(
    mode: OpenMode,
    client: ClientId,
    alloc: Global,
    txn: &mut Txn,
    id: InodeId,
) -> Result<OpStep, Memory>
    requires ready { MayOpen mode }
    requires writes { txn.old.writes ≡ [] }
    ensures { IfOk result (IsNodeStep mode client id txn.old txn.new) }
{
    let row = match want_inode(alloc, txn, id)? {
        Want::Ask(key) => return Ok(OpStep::Ask(Ask::Get(key))),
        Want::Absent => return Ok(OpStep::Reply(Reply::Refused(Code::NotFound))),
        Want::There(row) => row,
    };
    match file_of(id, &row.part) {
        None => Ok(OpStep::Reply(Reply::Refused(Code::IsDir))),
        Some(file) => open_file(mode, client, alloc, txn, id, file),
    }
}

/// What is done at an inode of this kind.
fn open_kind(
    mode: OpenMode,
    client: ClientId,
    alloc: Global,
    txn: &mut Txn,
    id: InodeId,
    kind: Kind,
) -> Result<OpStep, Memory>
    requires ready { MayOpen mode }
    requires writes { txn.old.writes ≡ [] }
    ensures { IfOk result (IsOpenStep mode client (At id kind) txn.old txn.new) }
{
    match kind {
        Kind::Dir => Ok(OpStep::Reply(Reply::Refused(Code::IsDir))),
        Kind::File => {
            let step = open_node(mode, client, alloc, txn, id)?;
            Ok(step)
        }
        Kind::Link => {
            let step = open_node(mode, client, alloc, txn, id)?;
            Ok(step)
        }
    }
}

/// What is done where the walk ends.
fn open_at(
    mode: OpenMode,
    client: ClientId,
    alloc: Global,
    txn: &mut Txn,
    walked: &Walked,
) -> Result<OpStep, Memory>
    requires ready { MayOpen mode }
    requires writes { txn.old.writes ≡ [] }
    ensures { IfOk result (IsOpenStep mode client walked.now txn.old txn.new) }
{
    match walked {
        Walked::At(id, kind) => open_kind(mode, client, alloc, txn, *id, *kind),
        Walked::AtParent(_, _) => Ok(OpStep::Reply(Reply::Refused(Code::NotDir))),
        Walked::NoName(_) => Ok(OpStep::Reply(Reply::Refused(Code::NotDir))),
        Walked::Stopped(code) => Ok(OpStep::Reply(Reply::Refused(*code))),
    }
}

/// The walk, and what is done where it ends.
pub(crate) fn open_on(
    mode: OpenMode,
    client: ClientId,
    alloc: Global,
    txn: &mut Txn,
    stage: &mut Stage,
) -> Result<OpStep, Memory>
    requires ready { MayOpen mode }
    requires writes { txn.old.writes ≡ [] }
    ensures { IfOk result
        (λ s. (C : Settings)
        → HasStepped C (looks (λ T. file_row_at) (trip_at stage.old))
        (looks (λ T. file_row_at) (trip_at stage.new))
        (does (opens_at mode client) (trip_at stage.old)) (does (opens_at mode client) (trip_at stage.new))
        txn.old txn.new s) }
{
    match stage.next(alloc, txn)? {
        Reached::Ask(ask) => Ok(OpStep::Ask(ask)),
        Reached::End(walked) => {
            let step = open_at(mode, client, alloc, txn, &walked)?;
            Ok(step)
        }
    }
}
