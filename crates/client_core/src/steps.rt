//! The requests and receipts of operations.

ghost use Rattle.std.specs.Prelude.{◌≡◌, ◌≤◌, ◌<◌, ◌^◌, [], ◌∷◌, true, IfOk};
ghost use Rattle.byte_fields.specs.Forms.{are_bytes};
ghost use Rattle.client_core.specs.Client.{sent_to};
ghost use Rattle.client_core.specs.Ops.{call_of, fd_of, receipt_of, request_of, stamp_of, HasBytes};
ghost use Rattle.client_core.specs.Plans.{IsOp};
ghost use Rattle.path_walk.specs.Requests.{IsRequest};

use crate::plan::Op;
use fs_base::limits::INODE_IDS;
use fs_base::{Call, ClientId, Config, Items, Memory, Request, Session};
use std::alloc::Global;
use txn_task::{Outcome, Receipt};

/// It does nothing: that numbers are bytes is known where they are seen.
fn is_of_bytes(bytes: &[u8])
    ensures { are_bytes bytes.now ≡ true }
{
    let _length = bytes.len();
}

/// It does nothing, as `is_of_bytes`.
fn texts_are_bytes(step: &Op)
    ensures { HasBytes step.now }
{
    match step {
        Op::Symlink { place, target, .. } => {
            is_of_bytes(place.text.as_slice());
            is_of_bytes(target.as_slice());
        }
        Op::Link { from, to, .. } => {
            is_of_bytes(from.text.as_slice());
            is_of_bytes(to.text.as_slice());
        }
        Op::Rename { from, to, .. } => {
            is_of_bytes(from.text.as_slice());
            is_of_bytes(to.text.as_slice());
        }
        Op::Mkdir { place, .. } => is_of_bytes(place.text.as_slice()),
        Op::Create { place, .. } => is_of_bytes(place.text.as_slice()),
        Op::Setattr { place, .. } => is_of_bytes(place.text.as_slice()),
        Op::Unlink { place, .. } => is_of_bytes(place.text.as_slice()),
        Op::Rmdir { place, .. } => is_of_bytes(place.text.as_slice()),
        Op::Lookup { place, .. } => is_of_bytes(place.text.as_slice()),
        Op::Stat { place, .. } => is_of_bytes(place.text.as_slice()),
        Op::List { place, .. } => is_of_bytes(place.text.as_slice()),
        Op::Readlink { place, .. } => is_of_bytes(place.text.as_slice()),
        Op::Open { place, .. } => is_of_bytes(place.text.as_slice()),
        Op::Openr { place, .. } => is_of_bytes(place.text.as_slice()),
        Op::Fstat { .. } => (),
    }
}

/// It does nothing: that a session's numbers are in their ranges is known where they are seen.
fn is_in_ranges(session: Session)
    ensures inode { session.inode < INODE_IDS }
    ensures number { session.number < 2 ^ 64 }
{
    let _inode = session.inode.get();
}

/// The descriptor that an operation opens or uses.
pub(crate) fn fd_of(step: &Op) -> Option<u8>
    ensures { result ≡ fd_of step.now }
{
    match step {
        Op::Open { fd, .. } => Some(*fd),
        Op::Openr { fd, .. } => Some(*fd),
        Op::Fstat { fd, .. } => Some(*fd),
        _ => None,
    }
}

fn stamp_of(step: &Op) -> u64
    ensures { result ≡ stamp_of step.now }
{
    match step {
        Op::Mkdir { stamp, .. } => *stamp,
        Op::Create { stamp, .. } => *stamp,
        Op::Symlink { stamp, .. } => *stamp,
        Op::Setattr { stamp, .. } => *stamp,
        Op::Link { stamp, .. } => *stamp,
        Op::Unlink { stamp, .. } => *stamp,
        Op::Rmdir { stamp, .. } => *stamp,
        Op::Rename { stamp, .. } => *stamp,
        Op::Lookup { stamp, .. } => *stamp,
        Op::Stat { stamp, .. } => *stamp,
        Op::List { stamp, .. } => *stamp,
        Op::Readlink { stamp, .. } => *stamp,
        Op::Open { stamp, .. } => *stamp,
        Op::Openr { stamp, .. } => *stamp,
        Op::Fstat { stamp, .. } => *stamp,
    }
}

fn call_of(alloc: Global, session: Session, step: &Op) -> Result<Call, Memory>
    ensures { IfOk result (λ call. call ≡ call_of session step.now) }
{
    match step {
        Op::Mkdir {
            place,
            mode,
            layout,
            ..
        } => Ok(Call::Mkdir {
            place: place.try_clone(alloc)?,
            mode: *mode,
            layout: *layout,
        }),
        Op::Create {
            place,
            mode,
            layout,
            ..
        } => Ok(Call::Create {
            place: place.try_clone(alloc)?,
            mode: *mode,
            layout: *layout,
        }),
        Op::Symlink { place, target, .. } => Ok(Call::Symlink {
            place: place.try_clone(alloc)?,
            target: target.try_clone()?,
        }),
        Op::Setattr { place, changes, .. } => Ok(Call::Setattr {
            place: place.try_clone(alloc)?,
            changes: *changes,
        }),
        Op::Link { from, to, .. } => Ok(Call::Link {
            from: from.try_clone(alloc)?,
            to: to.try_clone(alloc)?,
        }),
        Op::Unlink { place, .. } => Ok(Call::Unlink(place.try_clone(alloc)?)),
        Op::Rmdir { place, .. } => Ok(Call::Rmdir(place.try_clone(alloc)?)),
        Op::Rename { from, to, .. } => Ok(Call::Rename {
            from: from.try_clone(alloc)?,
            to: to.try_clone(alloc)?,
        }),
        Op::Lookup { place, .. } => Ok(Call::Lookup(place.try_clone(alloc)?)),
        Op::Stat { place, .. } => Ok(Call::Stat(place.try_clone(alloc)?)),
        Op::List { place, .. } => Ok(Call::List(place.try_clone(alloc)?)),
        Op::Readlink { place, .. } => Ok(Call::Readlink(place.try_clone(alloc)?)),
        Op::Open { place, .. } => Ok(Call::Open(place.try_clone(alloc)?)),
        Op::Openr { place, .. } => Ok(Call::Openr(place.try_clone(alloc)?)),
        Op::Fstat { .. } => Ok(Call::Fstat(session)),
    }
}

/// A request of an operation, to a server and by a number; the session is that of its descriptor.
pub(crate) fn request_of(
    alloc: Global,
    config: Config,
    client: ClientId,
    server: u8,
    number: u64,
    session: Session,
    step: &Op,
) -> Result<Request, Memory>
    requires op { IsOp step.now }
    requires server { server < config.servers }
    requires number { 1 ≤ number }
    ensures is { IfOk result (λ request. request ≡ request_of client server number session step.now) }
    ensures valid { IfOk result (IsRequest config) }
{
    texts_are_bytes(step);
    is_in_ranges(session);
    Ok(Request {
        server,
        client,
        number,
        stamp: stamp_of(step),
        call: call_of(alloc, session, step)?,
    })
}

/// The same request, to another server.
pub(crate) fn copy_for(alloc: Global, request: &Request, server: u8) -> Result<Request, Memory>
    ensures { IfOk result (λ copy. copy ≡ sent_to request.now server) }
{
    let mut copy = copy_of(alloc, request)?;
    copy.server = server;
    Ok(copy)
}

/// An equal request of its own.
pub(crate) fn copy_of(alloc: Global, request: &Request) -> Result<Request, Memory>
    ensures { IfOk result (λ copy. copy ≡ request.now) }
{
    Ok(Request {
        server: request.server,
        client: request.client,
        number: request.number,
        stamp: request.stamp,
        call: request.call.try_clone(alloc)?,
    })
}

fn receipt_of(
    alloc: Global,
    op: u16,
    request: &Request,
    server: u8,
    gone: &Items<(u8, u32)>,
    outcome: Outcome,
) -> Result<Receipt, Memory>
    ensures { IfOk result (λ receipt. receipt ≡ receipt_of op request.now server gone.now outcome) }
{
    let call = request.call.try_clone(alloc)?;
    let gone = gone.try_clone()?;
    Ok(Receipt {
        op,
        number: Some(request.number),
        server: Some(server),
        stamp: request.stamp,
        call,
        reply: outcome.reply,
        committed: outcome.committed,
        version: outcome.version,
        conflicts: outcome.conflicts,
        gone,
    })
}

/// The one receipt of a request's call.
pub(crate) fn receipts_of(
    alloc: Global,
    op: u16,
    request: &Request,
    server: u8,
    gone: &Items<(u8, u32)>,
    outcome: Outcome,
) -> Result<Items<Receipt>, Memory>
    ensures { IfOk result (λ receipts. receipts ≡ receipt_of op request.now server gone.now outcome ∷ []) }
{
    let receipt = receipt_of(alloc, op, request, server, gone, outcome)?;
    let mut receipts = Items::new(alloc);
    receipts.push(receipt)?;
    Ok(receipts)
}
