ghost use Rattle.std.specs.Prelude.{◌≡◌, IfOk};

use crate::call::{Call, Changes, Place, Session};
use crate::ids::ClientId;
use crate::items::{Items, Text};
use crate::layout::DefaultLayout;
use crate::memory::Memory;
use crate::reply_copy::copy_id;
use std::alloc::Global;

impl Call {
    /// An equal call of its own.
    pub fn try_clone(&self, alloc: Global) -> Result<Call, Memory>
        ensures { IfOk result (λ copy. copy ≡ self.now) }
    {
        match self {
            Call::Lookup(place) => copy_lookup(alloc, place),
            Call::Stat(place) => copy_stat(alloc, place),
            Call::List(place) => copy_list(alloc, place),
            Call::Readlink(place) => copy_readlink(alloc, place),
            Call::Openr(place) => copy_openr(alloc, place),
            Call::Fstat(session) => Ok(Call::Fstat(copy_session(session))),
            Call::Doomed => Ok(Call::Doomed),
            Call::Mkdir {
                place,
                mode,
                layout,
            } => copy_mkdir(alloc, place, *mode, *layout),
            Call::Create {
                place,
                mode,
                layout,
            } => copy_create(alloc, place, *mode, *layout),
            Call::Symlink { place, target } => copy_symlink(alloc, place, target.as_slice()),
            Call::Setattr { place, changes } => copy_setattr(alloc, place, *changes),
            Call::Link { from, to } => copy_link(alloc, from, to),
            Call::Unlink(place) => copy_unlink(alloc, place),
            Call::Rmdir(place) => copy_rmdir(alloc, place),
            Call::Rename { from, to } => copy_rename(alloc, from, to),
            Call::Open(place) => copy_open(alloc, place),
            Call::Extend { session, place } => Ok(Call::Extend {
                session: copy_session(session),
                place: *place,
            }),
            Call::Report {
                session,
                end,
                truncs,
            } => Ok(Call::Report {
                session: copy_session(session),
                end: *end,
                truncs: *truncs,
            }),
            Call::Fsync(session) => Ok(Call::Fsync(copy_session(session))),
            Call::Close(session) => Ok(Call::Close(copy_session(session))),
            Call::Truncate { session, length } => Ok(Call::Truncate {
                session: copy_session(session),
                length: *length,
            }),
            Call::Purge(id) => Ok(Call::Purge(copy_id(id))),
            Call::Reap(id) => Ok(Call::Reap(copy_id(id))),
            Call::Prune(living) => copy_prune(alloc, living.as_slice()),
            Call::Write {
                session,
                offset,
                len,
                fill,
            } => Ok(Call::Write {
                session: copy_session(session),
                offset: *offset,
                len: *len,
                fill: *fill,
            }),
            Call::Read { inode, offset, len } => Ok(Call::Read {
                inode: copy_id(inode),
                offset: *offset,
                len: *len,
            }),
            Call::Sweep => Ok(Call::Sweep),
        }
    }
}

fn copy_session(session: &Session) -> Session
    ensures { result ≡ session.now }
{
    Session {
        inode: copy_id(&session.inode),
        number: session.number,
    }
}

fn copy_lookup(alloc: Global, place: &Place) -> Result<Call, Memory>
    ensures { IfOk result (λ copy. copy ≡ Call.Lookup place.now) }
{
    let place = place.try_clone(alloc)?;
    Ok(Call::Lookup(place))
}

fn copy_stat(alloc: Global, place: &Place) -> Result<Call, Memory>
    ensures { IfOk result (λ copy. copy ≡ Call.Stat place.now) }
{
    let place = place.try_clone(alloc)?;
    Ok(Call::Stat(place))
}

fn copy_list(alloc: Global, place: &Place) -> Result<Call, Memory>
    ensures { IfOk result (λ copy. copy ≡ Call.List place.now) }
{
    let place = place.try_clone(alloc)?;
    Ok(Call::List(place))
}

fn copy_readlink(alloc: Global, place: &Place) -> Result<Call, Memory>
    ensures { IfOk result (λ copy. copy ≡ Call.Readlink place.now) }
{
    let place = place.try_clone(alloc)?;
    Ok(Call::Readlink(place))
}

fn copy_openr(alloc: Global, place: &Place) -> Result<Call, Memory>
    ensures { IfOk result (λ copy. copy ≡ Call.Openr place.now) }
{
    let place = place.try_clone(alloc)?;
    Ok(Call::Openr(place))
}

fn copy_mkdir(
    alloc: Global,
    place: &Place,
    mode: u16,
    layout: Option<DefaultLayout>,
) -> Result<Call, Memory>
    ensures { IfOk result (λ copy. copy ≡ Call.Mkdir place.now mode layout) }
{
    let place = place.try_clone(alloc)?;
    Ok(Call::Mkdir {
        place,
        mode,
        layout,
    })
}

fn copy_create(
    alloc: Global,
    place: &Place,
    mode: u16,
    layout: Option<DefaultLayout>,
) -> Result<Call, Memory>
    ensures { IfOk result (λ copy. copy ≡ Call.Create place.now mode layout) }
{
    let place = place.try_clone(alloc)?;
    Ok(Call::Create {
        place,
        mode,
        layout,
    })
}

fn copy_symlink(alloc: Global, place: &Place, target: &[u8]) -> Result<Call, Memory>
    ensures { IfOk result (λ copy. copy ≡ Call.Symlink place.now target.now) }
{
    let place = place.try_clone(alloc)?;
    let target = Text::from_slice(alloc, target)?;
    Ok(Call::Symlink { place, target })
}

fn copy_setattr(alloc: Global, place: &Place, changes: Changes) -> Result<Call, Memory>
    ensures { IfOk result (λ copy. copy ≡ Call.Setattr place.now changes) }
{
    let place = place.try_clone(alloc)?;
    Ok(Call::Setattr { place, changes })
}

fn copy_link(alloc: Global, from: &Place, to: &Place) -> Result<Call, Memory>
    ensures { IfOk result (λ copy. copy ≡ Call.Link from.now to.now) }
{
    let from = from.try_clone(alloc)?;
    let to = to.try_clone(alloc)?;
    Ok(Call::Link { from, to })
}

fn copy_unlink(alloc: Global, place: &Place) -> Result<Call, Memory>
    ensures { IfOk result (λ copy. copy ≡ Call.Unlink place.now) }
{
    let place = place.try_clone(alloc)?;
    Ok(Call::Unlink(place))
}

fn copy_rmdir(alloc: Global, place: &Place) -> Result<Call, Memory>
    ensures { IfOk result (λ copy. copy ≡ Call.Rmdir place.now) }
{
    let place = place.try_clone(alloc)?;
    Ok(Call::Rmdir(place))
}

fn copy_rename(alloc: Global, from: &Place, to: &Place) -> Result<Call, Memory>
    ensures { IfOk result (λ copy. copy ≡ Call.Rename from.now to.now) }
{
    let from = from.try_clone(alloc)?;
    let to = to.try_clone(alloc)?;
    Ok(Call::Rename { from, to })
}

fn copy_open(alloc: Global, place: &Place) -> Result<Call, Memory>
    ensures { IfOk result (λ copy. copy ≡ Call.Open place.now) }
{
    let place = place.try_clone(alloc)?;
    Ok(Call::Open(place))
}

fn copy_prune(alloc: Global, living: &[ClientId]) -> Result<Call, Memory>
    ensures { IfOk result (λ copy. copy ≡ Call.Prune living.now) }
{
    let living = Items::from_slice(alloc, living)?;
    Ok(Call::Prune(living))
}
