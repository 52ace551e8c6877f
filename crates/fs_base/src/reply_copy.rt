ghost use Rattle.std.specs.Prelude.{◌≡◌, IfOk};

use crate::ids::InodeId;
use crate::items::{Items, Text};
use crate::memory::Memory;
use crate::reply::{Attributes, DataRun, DirEntry, DoomedInode, FileInfo, Reply};
use std::alloc::Global;

impl Reply {
    /// An equal reply of its own.
    pub fn try_clone(&self, alloc: Global) -> Result<Reply, Memory>
        ensures { IfOk result (λ copy. copy ≡ self.now) }
    {
        match self {
            Reply::Made(id) => Ok(Reply::Made(copy_id(id))),
            Reply::Done => Ok(Reply::Done),
            Reply::Found(id, kind) => Ok(Reply::Found(copy_id(id), *kind)),
            Reply::Attr(attributes) => Ok(Reply::Attr(copy_attributes(attributes))),
            Reply::Names(entries) => copy_names(alloc, entries.as_slice()),
            Reply::Target(path) => copy_target(alloc, path.as_slice()),
            Reply::File(info) => Ok(Reply::File(copy_file(info))),
            Reply::Hint(places) => Ok(Reply::Hint(*places)),
            Reply::Reported { adopted, length } => Ok(Reply::Reported {
                adopted: *adopted,
                length: *length,
            }),
            Reply::Settled(length) => Ok(Reply::Settled(*length)),
            Reply::Cut { length, truncs } => Ok(Reply::Cut {
                length: *length,
                truncs: *truncs,
            }),
            Reply::Doomed(inodes) => copy_doomed(alloc, inodes.as_slice()),
            Reply::Pruned(sessions) => Ok(Reply::Pruned(*sessions)),
            Reply::Wrote { bytes, pieces } => Ok(Reply::Wrote {
                bytes: *bytes,
                pieces: *pieces,
            }),
            Reply::Data(runs) => copy_data(alloc, runs.as_slice()),
            Reply::Swept(files) => Ok(Reply::Swept(*files)),
            Reply::Refused(code) => Ok(Reply::Refused(*code)),
        }
    }
}

/// The same number.
pub fn copy_id(id: &InodeId) -> InodeId
    ensures { result ≡ id.now }
{
    InodeId::new(id.get())
}

fn copy_attributes(from: &Attributes) -> Attributes
    ensures { result ≡ from.now }
{
    Attributes {
        inode: copy_id(&from.inode),
        kind: from.kind,
        mode: from.mode,
        owner: from.owner,
        group: from.group,
        links: from.links,
        atime: from.atime,
        mtime: from.mtime,
        ctime: from.ctime,
        length: from.length,
    }
}

/// An equal one.
pub fn copy_file(from: &FileInfo) -> FileInfo
    ensures { result ≡ from.now }
{
    FileInfo {
        inode: copy_id(&from.inode),
        length: from.length,
        truncs: from.truncs,
        layout: from.layout,
        hint: from.hint,
    }
}

fn copy_names(alloc: Global, entries: &[DirEntry]) -> Result<Reply, Memory>
    ensures { IfOk result (λ copy. copy ≡ Reply.Names entries.now) }
{
    let mut copy = Items::new(alloc);
    for entry in entries {
        copy.push(copy_entry(alloc, entry)?)?;
    }
    Ok(Reply::Names(copy))
}

fn copy_entry(alloc: Global, from: &DirEntry) -> Result<DirEntry, Memory>
    ensures { IfOk result (λ copy. copy ≡ from.now) }
{
    let inode = copy_id(&from.inode);
    let name = Text::from_slice(alloc, from.name.as_slice())?;
    Ok(DirEntry {
        name,
        inode,
        kind: from.kind,
    })
}

fn copy_target(alloc: Global, path: &[u8]) -> Result<Reply, Memory>
    ensures { IfOk result (λ copy. copy ≡ Reply.Target path.now) }
{
    let path = Text::from_slice(alloc, path)?;
    Ok(Reply::Target(path))
}

fn copy_doomed(alloc: Global, inodes: &[DoomedInode]) -> Result<Reply, Memory>
    ensures { IfOk result (λ copy. copy ≡ Reply.Doomed inodes.now) }
{
    let inodes = Items::from_slice(alloc, inodes)?;
    Ok(Reply::Doomed(inodes))
}

fn copy_data(alloc: Global, runs: &[DataRun]) -> Result<Reply, Memory>
    ensures { IfOk result (λ copy. copy ≡ Reply.Data runs.now) }
{
    let runs = Items::from_slice(alloc, runs)?;
    Ok(Reply::Data(runs))
}
