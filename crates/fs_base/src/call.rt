ghost use Rattle.std.specs.Prelude.{◌≡◌, ◌<◌, ◌^◌, IfOk};
ghost use Rattle.fs_base.specs.Paths.{path_of};

use crate::code::Code;
use crate::ids::{ClientId, InodeId};
use crate::items::{Items, Text};
use crate::layout::DefaultLayout;
use crate::limits::INODE_IDS;
use crate::memory::Memory;
use crate::path::{Path, PathError};
use std::alloc::Global;

/// A path text, and the directory that it starts at unless it begins with `/`.
#[derive(Debug, Drop)]
pub struct Place {
    pub base: InodeId,
    pub text: Text,
}

impl Place {
    /// The path that the text reads as, or why it is none.
    pub fn path(&self, alloc: Global) -> Result<Result<Path, Code>, Memory>
        ensures { IfOk result (λ path. path ≡ path_of self.now.text) }
    {
        match Path::read(alloc, self.text.as_slice()) {
            Ok(path) => Ok(Ok(path)),
            Err(PathError::BadPath) => Ok(Err(Code::BadPath)),
            Err(PathError::BadName) => Ok(Err(Code::BadName)),
            Err(PathError::Memory) => Err(Memory),
        }
    }

    /// An equal place of its own.
    pub fn try_clone(&self, alloc: Global) -> Result<Place, Memory>
        ensures copy { IfOk result (λ place. place ≡ self.now) }
        ensures base { self.now.base < INODE_IDS }
    {
        let base = InodeId::new(self.base.get());
        let text = Text::from_slice(alloc, self.text.as_slice())?;
        Ok(Place { base, text })
    }
}

/// A write session: a file that is open for writing, and the number of the request that opened it.
///
/// It is the caller's own session. Number 0 stands for none.
#[derive(Clone, Copy, Debug, PartialEq, Eq)]
pub struct Session {
    pub inode: InodeId,
    pub number: u64,
}

/// What `setattr` sets. What isn't given stays, but for the change time, which is the stamp.
#[derive(Clone, Copy, Debug, PartialEq, Eq)]
pub struct Changes {
    /// The twelve permission bits, below 4,096.
    pub mode: Option<u16>,
    pub owner: Option<u32>,
    pub group: Option<u32>,
    /// Access and modification time, below 2^53.
    pub atime: Option<u64>,
    pub mtime: Option<u64>,
}

/// What a client asks of a server. The last three are a client's own and are sent to none.
///
/// A mode is the twelve permission bits of POSIX, below 4,096.
#[derive(Debug, Drop)]
pub enum Call {
    /// What stands at a place; a link as the last name isn't followed.
    Lookup(Place),
    /// The attributes of what stands at a place (POSIX `stat`).
    Stat(Place),
    /// A directory's entries.
    List(Place),
    /// A link's target (POSIX `readlink`).
    Readlink(Place),
    /// Opens a file for reading: no session is made.
    Openr(Place),
    /// What a session's file is like by now.
    Fstat(Session),
    /// The files that are being deleted.
    Doomed,
    /// Makes a directory, with a default layout or its parent's.
    Mkdir {
        place: Place,
        mode: u16,
        layout: Option<DefaultLayout>,
    },
    /// Makes an empty file, with a chunk and stripe or its directory's default.
    Create {
        place: Place,
        mode: u16,
        layout: Option<DefaultLayout>,
    },
    /// Makes a symbolic link to a path (POSIX `symlink`).
    Symlink {
        place: Place,
        target: Text,
    },
    /// Sets attributes (POSIX `chmod`, `chown`, `utimensat`).
    Setattr {
        place: Place,
        changes: Changes,
    },
    /// A further entry for a file or link (POSIX `link`).
    Link {
        from: Place,
        to: Place,
    },
    /// Takes away a file's or link's entry (POSIX `unlink`).
    Unlink(Place),
    /// Removes an empty directory (POSIX `rmdir`).
    Rmdir(Place),
    /// Moves an entry (POSIX `rename`).
    Rename {
        from: Place,
        to: Place,
    },
    /// Opens a file for writing.
    Open(Place),
    /// Makes a place of the layout usable.
    Extend {
        session: Session,
        place: u16,
    },
    /// Tells how far the client has written, and at which count of truncations.
    Report {
        session: Session,
        end: u64,
        truncs: u32,
    },
    /// Takes the length from the storage nodes.
    Fsync(Session),
    /// As fsync, and ends the session.
    Close(Session),
    /// Sets the length (POSIX `ftruncate`).
    Truncate {
        session: Session,
        length: u64,
    },
    /// Takes away the node of a file without entries.
    Purge(InodeId),
    /// Forgets a purged file whose chunks are gone.
    Reap(InodeId),
    /// Ends the sessions of all clients but these, ascending.
    Prune(Items<ClientId>),
    /// Writes one byte value over a range; offset and length in bytes.
    Write {
        session: Session,
        offset: u64,
        len: u64,
        fill: u8,
    },
    /// Reads a range; offset and length in bytes.
    Read {
        inode: InodeId,
        offset: u64,
        len: u64,
    },
    /// Deletes what can be deleted.
    Sweep,
}

/// A call as it comes to a server: who asks, by which of its own numbers (from 1), and at which time.
///
/// The stamp is below 2^53, in a unit that the clients agree on.
#[derive(Debug, Drop)]
pub struct Request {
    pub server: u8,
    pub client: ClientId,
    pub number: u64,
    pub stamp: u64,
    pub call: Call,
}
