use crate::code::Code;
use crate::ids::InodeId;
use crate::items::{Items, Text};
use crate::kind::Kind;
use crate::layout::Layout;

/// What `stat` tells of an inode (POSIX `stat`, as far as it goes).
#[derive(Clone, Copy, Debug, PartialEq, Eq)]
pub struct Attributes {
    pub inode: InodeId,
    pub kind: Kind,
    /// The twelve permission bits, below 4,096.
    pub mode: u16,
    pub owner: u32,
    pub group: u32,
    /// The number of entries that lead to a file or link; 1 for a directory.
    pub links: u32,
    /// Access, modification and change time, as stamps below 2^53.
    pub atime: u64,
    pub mtime: u64,
    pub ctime: u64,
    /// A file's stored length in bytes, a link's the length of its target; 0 for a directory.
    pub length: u64,
}

/// An entry of a directory.
#[derive(Debug, Drop)]
pub struct DirEntry {
    pub name: Text,
    pub inode: InodeId,
    pub kind: Kind,
}

/// What a descriptor is opened with.
#[derive(Clone, Copy, Debug, PartialEq, Eq)]
pub struct FileInfo {
    pub inode: InodeId,
    /// The stored length in bytes.
    pub length: u64,
    /// How often the file was truncated.
    pub truncs: u32,
    pub layout: Layout,
    /// How many places of the layout are in use, 1 to the stripe.
    pub hint: u16,
}

/// How far the deletion of a file has come.
#[derive(Clone, Copy, Debug, PartialEq, Eq)]
pub enum DeletionPhase {
    /// No entry leads to it; its node is still there.
    Waiting,
    /// Its node is gone; its chunks may still be there.
    Purged,
}

/// A file that is being deleted.
#[derive(Clone, Copy, Debug, PartialEq, Eq)]
pub struct DoomedInode {
    pub inode: InodeId,
    pub phase: DeletionPhase,
}

/// Bytes of one value in a file: offset and length in bytes.
#[derive(Clone, Copy, Debug, PartialEq, Eq)]
pub struct DataRun {
    pub offset: u64,
    pub len: u64,
    pub fill: u8,
}

/// What a call is answered.
#[derive(Debug, Drop)]
pub enum Reply {
    /// The new inode.
    Made(InodeId),
    /// It is done.
    Done,
    /// What stands at the place.
    Found(InodeId, Kind),
    /// What `stat` tells.
    Attr(Attributes),
    /// A directory's entries, in the order of their names' bytes.
    Names(Items<DirEntry>),
    /// A link's target.
    Target(Text),
    /// The file that was opened or asked for.
    File(FileInfo),
    /// How many places of the file's layout are in use now.
    Hint(u16),
    /// Whether a reported end became the length, and the length.
    Reported { adopted: bool, length: u64 },
    /// A settled length, at most 1,099,511,627,776.
    Settled(u64),
    /// A truncated file's length, and its truncations.
    Cut { length: u64, truncs: u32 },
    /// The files that are being deleted, ascending.
    Doomed(Items<DoomedInode>),
    /// How many write sessions were removed.
    Pruned(u64),
    /// How much was written.
    Wrote { bytes: u64, pieces: u32 },
    /// What was read, in order.
    Data(Items<DataRun>),
    /// How many files' chunks were deleted for good.
    Swept(u64),
    /// Nothing was changed.
    Refused(Code),
}
