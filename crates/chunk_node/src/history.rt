use fs_base::{ClientId, InodeId};

/// A piece of a write: one byte value over a range of one chunk, at least one byte of it.
///
/// The 3FS Design Notes cut a file into chunks of equal size, which lie on storage services.
#[derive(Clone, Copy, Debug, PartialEq, Eq)]
pub struct WriteDone {
    pub inode: InodeId,
    /// Which chunk of the inode.
    pub index: u64,
    /// In the chunk, in bytes; `offset + len` is at most 4,194,304.
    pub offset: u32,
    pub len: u32,
    pub fill: u8,
    /// The version of the store at which the client's session stood.
    pub version: u64,
    pub client: ClientId,
    /// The client's number of the write.
    pub number: u64,
}

/// A cut: the inode's chunks from index `keep` on go away. Where it `holds` the chunk before them, this one
/// gets
/// exactly `rest` bytes, cut or filled with 0.
#[derive(Clone, Copy, Debug, PartialEq, Eq)]
pub struct EndDone {
    pub inode: InodeId,
    pub keep: u64,
    /// In bytes; 1 to 4,194,304 where `keep` is at least 1.
    pub rest: u32,
    /// Not where `keep` is 0.
    pub holds: bool,
    pub client: ClientId,
    /// The client's number of the request.
    pub number: u64,
}

/// One thing that a storage node has done.
#[derive(Clone, Copy, Debug, PartialEq, Eq)]
pub enum Done {
    Write(WriteDone),
    SetEnd(EndDone),
    /// All chunks of the inode went away; the version is that of the entry which purged it.
    Remove { inode: InodeId, version: u64 },
}
