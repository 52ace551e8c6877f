/// A counter that can stand at its greatest value.
#[derive(Clone, Copy, Debug, PartialEq, Eq)]
pub enum Limit {
    /// A server's next inode number, at most 4,294,967,295.
    Inodes,
    /// The number of entries that lead to a file or link, at most 65,535.
    Links,
    /// The truncations of a file, at most 4,294,967,295.
    Truncations,
}

/// Why a call is refused. The names follow the errors of POSIX where it has one.
#[derive(Clone, Copy, Debug, PartialEq, Eq)]
pub enum Code {
    /// The text is no path: empty, too long, with a zero byte, or with a component `..`.
    BadPath,
    /// A component is longer than 255 bytes.
    BadName,
    /// No entry has the name (ENOENT).
    NotFound,
    /// A name is looked up in what is no directory, or a directory is wanted (ENOTDIR).
    NotDir,
    /// It is a directory, and the call wants another kind (EISDIR).
    IsDir,
    /// The name is taken (EEXIST), or the path has no name to make.
    Exists,
    /// The directory has entries (ENOTEMPTY).
    NotEmpty,
    /// More than ten links are followed in one walk (ELOOP).
    LinkLoop,
    /// A directory would be moved into itself or below (EINVAL of `rename`).
    IntoItself,
    /// The path is the root, which has no name to take away (EBUSY).
    IsRoot,
    /// It is no symbolic link (EINVAL of `readlink`).
    NotLink,
    /// No such write session.
    NoSession,
    /// A write session is at the inode.
    InUse,
    /// The inode isn't waiting to be deleted.
    NotDoomed,
    /// The inode's chunks aren't being deleted.
    NotPurged,
    /// The given chunk or stripe is out of range.
    BadLayout,
    /// A length above 1,099,511,627,776 bytes, or too many pieces (EFBIG).
    TooLong,
    /// A counter can't rise any more.
    AtLimit(Limit),
    /// The place isn't among the chains that the file may use.
    ShortHint,
    /// The client's kept reply has this number, which is greater than the request's.
    Stale(u64),
    /// Each attempt met a commit of another client.
    Conflict,
    /// The store takes no more entries (ENOSPC).
    StoreFull,
    /// A storage node takes no more (ENOSPC); the bytes written before.
    NodeFull { node: u8, written: u64 },
    /// A storage node has removed the inode's chunks, by the purge of this version; the bytes written before.
    Removed { version: u64, written: u64 },
}
