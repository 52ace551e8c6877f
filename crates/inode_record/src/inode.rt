ghost use Rattle.std.specs.Prelude.{◌≡◌, IfOk};
ghost use Rattle.inode_record.specs.Inode.{head_of, with_part};

use fs_base::{InodeId, Layout, Memory, Text};
use std::alloc::Global;

/// What the row of an inode has by its kind.
#[derive(Debug, Drop)]
pub enum InodePart {
    /// A directory: the one above it (its own number at the root), and the default layout of the files
    /// made in it.
    Dir {
        parent: InodeId,
        /// In bytes, 1 to 4,194,304.
        chunk: u32,
        /// How many chains, 1 to 256.
        stripe: u16,
    },
    /// A regular file.
    File {
        /// The stored length in bytes, at most 1,099,511,627,776.
        length: u64,
        /// How often the file was truncated.
        truncs: u32,
        layout: Layout,
        /// How many places of the layout are in use, 1 to the stripe.
        hint: u16,
    },
    /// A symbolic link to a path text.
    Link {
        target: Text,
    },
}

/// The row of an inode: what every kind has (POSIX `stat`), and its part.
#[derive(Debug, Drop)]
pub struct InodeRow {
    /// The twelve permission bits, below 4,096.
    pub mode: u16,
    pub owner: u32,
    pub group: u32,
    /// How many entries lead to it, at most 65,535; 1 for a directory.
    pub links: u32,
    /// Access, modification and change time, as stamps below 2^53.
    pub atime: u64,
    pub mtime: u64,
    pub ctime: u64,
    pub part: InodePart,
}

/// Who may do what with an inode, and how many entries lead to it.
#[derive(Clone, Copy, Debug)]
pub(crate) struct Access {
    pub(crate) mode: u16,
    pub(crate) owner: u32,
    pub(crate) group: u32,
    pub(crate) links: u32,
}

/// When an inode was last used and changed.
#[derive(Clone, Copy, Debug)]
pub(crate) struct Times {
    pub(crate) atime: u64,
    pub(crate) mtime: u64,
    pub(crate) ctime: u64,
}

/// What every kind has, before its part.
#[derive(Clone, Copy, Debug)]
pub(crate) struct Head {
    pub(crate) access: Access,
    pub(crate) times: Times,
}

impl Head {
    pub(crate) fn with_part(self, part: InodePart) -> InodeRow
        ensures { result ≡ with_part self part }
    {
        InodeRow {
            mode: self.access.mode,
            owner: self.access.owner,
            group: self.access.group,
            links: self.access.links,
            atime: self.times.atime,
            mtime: self.times.mtime,
            ctime: self.times.ctime,
            part,
        }
    }
}

impl InodeRow {
    pub(crate) fn head(&self) -> Head
        ensures { result ≡ head_of self.now }
    {
        Head {
            access: Access {
                mode: self.mode,
                owner: self.owner,
                group: self.group,
                links: self.links,
            },
            times: Times {
                atime: self.atime,
                mtime: self.mtime,
                ctime: self.ctime,
            },
        }
    }

    /// An equal row of its own.
    pub fn try_clone(&self, alloc: Global) -> Result<InodeRow, Memory>
        ensures { IfOk result (λ copy. copy ≡ self.now) }
    {
        let part = self.part.try_clone(alloc)?;
        Ok(self.head().with_part(part))
    }
}

impl InodePart {
    /// An equal part of its own.
    pub fn try_clone(&self, alloc: Global) -> Result<InodePart, Memory>
        ensures { IfOk result (λ copy. copy ≡ self.now) }
    {
        match self {
            InodePart::Dir {
                parent,
                chunk,
                stripe,
            } => Ok(InodePart::Dir {
                parent: *parent,
                chunk: *chunk,
                stripe: *stripe,
            }),
            InodePart::File {
                length,
                truncs,
                layout,
                hint,
            } => Ok(InodePart::File {
                length: *length,
                truncs: *truncs,
                layout: *layout,
                hint: *hint,
            }),
            InodePart::Link { target } => Ok(InodePart::Link {
                target: Text::from_slice(alloc, target.as_slice())?,
            }),
        }
    }
}
