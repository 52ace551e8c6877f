ghost use Rattle.std.specs.Prelude.{◌≡◌};
ghost use Rattle.tree_model.specs.Attributes.{kind_of_part, length_of, changed, touched};
ghost use Rattle.tree_model.specs.Sessions.{file_of, hinted, part_with_hint};
ghost use Rattle.tree_model.specs.Tree.{root_of, node_with};

use fs_base::{Changes, Config, DefaultLayout, FileInfo, InodeId, Kind, Layout, Text};

/// What a node is.
#[derive(Debug, Drop)]
pub enum NodePart {
    /// A directory, with the default layout of the files made in it.
    Dir {
        layout: DefaultLayout,
    },
    /// A regular file: its length in bytes, how often it was truncated, its layout, and how many
    /// places of the layout are in use.
    File {
        length: u64,
        truncs: u32,
        layout: Layout,
        hint: u16,
    },
    /// A symbolic link, with the path that it stands for.
    Link {
        target: Text,
    },
}

impl NodePart {
    /// What kind of node it is.
    pub fn kind(&self) -> Kind
        ensures { result ≡ kind_of_part self.now }
    {
        match self {
            NodePart::Dir { .. } => Kind::Dir,
            NodePart::File { .. } => Kind::File,
            NodePart::Link { .. } => Kind::Link,
        }
    }

    /// A file's stored length in bytes, or that of a link's target; 0 for a directory.
    pub fn length(&self) -> u64
        ensures { result ≡ length_of self.now }
    {
        match self {
            NodePart::Dir { .. } => 0,
            NodePart::File { length, .. } => *length,
            NodePart::Link { target } => target.len() as u64,
        }
    }

    /// What a descriptor of it is opened with, where it is the file of this id.
    pub(crate) fn file(&self, id: InodeId) -> Option<FileInfo>
        ensures { result ≡ file_of id self.now }
    {
        match self {
            NodePart::Dir { .. } => None,
            NodePart::File {
                length,
                truncs,
                layout,
                hint,
            } => Some(FileInfo {
                inode: id,
                length: *length,
                truncs: *truncs,
                layout: *layout,
                hint: *hint,
            }),
            NodePart::Link { .. } => None,
        }
    }

    /// The same, with another hint where it is a file.
    fn with_hint(self, hint: u16) -> NodePart
        ensures { result ≡ part_with_hint hint self }
    {
        match self {
            NodePart::File {
                length,
                truncs,
                layout,
                ..
            } => NodePart::File {
                length,
                truncs,
                layout,
                hint,
            },
            other => other,
        }
    }
}

/// An inode of the plain tree. It knows neither its id, its names nor the directory that it is in.
///
/// The mode is the twelve permission bits, below 4,096. Times are stamps of requests, below 2^53.
#[derive(Debug, Drop)]
pub struct Node {
    pub mode: u16,
    pub owner: u32,
    pub group: u32,
    pub atime: u64,
    pub mtime: u64,
    pub ctime: u64,
    pub part: NodePart,
}

impl Node {
    /// The root directory of a configuration: mode 755, and times 0.
    pub fn root(config: &Config) -> Node
        ensures { result ≡ root_of config.now }
    {
        let layout = DefaultLayout {
            chunk: config.chunk(),
            stripe: config.stripe(),
        };
        Node::new(0o755, 0, NodePart::Dir { layout })
    }

    /// A node of owner and group 0, with the stamp as each of its times.
    pub fn new(mode: u16, stamp: u64, part: NodePart) -> Node
        ensures { result ≡ node_with mode stamp part }
    {
        Node {
            mode,
            owner: 0,
            group: 0,
            atime: stamp,
            mtime: stamp,
            ctime: stamp,
            part,
        }
    }

    /// The node with the stamp as its change time.
    pub fn touched(self, stamp: u64) -> Node
        ensures { result ≡ touched stamp self }
    {
        Node {
            ctime: stamp,
            ..self
        }
    }

    /// The node with another hint, where it is a file.
    pub(crate) fn hinted(self, hint: u16) -> Node
        ensures { result ≡ hinted hint self }
    {
        Node {
            part: self.part.with_hint(hint),
            ..self
        }
    }

    /// The node with what is given set, and the stamp as its change time.
    pub fn changed(self, changes: Changes, stamp: u64) -> Node
        ensures { result ≡ changed changes stamp self }
    {
        Node {
            mode: changes.mode.unwrap_or(self.mode),
            owner: changes.owner.unwrap_or(self.owner),
            group: changes.group.unwrap_or(self.group),
            atime: changes.atime.unwrap_or(self.atime),
            mtime: changes.mtime.unwrap_or(self.mtime),
            ctime: stamp,
            part: self.part,
        }
    }
}
