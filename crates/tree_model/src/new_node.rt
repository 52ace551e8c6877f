ghost use Rattle.std.specs.Prelude.{◌≡◌};
ghost use Rattle.fs_base.specs.Config.{layout_at};
ghost use Rattle.tree_model.specs.Creating.{first_hint, part_for, new_dir, new_file, new_link};

use crate::node::NodePart;
use fs_base::{Config, DefaultLayout, InodeId, Layout, Text};

/// What a call wants to make.
#[derive(Debug, Drop)]
pub enum NewPart {
    Dir,
    /// An empty file.
    File,
    /// A symbolic link, with the path that it stands for.
    Link(Text),
}

/// A node that a call wants to make.
///
/// The mode is the twelve permission bits, below 4,096. Without a layout the directory's default counts.
#[derive(Debug, Drop)]
pub struct NewNode {
    pub mode: u16,
    pub layout: Option<DefaultLayout>,
    pub part: NewPart,
}

impl NewNode {
    /// A directory, with a default layout for what is made in it.
    pub fn dir(mode: u16, layout: Option<DefaultLayout>) -> NewNode
        ensures { result ≡ new_dir mode layout }
    {
        NewNode {
            mode,
            layout,
            part: NewPart::Dir,
        }
    }

    /// An empty file, with a chunk and stripe.
    pub fn file(mode: u16, layout: Option<DefaultLayout>) -> NewNode
        ensures { result ≡ new_file mode layout }
    {
        NewNode {
            mode,
            layout,
            part: NewPart::File,
        }
    }

    /// A symbolic link to a path. Its mode is 777, as POSIX has it.
    pub fn link(target: Text) -> NewNode
        ensures { result ≡ new_link target }
    {
        NewNode {
            mode: 0o777,
            layout: None,
            part: NewPart::Link(target),
        }
    }
}

impl NewPart {
    /// What the inode of this id is, by the given layout or the directory's default.
    pub(crate) fn at(self, config: &Config, id: InodeId, layout: DefaultLayout) -> NodePart
        ensures { result ≡ part_for config.now self id layout }
    {
        match self {
            NewPart::Dir => NodePart::Dir { layout },
            NewPart::File => NodePart::File {
                length: 0,
                truncs: 0,
                layout: layout_at(config, id, layout),
                hint: first_hint(layout.stripe),
            },
            NewPart::Link(target) => NodePart::Link { target },
        }
    }
}

/// How a file of this id lies, whether or not the configuration admits the chunk and stripe: what was read
/// may show a directory's default that none admits, and no well-formed rows agree with that.
pub fn layout_at(config: &Config, id: InodeId, given: DefaultLayout) -> Layout
    ensures { result ≡ layout_at config.now id given }
{
    Layout {
        chunk: given.chunk,
        stripe: given.stripe,
        start: (id.get() % u64::from(config.chains())) as u16,
        mix: id.get(),
    }
}

/// How many places of a new file's layout are in use.
pub fn first_hint(stripe: u16) -> u16
    ensures { result ≡ first_hint stripe }
{
    stripe.min(16)
}
