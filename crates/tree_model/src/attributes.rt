ghost use Rattle.std.specs.Prelude.{◌≡◌};
ghost use Rattle.tree_model.specs.Attributes.{count_to, saturated, links_of, attributes_of};

use crate::node::{Node, NodePart};
use crate::tree::Tree;
use fs_base::{Attributes, InodeId};

/// A count, as far as 32 bits hold it.
fn saturated(count: usize) -> u32
    ensures { result ≡ saturated count }
{
    u32::try_from(count).unwrap_or(u32::MAX)
}

impl Tree {
    /// How many entries lead to an inode.
    pub(crate) fn count_to(&self, id: InodeId) -> usize
        ensures { result ≡ count_to self.now.tree id }
    {
        self.entries.count_to(id)
    }

    /// 1 for a directory, else how many entries lead to it.
    fn links(&self, id: InodeId, part: &NodePart) -> u32
        ensures { result ≡ links_of self.now.tree id part.now }
    {
        match part {
            NodePart::Dir { .. } => 1,
            NodePart::File { .. } => saturated(self.count_to(id)),
            NodePart::Link { .. } => saturated(self.count_to(id)),
        }
    }

    /// What is told of the node of an id.
    pub(crate) fn attributes(&self, id: InodeId, node: &Node) -> Attributes
        ensures { result ≡ attributes_of self.now.tree id node.now }
    {
        let links = self.links(id, &node.part);
        Attributes {
            inode: id,
            kind: node.part.kind(),
            mode: node.mode,
            owner: node.owner,
            group: node.group,
            links,
            atime: node.atime,
            mtime: node.mtime,
            ctime: node.ctime,
            length: node.part.length(),
        }
    }
}
