ghost use Rattle.std.specs.Prelude.{◌≡◌, IfOk};
ghost use Rattle.std.specs.Option.{option_copied};
ghost use Rattle.std.specs.FinMap.{get};
ghost use Rattle.tree_model.specs.Tree.{new_tree, next_at, of_parts};

use crate::kept::{Doom, KeptReply};
use crate::maps::{ByClient, ByName, ByNumber, BySession};
use crate::node::Node;
use fs_base::{Config, InodeId, Memory, Name};
use std::alloc::Global;
use std::marker::Model;

/// The plain file tree and the configuration that it is served by.
#[derive(Drop)]
pub struct Tree {
    pub(crate) config: Config,
    pub(crate) nodes: ByNumber<Node>,
    pub(crate) entries: ByName<InodeId>,
    pub(crate) writers: BySession<()>,
    pub(crate) kept: ByClient<KeptReply>,
    pub(crate) doomed: ByNumber<Doom>,
    pub(crate) next: ByNumber<u32>,
}

impl Model for Tree {
    ghost use Rattle.tree_model.specs.Tree.{Served};
    ghost use Rattle.std.specs.Coded.{codes};
    ghost use Rattle.std.specs.FinMap as map;
    ghost use Rattle.tree_model.specs.contracts.node.Node as node;
    ghost use Rattle.tree_model.specs.contracts.kept.KeptReply as kept_reply;
    ghost use Rattle.tree_model.specs.contracts.kept.Doom as doom;

    ghost Value = { Served };

    ghost coded = { Prim.hlevel (codes, map.code, node.the_row.coded, kept_reply.the_row.coded, doom.the_row.coded) };

    ghost view = { λ t. record {
      config = t.config;
      tree = record {
        nodes = t.nodes;
        entries = t.entries;
        writers = t.writers;
        kept = t.kept;
        doomed = t.doomed;
        next = t.next;
      };
    } };
}

/// The maps that a tree is.
#[derive(Drop)]
pub struct TreeParts {
    /// By id.
    pub nodes: ByNumber<Node>,
    /// By directory and name, the inode that the entry leads to.
    pub entries: ByName<InodeId>,
    /// The write sessions.
    pub writers: BySession<()>,
    /// By client.
    pub kept: ByClient<KeptReply>,
    /// By id, the files that are being deleted.
    pub doomed: ByNumber<Doom>,
    /// By server, the next number; 1 where there is none.
    pub next: ByNumber<u32>,
}

impl Tree {
    /// A root directory and nothing else.
    pub fn new(alloc: Global, config: Config) -> Result<Tree, Memory>
        ensures { IfOk result (λ t. t ≡ record { config = config; tree = new_tree config }) }
    {
        let mut nodes = ByNumber::new(alloc);
        nodes.insert(0, Node::root(&config))?;
        Ok(Tree {
            config,
            nodes,
            entries: ByName::new(alloc),
            writers: BySession::new(alloc),
            kept: ByClient::new(alloc),
            doomed: ByNumber::new(alloc),
            next: ByNumber::new(alloc),
        })
    }

    /// The tree that these maps are. They are taken as they come.
    pub fn from_parts(config: Config, parts: TreeParts) -> Tree
        ensures { result ≡ record { config = config; tree = of_parts parts } }
    {
        Tree {
            config,
            nodes: parts.nodes,
            entries: parts.entries,
            writers: parts.writers,
            kept: parts.kept,
            doomed: parts.doomed,
            next: parts.next,
        }
    }

    /// The maps that the tree is.
    pub fn into_parts(self) -> TreeParts
        ensures { of_parts result ≡ self.tree }
    {
        TreeParts {
            nodes: self.nodes,
            entries: self.entries,
            writers: self.writers,
            kept: self.kept,
            doomed: self.doomed,
            next: self.next,
        }
    }

    pub(crate) fn node(&self, id: u64) -> Option<&Node>
        ensures { option_copied result ≡ get self.now.tree.nodes id }
    {
        self.nodes.get(id)
    }

    pub(crate) fn entry(&self, key: &(u64, Name)) -> Option<InodeId>
        ensures { result ≡ get self.now.tree.entries key.now }
    {
        self.entries.get(key).copied()
    }

    /// The number that a server gives next.
    pub(crate) fn next_number(&self, server: u8) -> u32
        ensures { result ≡ next_at self.now.tree.next server }
    {
        self.next.get(u64::from(server)).copied().unwrap_or(1)
    }
}
