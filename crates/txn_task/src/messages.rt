use chunk_node::NodeError;
use conflict_sets::{Got, ReadSet, WriteSet};
use fs_base::{InodeId, Items, Reply, Request, Row, Text};
use key_schema::Key;

/// A change of the store as its journal keeps it: what was asked for, what it was answered, and the
/// transaction.
#[derive(Debug, Drop)]
pub struct Entry {
    pub request: Request,
    pub reply: Reply,
    /// What the storage nodes answered, in the order of the asks.
    pub asked: Items<Asked>,
    pub reads: ReadSet,
    pub writes: WriteSet,
}

/// What a storage node answered when it was asked for an inode's last chunk.
#[derive(Clone, Copy, Debug, PartialEq, Eq)]
pub struct Asked {
    pub node: u8,
    /// How much the node had done by then.
    pub front: u64,
    /// The greatest index of a chunk and this chunk's length in bytes; `None` where the node had no chunk of
    /// the inode.
    pub last: Option<(u64, u32)>,
}

/// What a task asks of its surroundings before it can go on.
#[derive(Debug, Drop)]
pub enum Ask {
    /// A transaction at the newest version.
    Begin,
    /// The value of a key at the transaction's version.
    Get(Key),
    /// The first `limit` rows with `lo <= key < hi` at the transaction's version.
    Range {
        lo: Text,
        hi: Text,
        limit: u32,
    },
    /// The entry as the next of the journal.
    Commit(Entry),
    /// The inode's last chunk on a node.
    Query {
        node: u8,
        inode: InodeId,
    },
    /// On a node, the inode's chunks from index `keep` on go away. Where it `holds` the chunk before them,
    /// this gets the length `rest`.
    SetEnd {
        node: u8,
        inode: InodeId,
        keep: u64,
        /// In bytes.
        rest: u32,
        holds: bool,
    },
    /// All chunks of the inode on a node go away. The version is that of the entry which purged it.
    Remove {
        node: u8,
        inode: InodeId,
        version: u64,
    },
    /// Nothing; the task has ended.
    Done,
}

/// What a task is answered. Each answer fits the last ask. No call that is built asks a storage node.
#[derive(Debug, Drop)]
pub enum Answer {
    /// To no ask: the task's first step.
    Start,
    /// To `Begin`: the version.
    Begun(u64),
    /// To `Get`.
    Got(Got),
    /// To `Range`, in the order of keys.
    Rows(Items<Row>),
    /// To `Commit`: the entry's version.
    Committed(u64),
    /// To `Commit`: the version of a later entry, and the least key of it that was read.
    Conflict(u64, Key),
    /// To `Commit`: the journal takes no more.
    StoreFull,
    /// To `Query`.
    Ended(Asked),
    /// To `SetEnd` and `Remove`: how much the node has done, with this.
    Did(u64),
    /// To `Query`, `SetEnd` and `Remove`: the node did nothing.
    NodeRefused(NodeError),
}

/// What an operation's task comes to in one step.
#[derive(Debug, Drop)]
pub enum OpStep {
    Ask(Ask),
    /// The reply of a query or a refusal, which changes nothing.
    Reply(Reply),
    /// The reply once the transaction's writes are committed, and what the nodes answered.
    Commit(Reply, Items<Asked>),
}
