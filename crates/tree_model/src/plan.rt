use crate::node::Node;
use fs_base::{Changes, Code, FileInfo, InodeId, Name};

/// A new node with its entry, and the number that its server gave.
#[derive(Drop)]
pub struct Child {
    pub key: (u64, Name),
    pub number: u32,
    pub id: InodeId,
    pub node: Node,
}

/// What becomes of a node that loses an entry.
#[derive(Clone, Copy, Debug, PartialEq, Eq)]
pub enum Fate {
    /// The stamp is its change time.
    Stays,
    /// The same, and it waits to be deleted.
    Waits,
    /// It is taken away.
    Goes,
}

/// An entry on its way from one place to another.
#[derive(Drop)]
pub struct Shift {
    pub from: (u64, Name),
    pub to: (u64, Name),
    /// Where it leads.
    pub id: InodeId,
}

/// What an update is to do.
#[derive(Drop)]
pub enum Plan {
    Refuse(Code),
    Add(Child),
    /// To the node of this id.
    Change(u64, Changes),
    /// A further entry, which leads to the node of this id.
    Join((u64, Name), InodeId),
    /// The entry, which leads to the node of this id, is taken away.
    Detach((u64, Name), InodeId, Fate),
    /// The tree stays; the reply is kept.
    Keep,
    /// An entry comes from its place to another.
    Move(Shift),
    /// The same, where an entry of the node of this id stood, which has lost it.
    Replace(Shift, InodeId, Fate),
    /// A session: inode, client and number. The file is what it is opened with.
    Open((u64, (u128, u64)), FileInfo),
    /// The file of this id gets this hint.
    Extend(InodeId, u16),
}
