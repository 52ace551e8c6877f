use fs_base::{Layout, Reply};

/// A client's last update that was answered Ok: its number, and what it was answered.
#[derive(Debug, Drop)]
pub struct KeptReply {
    pub number: u64,
    pub reply: Reply,
}

/// How far the deletion of a file has come.
#[derive(Clone, Copy, Debug, PartialEq, Eq)]
pub enum Doom {
    /// No entry leads to it; its node is still there.
    Waiting,
    /// Its node is gone; its chunks, which lie by this layout and hint, may still be there.
    Purged { layout: Layout, hint: u16 },
}
