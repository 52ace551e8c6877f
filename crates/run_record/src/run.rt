use fs_base::{ClientId, Config, Items, Text};
use txn_task::{Entry, Receipt};

/// A receipt with its client's ordinal, and what the client had seen as its call began.
#[derive(Debug, Drop)]
pub struct Listed {
    pub client: u16,
    /// The length of the journal, and then how much each storage node had done. They are not written.
    pub fronts: Items<u64>,
    pub receipt: Receipt,
    /// The call's name and the reply's words, as its line ends. It is written as it stands; a right record
    /// ties it to the call and the reply.
    pub text: Text,
}

/// The counts of the end line.
#[derive(Clone, Copy, Debug, PartialEq, Eq)]
pub struct Summary {
    pub ops: u64,
    pub commits: u64,
    pub conflicts: u64,
    pub stops: u64,
    pub waiting: u64,
}

/// What is kept of a run.
#[derive(Debug, Drop)]
pub struct Record {
    pub config: Config,
    /// Each client at its ordinal.
    pub clients: Items<ClientId>,
    /// Client by client, in the order of their calls.
    pub receipts: Items<Listed>,
    /// The journal.
    pub entries: Items<Entry>,
    pub summary: Summary,
}
