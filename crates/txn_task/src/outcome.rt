ghost use Rattle.std.specs.Prelude.{◌≡◌, IfOk};

use crate::copies::copy_conflicts;
use fs_base::{Call, Items, Memory, Reply};
use key_schema::Key;
use std::alloc::Global;

/// What a request came to.
#[derive(Debug, Drop)]
pub struct Outcome {
    pub reply: Reply,
    /// Of the entry that has the reply; where none has, the version that was read last.
    pub version: u64,
    /// Whether an entry of the journal has the reply.
    pub committed: bool,
    /// Each conflict that was met, in order: the later entry's version, and a key that it wrote.
    pub conflicts: Items<(u64, Key)>,
}

impl Outcome {
    pub fn try_clone(&self, alloc: Global) -> Result<Outcome, Memory>
        ensures { IfOk result (λ copy. copy ≡ self.now) }
    {
        Ok(Outcome {
            reply: self.reply.try_clone(alloc)?,
            version: self.version,
            committed: self.committed,
            conflicts: copy_conflicts(alloc, self.conflicts.as_slice())?,
        })
    }
}

/// What a client keeps of a call, and a record lists.
#[derive(Debug, Drop)]
pub struct Receipt {
    /// The place of the operation among the client's, from 0.
    pub op: u16,
    /// The request's number; a call that sends no request of its own has none.
    pub number: Option<u64>,
    /// The server that answered; a call that ends by itself has none.
    pub server: Option<u8>,
    /// The client's time of the operation.
    pub stamp: u64,
    pub call: Call,
    pub reply: Reply,
    /// Whether an entry of the journal has the reply.
    pub committed: bool,
    /// Of that entry, or else the one that was seen.
    pub version: u64,
    /// As in `Outcome`.
    pub conflicts: Items<(u64, Key)>,
    /// Each stop that took the request away: the server, and which of its stops it was, from 1.
    pub gone: Items<(u8, u32)>,
}
