use fs_base::Reply;
use txn_task::Ask;

/// What a task waits for.
#[derive(Debug, Drop)]
pub enum Waiting {
    /// Its first step.
    Fresh,
    /// A version to read at.
    Beginning,
    /// A key or a range.
    Reading(Ask),
    /// Its commit, which has this reply.
    Committing(Reply),
    /// Nothing more: it is done.
    Ended,
    /// Nothing more: memory ran out.
    Failed,
}
