use fs_base::{Items, Request};
use txn_task::{Outcome, Receipt};

/// What a client asks of its surroundings.
#[derive(Debug, Drop)]
pub enum ClientAsk {
    /// The request is to be done by the server.
    Send {
        server: u8,
        request: Request,
    },
    /// A call has ended, with what is kept of it.
    CallEnd {
        receipts: Items<Receipt>,
        /// Whether the operation has ended with it.
        op_ends: bool,
    },
    /// Nothing: the script has ended.
    Ended,
}

/// What a client is answered. Each answer fits the last ask.
#[derive(Debug, Drop)]
pub enum ClientAnswer {
    /// To no ask: the first step. It says the same as `Next`: on with the script.
    Start,
    /// To `Send`: the server that did the request, and what it came to.
    Replied(u8, Outcome),
    /// To `Send`: the server stopped before it answered, and this was its stop of that number, from 1.
    Gone { server: u8, stop: u32 },
    /// To `CallEnd` and `Ended`.
    Next,
}
