//! The events of worlds as lists: what follows from each one for all that came before it.
#![tactic(auto)]

mod laws;
mod stops;

pub use laws::{
    a_begin_is_fresh, conflicts_are_later, events_ask, fronts_begin_calls, receipts_are_told,
    replies_rise, runs_are_events, uncommitted_replies_are_begun,
};
pub use stops::{counts_are_of_events, stops_come_when_due};
