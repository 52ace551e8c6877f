//! The clients' seats, and one client's turn over the store: at most one ask of its request.
#![tactic(auto)]

mod ending;
mod seats;
mod servers;
mod starting;
mod stopping;
mod turns;

pub use seats::{Seat, Work, new_seats};
pub use servers::{ServerCounts, Servers};
pub use turns::event;
