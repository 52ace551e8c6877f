//! Clients and servers in listed turns: each turn is one ask of one client, answered by one object.
#![tactic(auto)]

mod record;
mod world;

pub use world::{Turn, World};
