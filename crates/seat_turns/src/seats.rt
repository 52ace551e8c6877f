ghost use Rattle.std.specs.Prelude.{◌≡◌, All, IfOk};
ghost use Rattle.client_core.specs.Plans.{IsScript};
ghost use Rattle.seat_turns.specs.Seats.{new_seat, seats_of};

use client_core::{ClientState, Script};
use fs_base::{Config, Items, Memory};
use meta_task::MetaTask;
use run_record::Listed;
use std::alloc::Global;
use txn_task::Ask;

/// A request that a server works on.
#[derive(Drop)]
pub struct Work {
    pub task: MetaTask,
    /// The one that waits for its answer.
    pub ask: Ask,
    /// The server that works on it.
    pub server: u8,
    /// The length of the journal as its call began.
    pub front: u64,
}

/// A client in its world.
#[derive(Drop)]
pub struct Seat {
    pub client: ClientState,
    /// The request under way, where a server works on it.
    pub work: Option<Work>,
    /// The front of the call under way, where its server stopped: the request is sent again at the client's
    /// next turn, and until then it is at no server.
    pub again: Option<u64>,
    pub receipts: Items<Listed>,
}

/// A client that has done nothing yet.
fn new_seat(alloc: Global, config: Config, script: Script) -> Result<Seat, Memory>
    requires { IsScript config.servers script }
    ensures { IfOk result (λ seat. seat ≡ new_seat config script) }
{
    let client = ClientState::new(alloc, script, config)?;
    Ok(Seat {
        client,
        work: None,
        again: None,
        receipts: Items::new(alloc),
    })
}

/// A seat for each script, in their order.
pub fn new_seats(alloc: Global, config: Config, scripts: Items<Script>) -> Result<Vec<Seat>, Memory>
    requires { All (IsScript config.servers) scripts }
    ensures { IfOk result (λ seats. seats.items ≡ seats_of config scripts) }
{
    let mut seats = Vec::new(alloc);
    for script in scripts.into_vec() {
        let seat = new_seat(alloc, config, script)?;
        seats.push(seat)?;
    }
    Ok(seats)
}
