//! Requests that a stop of their server takes away.

ghost use Rattle.std.specs.Prelude.{◌≡◌, ℕ, Some, None, slice_get, option_map, OnOk};
ghost use Rattle.fs_base.specs.declared.call.Request.{Request as RequestView};
ghost use Rattle.seat_turns.specs.Events.{lost_at, taken_away};
ghost use Rattle.seat_turns.specs.Seats.{scripts_of_seats};
ghost use Rattle.seat_turns.specs.declared.seats.Seat.{Seat as SeatView};
ghost use Rattle.seat_turns.specs.declared.seats.Work.{Work as WorkView};

use crate::seats::{Seat, Work};
use client_core::ClientAnswer;
use fs_base::Memory;
use meta_task::MetaTask;

pub(crate) fn let_go(_task: MetaTask) {}

pub(crate) fn take_work(seat: &mut Seat) -> Option<Work>
    ensures work { result ≡ seat.old.work }
    ensures seat { seat.new ≡ record seat.old { work = None } }
{
    seat.work.take()
}

/// The client learns that its server stopped. What it sends then goes out at its next turn.
pub(crate) fn take_away(seat: &mut Seat, work: Work, stop: u32) -> Result<(), Memory>
    requires idle { seat.old.work ≡ None }
    requires sent { (request : RequestView) × (seat.old.client.request ≡ Some request) }
    ensures script { seat.new.client.script ≡ seat.old.client.script }
    ensures taken { OnOk result (seat.new ≡ taken_away stop work seat.old) }
{
    let Work {
        task,
        ask: _,
        server,
        front,
    } = work;
    let_go(task);
    seat.client.next(ClientAnswer::Gone { server, stop })?;
    seat.again = Some(front);
    Ok(())
}

/// The same, where the server works on a request of the client.
fn lose(seat: &mut Seat, server: u8, stop: u32) -> Result<(), Memory>
    requires sent { (work : WorkView) → seat.old.work ≡ Some work
        → (request : RequestView) × (seat.old.client.request ≡ Some request) }
    ensures script { seat.new.client.script ≡ seat.old.client.script }
    ensures lost { OnOk result (seat.new ≡ lost_at server stop seat.old seat.old.work) }
{
    let Some(work) = take_work(seat) else {
        return Ok(());
    };
    if work.server != server {
        seat.work = Some(work);
        return Ok(());
    }
    take_away(seat, work, stop)
}

/// The same of each client.
pub(crate) fn lose_all(seats: &mut Vec<Seat>, server: u8, stop: u32) -> Result<(), Memory>
    requires sent { (k : ℕ) (seat : SeatView) (work : WorkView) → slice_get seats.old.items k ≡ Some seat
        → seat.work ≡ Some work → (request : RequestView) × (seat.client.request ≡ Some request) }
    ensures scripts { scripts_of_seats seats.new.items ≡ scripts_of_seats seats.old.items }
    ensures lost { (k : ℕ) → OnOk result
        (slice_get seats.new.items k
        ≡ option_map (λ seat. lost_at server stop seat seat.work) (slice_get seats.old.items k)) }
{
    for k in 0..seats.len() {
        lose(&mut seats[k], server, stop)?;
    }
    Ok(())
}
