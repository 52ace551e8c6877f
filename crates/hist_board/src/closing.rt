//! How a board is closed.
ghost use Rattle.std.specs.Prelude.{◌≡◌, ℕ, ◌+◌, ◌*◌, ◌<◌, ◌≤◌, List, [], length, vec_capacity, IfOk};
ghost use Rattle.std.specs.Slots.{slots_items, slots_len, IsFull};
ghost use Rattle.hist_board.specs.Passes.{AtRest, Closing};
ghost use Rattle.hist_board.specs.Calls.{IsPassOf, HasClosed};

use crate::board::Board;
use crate::held::Held;
use crate::pass::Pass;
use crate::steps::{SeatOf, SharedOf};
use crate::turns::hold_turn;
use atomic_table::Closed;
use fs_base::Memory;
use std::alloc::Global;
use std::sync::Wait;

impl<S: Held + Drop> Board<S> {
    /// Takes its memory, then a turn on each object, passing none on, and gives the objects in order.
    ///
    /// It waits for these turns, perhaps for ever, and nobody adds an entry to an object after its turn here.
    /// Without memory the objects are dropped.
    pub fn close<W: Wait>(self, rt: &W, alloc: Global, last: Pass<S>) -> Result<Vec<S>, Memory>
        requires board { IsPassOf self last }
        ensures { IfOk result (λ objects. HasClosed last objects.items) }
    {
        let count = self.table.slot_count();
        let mut objects = Vec::with_capacity(alloc, count)?;
        let Pass { seat, lengths: _ } = last;
        let seat = hold_all(rt, &self.table.shared, seat, count as u32);
        let Board { table } = self;
        let closed = table.close_with(seat);
        Ok(unload(closed, objects))
    }
}

// Takes a turn on each object, and keeps it.
fn hold_all<S: Held, W: Wait>(
    rt: &W,
    shared: &SharedOf<S>,
    seat: SeatOf<S>,
    count: u32,
) -> SeatOf<S>
    requires table { seat.table_id ≡ shared.now.table_id }
    requires rest { AtRest seat.table_id.words seat.me }
    requires count { count ≡ length seat.me.0.kinds }
    ensures table { result.table_id ≡ seat.table_id }
    ensures held { Closing S.errands seat.me count result.me }
{
    let mut seat = seat;
    for i in 0..count {
        hold_turn(rt, shared, &mut seat, i);
    }
    seat
}

// The values of all slots, in order.
fn unload<S>(closed: Closed<S, Global>, objects: Vec<S>) -> Vec<S>
    requires full { IsFull closed.slots }
    requires room { (objects.items ≡ []) × (slots_len closed.slots ≤ vec_capacity objects) }
    ensures { result.items ≡ slots_items closed.slots }
{
    let mut closed = closed;
    let mut objects = objects;
    for i in 0..closed.slot_count() {
        objects.push_reserved(closed.take(i));
    }
    closed.free();
    objects
}
