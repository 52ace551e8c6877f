//! What a thread has seen of a board's objects.
ghost use Rattle.std.specs.Prelude.{◌≡◌, ℕ, ◌*◌, ◌<◌, List, length, max, slice_index};
ghost use Rattle.hist_board.specs.Passes.{AtRest, Counts};

use crate::board::Board;
use crate::held::Held;
use crate::plays::{Copied, Hand, Meet, Recall};
use crate::steps::{SeatOf, lend};
use crate::turns::{close_turn, open_turn};
use std::sync::Wait;

/// The beginning of each object's history that was seen, and errands, which are numbers below 65,536.
///
/// It may be sent to another thread. A pass that is dropped keeps its errands from all others. It has the
/// lengths that it saw beside its seat, since `seen` has no board to ask.
#[derive(Drop)]
pub struct Pass<S: Held> {
    pub(crate) seat: SeatOf<S>,
    pub(crate) lengths: [u64; 17],
    ghost rest: { AtRest seat.table_id.words seat.me },
    ghost sized: { length lengths ≡ 17 },
    ghost counted: { Counts lengths seat.me.0 },
}

impl<S: Held> Pass<S> {
    ghost use Rattle.std.specs.Prelude.{◌≡◌, ℕ, ◌<◌, List, length};
    ghost use Rattle.std.specs.Fn.{FnOnceTakesAtMut, FnOnceReturnsAtMut};
    ghost use Rattle.hist_board.specs.Rule.{seen_at, handing, handed, copied, joined, told};
    ghost use Rattle.hist_board.specs.Passes.{SeesOn};
    ghost use Rattle.hist_board.specs.Calls.{view_of, IsPassOf, MayWorkAt, HasTurned};

    /// How many entries of the object's history the pass has seen.
    pub fn seen(&self, object: u32) -> u64
        requires object { object < length (view_of self.now).kinds }
        ensures { result ≡ length (seen_at (view_of self.now) object) }
    {
        self.lengths[object as usize]
    }

    /// Waits for the object's turn, lends it once to the work, and passes the turn on. It may wait for ever.
    ///
    /// The work may add one entry to the end of the history, if this pass holds the entry's errands and if it
    /// fits whatever the other histories are, as far as this pass can know. Else it leaves the history as it
    /// is.
    pub fn turn_with<W: Wait, R, F: FnOnce(&mut S) -> R>(
        &mut self,
        rt: &W,
        board: &Board<S>,
        object: u32,
        work: F,
    ) -> R
        requires board { IsPassOf board.now self.old }
        requires object { object < length (view_of self.old).kinds }
        requires work { MayWorkAt self.old object (FnOnceTakesAtMut F.FnOnce work) (FnOnceReturnsAtMut F.FnOnce work) }
        ensures board { IsPassOf board.now self.new }
        ensures turn { HasTurned self.old object (FnOnceReturnsAtMut F.FnOnce work) result self.new }
    {
        let shared = &board.table.shared;
        let before = open_turn(rt, shared, &mut self.seat, object);
        let (answer, after) = lend(shared, &mut self.seat, object, work);
        close_turn(shared, &mut self.seat, object, before, after);
        self.lengths[object as usize] = after;
        answer
    }

    /// A pass that has seen the same, and takes over the least errand, where there is one.
    pub fn split(&mut self, board: &Board<S>) -> Pass<S>
        requires board { IsPassOf board.now self.old }
        ensures board { IsPassOf board.now self.new × IsPassOf board.now result }
        ensures left { view_of self.new ≡ handing (view_of self.old) }
        ensures right { view_of result ≡ handed (view_of self.old) }
    {
        let seat = board.table.shared.split_seat::<Hand>(&mut self.seat);
        Pass {
            seat,
            lengths: self.lengths,
        }
    }

    /// A pass that has seen the same, and has no errand.
    pub fn copy(&mut self, board: &Board<S>) -> Pass<S>
        requires board { IsPassOf board.now self.old }
        ensures board { IsPassOf board.now self.new × IsPassOf board.now result }
        ensures left { view_of self.new ≡ view_of self.old }
        ensures right { view_of result ≡ copied (view_of self.old) }
    {
        let seat = board.table.shared.split_seat::<Copied>(&mut self.seat);
        Pass {
            seat,
            lengths: self.lengths,
        }
    }

    /// Takes in what the other has seen, and takes over its errands.
    pub fn join(&mut self, board: &Board<S>, other: Pass<S>)
        requires board { IsPassOf board.now self.old × IsPassOf board.now other }
        ensures board { IsPassOf board.now self.new }
        ensures view { view_of self.new ≡ told (joined (view_of self.old) (view_of other)) }
        ensures own { SeesOn S.errands (view_of self.old) (view_of self.new) }
        ensures theirs { SeesOn S.errands (view_of other) (view_of self.new) }
    {
        let Pass { seat, lengths } = other;
        board.table.shared.join_seat::<Meet>(&mut self.seat, seat);
        board.table.shared.load::<Recall>(&mut self.seat, 0);
        self.lengths = longest(&self.lengths, &lengths);
    }
}

// The greater number at each place.
fn longest(first: &[u64; 17], second: &[u64; 17]) -> [u64; 17]
    ensures size { length result ≡ 17 }
    ensures each { (o : ℕ) → o < 17
        → slice_index result o ≡ max (slice_index first.now o) (slice_index second.now o) }
{
    let mut lengths = [0; 17];
    for i in 0..17 {
        lengths[i] = first[i].max(second[i]);
    }
    lengths
}
