//! How a board is made.
ghost use Rattle.std.specs.Prelude.{◌≡◌, ℕ, ◌+◌, ◌*◌, ◌<◌, ◌≤◌, length, map, vec_len, slice_index, IfOk};
ghost use mathlib.Core.Option.{some};
ghost use lib.ListN.{get_elem?};
ghost use Rattle.hist_board.specs.Rule.{frame_of, fits_under, first_view};
ghost use Rattle.hist_board.specs.Passes.{OneFrame};
ghost use Rattle.hist_board.specs.Calls.{view_of, IsPassOf};

use crate::board::Board;
use crate::held::Held;
use crate::pass::Pass;
use atomic_table::{Refused, Table};
use fs_base::Memory;
use std::alloc::Global;
use std::snapshot::Snapshot;

impl<S: Held + Drop> Board<S> {
    /// A board of these objects, in this order, with a pass that has seen each history whole and has every
    /// errand. Without memory the objects are dropped.
    pub fn new(alloc: Global, objects: Vec<S>) -> Result<(Board<S>, Pass<S>), Memory>
        requires some { (0 < vec_len objects) × (vec_len objects ≤ 17) }
        requires frame { OneFrame S.frame objects.items }
        requires fit { fits_under S.fits (frame_of S.frame objects.items) (map S.history objects.items) }
        ensures pass { IfOk result (λ r. IsPassOf r.0 r.1) }
        ensures view { IfOk result (λ r. view_of r.1 ≡ first_view S.history S.frame S.kind objects.items) }
    {
        let (words, lengths) = first_words(&objects);
        let made = Snapshot::of(&objects);
        let count = 3 * objects.len();
        match Table::new(alloc, &words[..count], objects, &made) {
            Ok((table, seat)) => Ok((Board { table }, Pass { seat, lengths })),
            Err(Refused { slots: _ }) => Err(Memory),
        }
    }
}

// The words of a new board, and the lengths of the histories.
fn first_words<S: Held>(objects: &Vec<S>) -> ([u64; 51], [u64; 17])
    requires { vec_len objects.now ≤ 17 }
    ensures sizes { (length result.0 ≡ 51) × (length result.1 ≡ 17) }
    ensures each { (o : ℕ) (x : S) → get_elem? objects.now.items o ≡ some x
        → (slice_index result.0 (3 * o) ≡ 0) × (slice_index result.0 (3 * o + 1) ≡ 0)
        × (slice_index result.0 (3 * o + 2) ≡ length (S.history x))
        × (slice_index result.1 o ≡ length (S.history x)) }
{
    let mut words = [0u64; 51];
    let mut lengths = [0u64; 17];
    for i in 0..objects.len() {
        let length = objects[i].length();
        words[3 * i + 2] = length;
        lengths[i] = length;
    }
    (words, lengths)
}
