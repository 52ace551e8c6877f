//! Two threads that add entries to one list.
ghost use Rattle.std.specs.Prelude.{◌≡◌, ℕ, ◌+◌, ◌<◌, List, [], ◌∷◌, true, Contains, length, IfOk};
ghost use Rattle.board_tests.specs.Errands.{numbers_of, numbers_below, HasEachOnce};
ghost use Rattle.hist_board.specs.Rule.{seen_at, all_errands};
ghost use Rattle.hist_board.specs.Calls.{view_of, IsPassOf};

use crate::log::{Log, add_entry};
use fs_base::Memory;
use hist_board::{Board, Pass};
use std::alloc::Global;
use std::sync::Wait;
use std::thread;
use std::thread::Threads;

// Adds the entries 0 to 499 of a client. False where there was no memory.
fn add_all<W: Wait>(rt: &W, board: &Board<Log>, pass: Pass<Log>, client: u32) -> (Pass<Log>, bool)
    requires board { IsPassOf board.now pass }
    requires object { 0 < length (view_of pass).kinds }
    requires errand { Contains (view_of pass).errands client }
    requires none { numbers_of client (seen_at (view_of pass) 0) ≡ [] }
    ensures board { IsPassOf board.now result.0 }
    ensures errands { (view_of result.0).errands ≡ (view_of pass).errands }
    ensures own { result.1 ≡ true → numbers_of client (seen_at (view_of result.0) 0) ≡ numbers_below 500 }
{
    let mut pass = pass;
    let mut all = true;
    for number in 0..500 {
        if add_entry(rt, board, &mut pass, client, number).is_err() {
            all = false;
        }
    }
    (pass, all)
}

// Two threads add 500 entries each, with the errands 0 and 1. False where there was no memory.
fn add_both<R: Threads + Wait + Sync>(rt: &R, board: &Board<Log>, pass: &mut Pass<Log>) -> bool
    requires board { IsPassOf board.now pass.old }
    requires object { 0 < length (view_of pass.old).kinds }
    requires errands { (view_of pass.old).errands ≡ all_errands }
    requires none { seen_at (view_of pass.old) 0 ≡ [] }
    ensures board { IsPassOf board.now pass.new }
    ensures errands { Contains (view_of pass.new).errands 0 × Contains (view_of pass.new).errands 1 }
    ensures own { result ≡ true → (numbers_of 0 (seen_at (view_of pass.new) 0) ≡ numbers_below 500) × (numbers_of 1 (seen_at (view_of pass.new) 0) ≡ numbers_below 500) }
{
    let first = pass.split(board);
    let second = pass.split(board);
    let ((first, a), (second, b)) = thread::join(
        rt,
        move || -> (Pass<Log>, bool)
            requires { IsPassOf board.now first × (0 < length (view_of first).kinds) × Contains (view_of first).errands 0 × (numbers_of 0 (seen_at (view_of first) 0) ≡ []) }
            ensures { IsPassOf board.entry.now result.0 × Contains (view_of result.0).errands 0 × (result.1 ≡ true → numbers_of 0 (seen_at (view_of result.0) 0) ≡ numbers_below 500) }
        { add_all(rt, board, first, 0) },
        move || -> (Pass<Log>, bool)
            requires { IsPassOf board.now second × (0 < length (view_of second).kinds) × Contains (view_of second).errands 1 × (numbers_of 1 (seen_at (view_of second) 0) ≡ []) }
            ensures { IsPassOf board.entry.now result.0 × Contains (view_of result.0).errands 1 × (result.1 ≡ true → numbers_of 1 (seen_at (view_of result.0) 0) ≡ numbers_below 500) }
        { add_all(rt, board, second, 1) },
    );
    pass.join(board, first);
    pass.join(board, second);
    a && b
}

/// Two threads add 500 entries each to a log of their own. False where there was no memory for an entry.
pub fn two_threads<R: Threads + Wait + Sync>(
    rt: &R,
    alloc: Global,
) -> Result<(Vec<Log>, bool), Memory>
    ensures { IfOk result (λ r. r.1 ≡ true → HasEachOnce 500 r.0.items) }
{
    let mut objects = Vec::new(alloc);
    objects.push(Log {
        items: Vec::new(alloc),
    })?;
    let (board, pass) = Board::new(alloc, objects)?;
    let mut pass = pass;
    let all = add_both(rt, &board, &mut pass);
    let objects = board.close(rt, alloc, pass)?;
    Ok((objects, all))
}
