//! A list of entries behind turns. The errand of an entry is its client.
ghost use Rattle.std.specs.Prelude.{◌≡◌, ℕ, ◌<◌, List, [], ◌∷◌, ◌++◌, Contains, length};
ghost use Rattle.board_tests.specs.Adding.{HasAdded};
ghost use Rattle.board_tests.specs.Errands.{numbers_of};
ghost use Rattle.hist_board.specs.Rule.{seen_at};
ghost use Rattle.hist_board.specs.Calls.{view_of, IsPassOf};

use fs_base::Memory;
use hist_board::{Board, Held, Pass};
use std::sync::Wait;

#[derive(Clone, Copy)]
pub struct Entry {
    pub client: u32,
    pub number: u64,
}

#[derive(Drop)]
pub struct Log {
    pub items: Vec<Entry>,
}

impl Held for Log {
    ghost use Rattle.board_tests.specs.Errands.{errand_of};

    type Item = Entry;

    type Frame = ();

    ghost history = { λ s. s.items.items };

    ghost frame = { λ _. tt };

    ghost kind = { λ _. 0 };

    ghost errands = { λ _. errand_of };

    ghost fits = { λ _ _. Unit {0} };

    fn length(&self) -> u64 {
        self.items.len() as u64
    }
}

/// Adds an entry of a client whose errand the pass holds, in a turn.
pub fn add_entry<W: Wait>(
    rt: &W,
    board: &Board<Log>,
    pass: &mut Pass<Log>,
    client: u32,
    number: u64,
) -> Result<(), Memory>
    requires board { IsPassOf board.now pass.old }
    requires object { 0 < length (view_of pass.old).kinds }
    requires errand { Contains (view_of pass.old).errands client }
    ensures board { IsPassOf board.now pass.new }
    ensures errands { (view_of pass.new).errands ≡ (view_of pass.old).errands }
    ensures kinds { (view_of pass.new).kinds ≡ (view_of pass.old).kinds }
    ensures own { HasAdded (numbers_of client (seen_at (view_of pass.old) 0)) number result (numbers_of client (seen_at (view_of pass.new) 0)) }
{
    pass.turn_with(
        rt,
        board,
        0,
        |log: &mut Log| -> Result<(), Memory>
            ensures { HasAdded log.old.items.items (record { client = client; number = number }) result log.new.items.items }
        { Ok(log.items.push(Entry { client, number })?) },
    )
}
