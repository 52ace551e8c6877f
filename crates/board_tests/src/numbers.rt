//! A list of numbers behind turns. Its items have no errands, and fit in any order.
ghost use Rattle.std.specs.Prelude.{◌≡◌, ℕ, ◌<◌, List, [], ◌∷◌, ◌++◌, length};
ghost use Rattle.board_tests.specs.Adding.{HasAdded};
ghost use Rattle.hist_board.specs.Calls.{view_of, IsPassOf};

use fs_base::Memory;
use hist_board::{Board, Held, Pass};
use std::sync::Wait;

/// A list to which numbers are added.
#[derive(Drop)]
pub struct Numbers {
    pub items: Vec<u64>,
}

impl Held for Numbers {
    type Item = u64;

    type Frame = ();

    ghost history = { λ s. s.items.items };

    ghost frame = { λ _. tt };

    ghost kind = { λ _. 0 };

    ghost errands = { λ _ _. [] };

    ghost fits = { λ _ _. Unit {0} };

    fn length(&self) -> u64 {
        self.items.len() as u64
    }
}

/// Adds a number to the list, in a turn.
pub fn add_number<W: Wait>(
    rt: &W,
    board: &Board<Numbers>,
    pass: &mut Pass<Numbers>,
    number: u64,
) -> Result<(), Memory>
    requires board { IsPassOf board.now pass.old }
    requires object { 0 < length (view_of pass.old).kinds }
    ensures board { IsPassOf board.now pass.new }
{
    pass.turn_with(
        rt,
        board,
        0,
        |list: &mut Numbers| -> Result<(), Memory>
            ensures { HasAdded list.old.items.items number result list.new.items.items }
        { Ok(list.items.push(number)?) },
    )
}

/// A copy of a pass, which holds no errand.
pub fn copy_of(board: &Board<Numbers>, pass: &mut Pass<Numbers>) -> Pass<Numbers>
    requires board { IsPassOf board.now pass.old }
    ensures board { IsPassOf board.now pass.new × IsPassOf board.now result }
    ensures left { view_of pass.new ≡ view_of pass.old }
    ensures none { (view_of result).errands ≡ [] }
{
    pass.copy(board)
}
