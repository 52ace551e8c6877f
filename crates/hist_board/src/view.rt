//! What a pass knows.
ghost use Rattle.std.specs.Prelude.{ℕ, List, Option};
ghost use Rattle.std.specs.Borrow.{ftrue};
ghost use Rattle.hist_board.specs.Turn.{Turn, Past};

use std::marker::{Model, PhantomData};

/// What a pass has seen of each history, its errands and its turns. Contracts alone see it, and no value of
/// it
/// is made.
pub struct View<I, F> {
    marker: PhantomData<(I, F)>,
    // `None` once the pass was joined into another.
    pub ghost frame: { Option F },
    pub ghost kinds: { List ℕ },
    pub ghost seen: { List (List I) },
    pub ghost errands: { List ℕ },
    pub ghost turns: { List Turn },
    // What it and another had seen and held before they were joined.
    pub ghost olds: { List (Past I) },
}

impl<I, F> Model for View<I, F> {
    ghost also_owns = { λ _. ftrue };
}
