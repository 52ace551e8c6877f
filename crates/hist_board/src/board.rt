//! Objects that threads take in turns.
ghost use Rattle.std.specs.Prelude.{◌≡◌, ◌*◌};

use crate::held::Held;
use crate::plays::Turns;
use crate::view::View;
use atomic_table::Table;
use std::alloc::Global;
use std::snapshot::Snapshot;

/// 1 to 17 objects, each lent to one pass at a time, in the order of tickets.
///
/// An object has three words, ticket (the next one), serving (the one served) and length (of its history),
/// and a slot in which it lies while no pass has it.
#[derive(Drop)]
pub struct Board<S: Held> {
    pub(crate) table: Table<S, View<S::Item, S::Frame>, Snapshot<Vec<S>>, Turns<S>, Global>,
    ghost sized: { table.shared.table_id.words ≡ 3 * table.shared.table_id.slots },
}
