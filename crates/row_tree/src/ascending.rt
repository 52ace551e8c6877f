ghost use Rattle.std.specs.Prelude.{◌≡◌};
ghost use Rattle.row_tree.specs.Ascending.{is_ascending, rises};

use fs_base::Row;

/// Whether the keys rise from this row on.
#[tactic(auto, unfolding(conflict_sets::specs::Keys::key_cmp))]
fn rises(first: &Row, rows: &[Row]) -> bool
    ensures { result ≡ rises first.now.key rows.now }
{
    let mut last = first;
    for row in rows {
        if last.key.cmp(&row.key).is_ge() {
            return false;
        }
        last = row;
    }
    true
}

/// Whether each key comes after the one before it.
pub(crate) fn are_ascending(rows: &[Row]) -> bool
    ensures { result ≡ is_ascending rows.now }
{
    match rows {
        [] => true,
        [first, rest @ ..] => rises(first, rest),
    }
}
