ghost use Rattle.std.specs.Prelude.{◌≡◌, ◌++◌, false, take, IfOk, OnOk};
ghost use Rattle.std.specs.Option.{option_copied};
ghost use Rattle.std.specs.BTreeMap.{IsOrdered};
ghost use Rattle.std.specs.Ordering.{is_gt, nat_cmp};
ghost use Rattle.std.specs.Cmp.Lexicographic.{slice_cmp};
ghost use Rattle.conflict_sets.specs.Keys.{key_cmp};
ghost use Rattle.conflict_sets.specs.Rows.{row_if_some, rows_between};
ghost use Rattle.kv_store.specs.Chains.{up_to, last_of, value_of};
ghost use Rattle.kv_store.specs.Versions.{rows_of};

use crate::chain::{Version, VersionChain};
use crate::chains::Chains;
use fs_base::{Items, Memory, Row, Text};
use std::alloc::Global;
use std::collections::btree_map::Range;

/// The first `limit` rows at a version from `lo` up to, and without, `hi`.
pub fn between(
    alloc: Global,
    chains: &Chains,
    version: u64,
    lo: &[u8],
    hi: &[u8],
    limit: u32,
) -> Result<Items<Row>, Memory>
    requires { is_gt (key_cmp lo.now hi.now) ≡ false }
    ensures rows { IfOk result
        (λ found. found ≡ rows_between (rows_of version chains.now.entries) lo.now hi.now limit) }
    ensures ordered { OnOk result (IsOrdered (slice_cmp nat_cmp) chains.now) }
{
    let lo = Text::from_slice(alloc, lo)?;
    let hi = Text::from_slice(alloc, hi)?;
    first_rows(alloc, chains.range(&lo..&hi), version, limit)
}

fn first_rows(
    alloc: Global,
    chains: Range<'_, Text, VersionChain>,
    version: u64,
    limit: u32,
) -> Result<Items<Row>, Memory>
    ensures { IfOk result (λ found. found ≡ take limit (rows_of version chains.entry)) }
{
    let mut rows = Vec::new(alloc);
    for (key, chain) in chains {
        if rows.len() == limit as usize {
            return Ok(Items::from_vec(rows));
        }
        add_row(&mut rows, key, chain.seen(version))?;
    }
    Ok(Items::from_vec(rows))
}

/// Adds the row of a key, where its last version gives it a value.
fn add_row(rows: &mut Vec<Row>, key: &Text, last: Option<&Version>) -> Result<(), Memory>
    ensures { OnOk result
        (rows.new.items ≡ rows.old.items ++ row_if_some key.now (value_of (option_copied last.entry))) }
{
    let Some(last) = last else {
        return Ok(());
    };
    let Some(value) = &last.value else {
        return Ok(());
    };
    let row = Row {
        key: key.try_clone()?,
        value: value.try_clone()?,
    };
    rows.push(row)?;
    Ok(())
}
