ghost use Rattle.std.specs.Prelude.{◌≡◌, IfOk, IfErr, IsErrOf};
ghost use Rattle.conflict_sets.specs.Rows.{IsAscending};
ghost use Rattle.tree_model.specs.Tree as trees;
ghost use Rattle.row_tree.specs.HasTree.{HasTree};
ghost use Rattle.row_tree.specs.declared.tree.TreeError.TheVariants as errors;

use crate::ascending::are_ascending;
use crate::reading::read_rows;
use fs_base::{Config, Memory, Row};
use std::alloc::Global;
use thiserror::Error;
use tree_model::Tree;

/// Why rows are no tree's.
#[derive(Clone, Copy, Debug, PartialEq, Eq, Error)]
pub enum TreeError {
    #[error("not the rows of a tree")]
    BadRows,
    #[error("out of memory")]
    Memory,
}

impl From<Memory> for TreeError {
    ghost from_gives = { λ _ e. e ≡ errors.Memory };

    fn from(_e: Memory) -> TreeError {
        TreeError::Memory
    }
}

/// The tree of rows that are in the order of their keys; `BadRows` exactly where they are no tree's.
///
/// It goes through all rows several times, and up from each directory to the root.
pub fn read_tree(alloc: Global, rows: &[Row], config: &Config) -> Result<Tree, TreeError>
    ensures ascending { IfOk result (λ tree. IsAscending rows.now) }
    ensures ok { IfOk result (λ tree. HasTree config.now rows.now tree.tree) }
    ensures config { IfOk result (λ tree. tree.config ≡ config.now) }
    ensures bad { IfErr result
        (λ e. e ≡ errors.BadRows → IsAscending rows.now → (T : trees.Tree) → HasTree config.now rows.now T
        → ⊥) }
    ensures memory { (IsAscending rows.now → ⊥) → IsErrOf result errors.BadRows }
{
    if !are_ascending(rows) {
        return Err(TreeError::BadRows);
    }
    let typed = read_rows(alloc, rows)?;
    if !typed.is_well_formed(alloc, config)? {
        return Err(TreeError::BadRows);
    }
    Ok(typed.into_tree(alloc, *config)?)
}
