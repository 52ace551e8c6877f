ghost use Rattle.std.specs.Prelude.{◌≡◌, IfOk};
ghost use Rattle.conflict_sets.specs.Rows.{IsAscending};
ghost use Rattle.tree_model.specs.Tree.{new_tree};
ghost use Rattle.row_tree.specs.HasTree.{HasTree};
ghost use Rattle.row_tree.specs.Opening.{opening_bytes, root_with};

use fs_base::{Config, InodeId, Items, Memory, Row, Text};
use inode_record::{InodePart, InodeRow};
use key_schema::Key;
use std::alloc::Global;

fn root_row(chunk: u32, stripe: u16) -> InodeRow
    ensures { result ≡ root_with chunk stripe }
{
    InodeRow {
        mode: 0o755,
        owner: 0,
        group: 0,
        links: 1,
        atime: 0,
        mtime: 0,
        ctime: 0,
        part: InodePart::Dir {
            parent: InodeId::root(),
            chunk,
            stripe,
        },
    }
}

/// The rows of a new store: that of the root directory alone.
pub fn opening_rows(alloc: Global, config: &Config) -> Result<Items<Row>, Memory>
    ensures value { IfOk result (λ rows. rows ≡ opening_bytes config.now) }
    ensures ascending { IfOk result (λ rows. IsAscending rows) }
    ensures tree { IfOk result (λ rows. HasTree config.now rows (new_tree config.now)) }
{
    // Of the limits, that of the chains bounds the stripe.
    let (chunk, stripe, _chains) = (config.chunk(), config.stripe(), config.chains());
    let key = Key::Inode(InodeId::root()).write(alloc)?;
    let value = root_row(chunk, stripe).write(alloc)?;
    let mut rows = Items::new(alloc);
    rows.push(Row {
        key: Text::from_vec(key),
        value: Text::from_vec(value),
    })?;
    Ok(rows)
}
