ghost use Rattle.std.specs.Prelude.{IfOk};
ghost use Rattle.path_walk.specs.Directories.{IsDirFound};

use fs_base::{InodeId, Memory};
use inode_record::InodePart;
use key_schema::Key;
use std::alloc::Global;
use txn_task::{Txn, Want, want_inode};

/// What is known of the directory that an entry is to come in.
#[derive(Debug, Drop)]
pub enum InDir {
    /// Its row is still to be asked for.
    Ask(Key),
    /// It is none.
    NotDir,
    Dir,
}

/// Whether a directory stands there, by its row.
pub fn in_dir(alloc: Global, txn: &Txn, dir: InodeId) -> Result<InDir, Memory>
    ensures { IfOk result (λ found. IsDirFound found txn.now.reads dir) }
{
    let row = match want_inode(alloc, txn, dir)? {
        Want::Ask(key) => return Ok(InDir::Ask(key)),
        Want::Absent => return Ok(InDir::NotDir),
        Want::There(row) => row,
    };
    match &row.part {
        InodePart::Dir { .. } => Ok(InDir::Dir),
        _ => Ok(InDir::NotDir),
    }
}
