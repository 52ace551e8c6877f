ghost use Rattle.std.specs.Prelude.{IfOk};
ghost use Rattle.path_walk.specs.Directories.{IsDirRead};
ghost use Rattle.op_rename.specs.Climb.{IsParentFound, IsClimbStep};

use fs_base::{InodeId, Memory};
use inode_record::InodePart;
use key_schema::Key;
use std::alloc::Global;
use txn_task::{Txn, Want, want_inode};

/// What is known of the directory above another one.
#[derive(Drop)]
pub(crate) enum Above {
    /// The row that names it is still to be asked for.
    Ask(Key),
    Dir(InodeId),
    /// No row names one.
    Nothing,
}

/// Where the way up from a directory has come.
#[derive(Drop)]
pub(crate) enum Climb {
    /// A row on the way is still to be asked for.
    Ask(Key),
    /// To the source.
    Found,
    /// To the root, and not by the source.
    Clear,
}

fn look_above(alloc: Global, txn: &Txn, dir: InodeId) -> Result<Above, Memory>
    ensures { IfOk result (λ above. IsParentFound above txn.now.reads dir) }
{
    let row = match want_inode(alloc, txn, dir)? {
        Want::Ask(key) => return Ok(Above::Ask(key)),
        Want::Absent => return Ok(Above::Nothing),
        Want::There(row) => row,
    };
    match &row.part {
        InodePart::Dir { parent, .. } => Ok(Above::Dir(*parent)),
        _ => Ok(Above::Nothing),
    }
}

/// Up by parents to the source or the root.
///
/// No way up meets an inode twice, so it has no more of them than keys were read.
pub(crate) fn climb_from(
    alloc: Global,
    txn: &Txn,
    source: InodeId,
    dir: InodeId,
) -> Result<Climb, Memory>
    requires { IsDirRead txn.now.reads dir }
    ensures { IfOk result (λ climb. IsClimbStep climb txn.now.reads source dir) }
{
    let mut here = dir;
    let mut left = txn.keys_read();
    loop {
        if here == source {
            return Ok(Climb::Found);
        }
        if here == InodeId::root() {
            return Ok(Climb::Clear);
        }
        match look_above(alloc, txn, here)? {
            Above::Ask(key) => return Ok(Climb::Ask(key)),
            Above::Dir(parent) => here = parent,
            Above::Nothing => return Ok(Climb::Found),
        }
        if left == 0 {
            return Ok(Climb::Found);
        }
        left -= 1;
    }
}
