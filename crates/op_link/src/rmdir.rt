ghost use Rattle.std.specs.Prelude.{◌≡◌, ℕ, [], IfOk};
ghost use Rattle.fs_base.specs.declared.kind.Kind.TheVariants as kinds;
ghost use Rattle.tree_model.specs.declared.walk.Walked.TheVariants.{AtParent};
ghost use Rattle.path_walk.specs.Directories.{IsEntryRead};
ghost use Rattle.op_link.specs.Ending.{IsLinkEndStep};
ghost use Rattle.op_link.specs.declared.task.LinkCall.TheVariants as link;

use fs_base::{Code, InodeId, Items, Kind, Memory, Name, Reply};
use path_walk::{in_range, put_gone};
use row_records::DentRow;
use std::alloc::Global;
use tree_model::Walked;
use txn_task::{Ask, OpStep, Txn, Want, WantFirst, want_dent, want_range};

/// What rmdir does where its walk ends.
pub(crate) fn rmdir_at(alloc: Global, txn: &mut Txn, walked: Walked) -> Result<OpStep, Memory>
    requires writes { txn.old.writes ≡ [] }
    ensures { IfOk result (λ s. (stamp : ℕ) → IsLinkEndStep link.Rmdir stamp walked txn.old txn.new s) }
{
    match walked {
        Walked::At(_, _) => Ok(OpStep::Reply(Reply::Refused(Code::IsRoot))),
        Walked::NoName(_) => Ok(OpStep::Reply(Reply::Refused(Code::IsRoot))),
        Walked::Stopped(code) => Ok(OpStep::Reply(Reply::Refused(code))),
        Walked::AtParent(dir, name) => {
            let step = rmdir(alloc, txn, dir, &name)?;
            Ok(step)
        }
    }
}

fn rmdir(alloc: Global, txn: &mut Txn, dir: InodeId, name: &Name) -> Result<OpStep, Memory>
    requires writes { txn.old.writes ≡ [] }
    ensures { IfOk result
        (λ s. (stamp : ℕ) → IsLinkEndStep link.Rmdir stamp (AtParent dir name.now) txn.old txn.new s) }
{
    let entry = match want_dent(alloc, txn, dir, name)? {
        Want::Ask(key) => return Ok(OpStep::Ask(Ask::Get(key))),
        Want::Absent => return Ok(OpStep::Reply(Reply::Refused(Code::NotFound))),
        Want::There(entry) => entry,
    };
    match entry.kind {
        Kind::Dir => remove_dir(alloc, txn, dir, name, entry),
        Kind::File => Ok(OpStep::Reply(Reply::Refused(Code::NotDir))),
        Kind::Link => Ok(OpStep::Reply(Reply::Refused(Code::NotDir))),
    }
}

/// The directory that the entry leads to.
fn remove_dir(
    alloc: Global,
    txn: &mut Txn,
    dir: InodeId,
    name: &Name,
    entry: DentRow,
) -> Result<OpStep, Memory>
    requires writes { txn.old.writes ≡ [] }
    requires entry { IsEntryRead txn.old.reads dir name.now entry }
    requires is_dir { entry.kind ≡ kinds.Dir }
    ensures { IfOk result
        (λ s. (stamp : ℕ) → IsLinkEndStep link.Rmdir stamp (AtParent dir name.now) txn.old txn.new s) }
{
    match want_range(alloc, txn, entry.inode)? {
        WantFirst::Ask(ask) => Ok(OpStep::Ask(ask)),
        WantFirst::Used => Ok(OpStep::Reply(Reply::Refused(Code::NotEmpty))),
        WantFirst::Empty => {
            in_range(dir, name, entry.inode);
            put_gone(alloc, txn, dir, name, entry.inode)?;
            Ok(OpStep::Commit(Reply::Done, Items::new(alloc)))
        }
    }
}
