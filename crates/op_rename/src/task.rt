ghost use Rattle.std.specs.Prelude.{◌≡◌, IfOk, IsTrue};
ghost use Rattle.fs_base.specs.Paths.{path_of};
ghost use Rattle.fs_base.specs.declared.call.Call.TheVariants as calls;
ghost use Rattle.row_records.specs.Calls.{is_call};
ghost use Rattle.tree_model.specs.Calls.{effect};
ghost use Rattle.tree_model.specs.Tree.{Tree};
ghost use Rattle.path_walk.specs.Faults.{move_fault, no_name};
ghost use Rattle.path_walk.specs.Footprint.{call_areas};
ghost use Rattle.op_rename.specs.Rename.{IsRenameReady, IsRenameCall, rename_areas, rename_effect};

use fs_base::{Call, Code, Config, Memory, Path, Place, Request};
use path_walk::Stage;
use std::alloc::Global;
use tree_model::WalkEnd;

/// rename under way.
#[derive(Drop)]
pub struct RenameTask {
    pub config: Config,
    pub stamp: u64,
    /// Where the entry is to come.
    pub to: Place,
    /// The walk of the call's first place.
    pub stage: Stage,
    /// Whether memory ran out on the way.
    pub failed: bool,
}

/// A path without a name leads to no entry.
fn no_name(path: &Result<Path, Code>) -> Option<Code>
    ensures { result ≡ no_name path.now }
{
    match path {
        Ok(path) if path.names.is_empty() => Some(Code::IsRoot),
        _ => None,
    }
}

/// What is wrong with the words, beside those of the first path.
fn fault_of(alloc: Global, from: &Place, to: &Place) -> Result<Option<Code>, Memory>
    ensures { IfOk result (λ fault. fault ≡ move_fault from.now to.now) }
{
    let path = to.path(alloc)?;
    if let Err(code) = &path {
        return Ok(Some(*code));
    }
    let source = from.path(alloc)?;
    match no_name(&source) {
        Some(code) => Ok(Some(code)),
        None => Ok(no_name(&path)),
    }
}

impl RenameTask {
    /// The task of a call that moves an entry. Nothing is asked for yet; a fault in the call's words is
    /// known.
    pub fn new(alloc: Global, request: &Request, config: &Config) -> Result<RenameTask, Memory>
        requires numbers { IsTrue (is_call (request.now.stamp, request.now.call)) }
        requires call { IsRenameCall request.now.call }
        ensures config { IfOk result (λ task. task.config ≡ config.now) }
        ensures effect { IfOk result (λ task. (T : Tree) → rename_effect task T ≡ effect config.now T request.now) }
        ensures areas { IfOk result
            (λ task. (T : Tree)
            → rename_areas task T ≡ call_areas config.now T request.now request.now.call) }
        ensures ready { IfOk result IsRenameReady }
    {
        match &request.call {
            Call::Rename { from, to } => RenameTask::start(alloc, request, config, from, to),
            _ => unreachable!(),
        }
    }

    /// The task of the call with these places.
    fn start(
        alloc: Global,
        request: &Request,
        config: &Config,
        from: &Place,
        to: &Place,
    ) -> Result<RenameTask, Memory>
        requires numbers { IsTrue (is_call (request.now.stamp, request.now.call)) }
        requires call { request.now.call ≡ calls.Rename from.now to.now }
        ensures config { IfOk result (λ task. task.config ≡ config.now) }
        ensures effect { IfOk result (λ task. (T : Tree) → rename_effect task T ≡ effect config.now T request.now) }
        ensures areas { IfOk result
            (λ task. (T : Tree)
            → rename_areas task T ≡ call_areas config.now T request.now request.now.call) }
        ensures ready { IfOk result IsRenameReady }
    {
        let fault = fault_of(alloc, from, to)?;
        let stage = Stage::new(alloc, from, WalkEnd::Parent, fault)?;
        Ok(RenameTask {
            config: *config,
            stamp: request.stamp,
            to: to.try_clone(alloc)?,
            stage,
            failed: false,
        })
    }
}
