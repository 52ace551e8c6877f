ghost use Rattle.std.specs.Prelude.{◌≡◌, IfOk};
ghost use Rattle.tree_model.specs.Calls.{effect};
ghost use Rattle.tree_model.specs.Tree.{Tree};
ghost use Rattle.path_walk.specs.Footprint.{call_areas};
ghost use Rattle.path_walk.specs.Requests.{IsRequest};
ghost use Rattle.op_attr.specs.Attr.{IsAttrCall, IsAttrReady, attr_areas, attr_effect};
ghost use Rattle.op_attr.specs.Beginning.{IsAttrCallAt, attr_end};

use fs_base::{Call, Changes, Config, Memory, Place, Request};
use path_walk::Stage;
use std::alloc::Global;
use tree_model::WalkEnd;

/// What is done where the walk ends.
#[derive(Clone, Copy, Debug, PartialEq, Eq)]
pub enum AttrCall {
    Lookup,
    Stat,
    List,
    Readlink,
    /// The stamp becomes the change time; it is below 2^53.
    Setattr { stamp: u64, changes: Changes },
}

/// lookup, stat, list, readlink or setattr under way.
#[derive(Drop)]
pub struct AttrTask {
    pub config: Config,
    pub call: AttrCall,
    pub stage: Stage,
    /// Whether memory ran out on the way.
    pub failed: bool,
}

/// Where the walk of a call's place ends.
fn end_of(call: AttrCall) -> WalkEnd
    ensures { result ≡ attr_end call }
{
    match call {
        AttrCall::Lookup => WalkEnd::NoFollow,
        AttrCall::Stat => WalkEnd::Follow,
        AttrCall::List => WalkEnd::Follow,
        AttrCall::Readlink => WalkEnd::NoFollow,
        AttrCall::Setattr { .. } => WalkEnd::Follow,
    }
}

impl AttrTask {
    /// The task of a query by place, or of setattr. Nothing is asked for yet; a fault in the place's text is
    /// known.
    pub fn new(alloc: Global, request: &Request, config: &Config) -> Result<AttrTask, Memory>
        requires valid { IsRequest config.now request.now }
        requires call { IsAttrCall request.now.call }
        ensures config { IfOk result (λ task. task.config ≡ config.now) }
        ensures effect { IfOk result (λ task. (T : Tree) → attr_effect task T ≡ effect config.now T request.now) }
        ensures areas { IfOk result
            (λ task. (T : Tree)
            → attr_areas task T ≡ call_areas config.now T request.now request.now.call) }
        ensures ready { IfOk result IsAttrReady }
    {
        match &request.call {
            Call::Lookup(place) => AttrTask::start(alloc, request, config, place, AttrCall::Lookup),
            Call::Stat(place) => AttrTask::start(alloc, request, config, place, AttrCall::Stat),
            Call::List(place) => AttrTask::start(alloc, request, config, place, AttrCall::List),
            Call::Readlink(place) => {
                AttrTask::start(alloc, request, config, place, AttrCall::Readlink)
            }
            Call::Setattr { place, changes } => {
                let call = AttrCall::Setattr {
                    stamp: request.stamp,
                    changes: *changes,
                };
                AttrTask::start(alloc, request, config, place, call)
            }
            _ => unreachable!(),
        }
    }

    /// The task of this call at this place.
    fn start(
        alloc: Global,
        request: &Request,
        config: &Config,
        place: &Place,
        call: AttrCall,
    ) -> Result<AttrTask, Memory>
        requires valid { IsRequest config.now request.now }
        requires call { IsAttrCallAt request.now.stamp request.now.call call place.now }
        ensures config { IfOk result (λ task. task.config ≡ config.now) }
        ensures effect { IfOk result (λ task. (T : Tree) → attr_effect task T ≡ effect config.now T request.now) }
        ensures areas { IfOk result
            (λ task. (T : Tree)
            → attr_areas task T ≡ call_areas config.now T request.now request.now.call) }
        ensures ready { IfOk result IsAttrReady }
    {
        let stage = Stage::new(alloc, place, end_of(call), None)?;
        Ok(AttrTask {
            config: *config,
            call,
            stage,
            failed: false,
        })
    }
}
