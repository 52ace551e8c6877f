ghost use Rattle.std.specs.Prelude.{◌≡◌, IfOk, IsTrue, OnErr};
ghost use Rattle.row_records.specs.Calls.{is_call};
ghost use Rattle.tree_model.specs.Calls.{effect};
ghost use Rattle.tree_model.specs.Tree.{Tree};
ghost use Rattle.path_walk.specs.Footprint.{call_areas};
ghost use Rattle.op_link.specs.Beginning.{HasPlace, IsLinkCallAt, link_end, fault_of};
ghost use Rattle.op_link.specs.Link.{IsLinkCall, IsLinkReady, link_areas, link_effect};

use fs_base::{Call, Code, Config, Memory, Place, Request};
use path_walk::Stage;
use std::alloc::Global;
use tree_model::WalkEnd;

/// What is done where the walk ends.
#[derive(Debug, Drop)]
pub enum LinkCall {
    /// The node there gets a further entry at this place.
    Link(Place),
    Unlink,
    Rmdir,
}

/// link, unlink or rmdir under way.
#[derive(Drop)]
pub struct LinkTask {
    pub config: Config,
    pub stamp: u64,
    pub call: LinkCall,
    /// The walk of the call's first place.
    pub stage: Stage,
    /// Whether memory ran out on the way.
    pub failed: bool,
}

/// Where the walk of a call's first place ends.
fn end_of(call: &LinkCall) -> WalkEnd
    ensures { result ≡ link_end call.now }
{
    match call {
        LinkCall::Link(_) => WalkEnd::NoFollow,
        LinkCall::Unlink => WalkEnd::Parent,
        LinkCall::Rmdir => WalkEnd::Parent,
    }
}

/// Why the second place's text is no path.
fn fault_of(alloc: Global, call: &LinkCall) -> Result<Option<Code>, Memory>
    ensures fault { IfOk result (λ fault. fault ≡ fault_of call.now) }
    ensures memory { OnErr result (HasPlace call.now) }
{
    match call {
        LinkCall::Link(to) => match to.path(alloc)? {
            Ok(_) => Ok(None),
            Err(code) => Ok(Some(code)),
        },
        LinkCall::Unlink => Ok(None),
        LinkCall::Rmdir => Ok(None),
    }
}

impl LinkTask {
    /// The task of a call that adds an entry or takes one away. Nothing is asked for yet; a fault in the
    /// call's
    /// words is known.
    pub fn new(alloc: Global, request: &Request, config: &Config) -> Result<LinkTask, Memory>
        requires numbers { IsTrue (is_call (request.now.stamp, request.now.call)) }
        requires call { IsLinkCall request.now.call }
        ensures config { IfOk result (λ task. task.config ≡ config.now) }
        ensures effect { IfOk result (λ task. (T : Tree) → link_effect task T ≡ effect config.now T request.now) }
        ensures areas { IfOk result
            (λ task. (T : Tree)
            → link_areas task T ≡ call_areas config.now T request.now request.now.call) }
        ensures ready { IfOk result IsLinkReady }
    {
        match &request.call {
            Call::Link { from, to } => {
                let call = LinkCall::Link(to.try_clone(alloc)?);
                LinkTask::start(alloc, request, config, from, call)
            }
            Call::Unlink(place) => LinkTask::start(alloc, request, config, place, LinkCall::Unlink),
            Call::Rmdir(place) => LinkTask::start(alloc, request, config, place, LinkCall::Rmdir),
            _ => unreachable!(),
        }
    }

    /// The task of this call at this place.
    fn start(
        alloc: Global,
        request: &Request,
        config: &Config,
        place: &Place,
        call: LinkCall,
    ) -> Result<LinkTask, Memory>
        requires numbers { IsTrue (is_call (request.now.stamp, request.now.call)) }
        requires call { IsLinkCallAt request.now.call call place.now }
        ensures config { IfOk result (λ task. task.config ≡ config.now) }
        ensures effect { IfOk result (λ task. (T : Tree) → link_effect task T ≡ effect config.now T request.now) }
        ensures areas { IfOk result
            (λ task. (T : Tree)
            → link_areas task T ≡ call_areas config.now T request.now request.now.call) }
        ensures ready { IfOk result IsLinkReady }
    {
        let fault = fault_of(alloc, &call)?;
        let stage = Stage::new(alloc, place, end_of(&call), fault)?;
        Ok(LinkTask {
            config: *config,
            stamp: request.stamp,
            call,
            stage,
            failed: false,
        })
    }
}
