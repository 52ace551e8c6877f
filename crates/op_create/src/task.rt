ghost use Rattle.std.specs.Prelude.{◌≡◌, ◌≤◌, IfOk, OnErr};
ghost use Rattle.fs_base.specs.Paths.{path_of};
ghost use Rattle.tree_model.specs.Calls.{effect};
ghost use Rattle.tree_model.specs.Tree.{Tree};
ghost use Rattle.path_walk.specs.Faults.{node_fault, part_fault, refusal};
ghost use Rattle.path_walk.specs.Footprint.{call_areas};
ghost use Rattle.path_walk.specs.Requests.{IsRequest};
ghost use Rattle.op_create.specs.Beginning.{HasTarget, IsMade};
ghost use Rattle.op_create.specs.Create.{IsCreateCall, IsCreateReady, create_areas, create_effect};

use fs_base::limits::SERVERS;
use fs_base::{Call, Code, Config, Memory, Place, Request, Text};
use path_walk::Stage;
use std::alloc::Global;
use tree_model::{NewNode, NewPart, WalkEnd, is_layout, path_of};

/// mkdir, create or symlink under way.
#[derive(Drop)]
pub struct CreateTask {
    pub config: Config,
    pub server: u8,
    pub stamp: u64,
    pub node: NewNode,
    pub stage: Stage,
    /// Whether memory ran out on the way.
    pub failed: bool,
}

/// Why a link's target is no path.
fn target_fault(alloc: Global, target: &Text) -> Result<Option<Code>, Memory>
    ensures { IfOk result (λ fault. fault ≡ refusal (path_of target.now)) }
{
    match path_of(alloc, target)? {
        Ok(_) => Ok(None),
        Err(code) => Ok(Some(code)),
    }
}

fn part_fault(alloc: Global, part: &NewPart) -> Result<Option<Code>, Memory>
    ensures fault { IfOk result (λ fault. fault ≡ part_fault part.now) }
    ensures memory { OnErr result (HasTarget part.now) }
{
    match part {
        NewPart::Dir => Ok(None),
        NewPart::File => Ok(None),
        NewPart::Link(target) => target_fault(alloc, target),
    }
}

/// Why the node can't be made, whatever the tree is.
fn node_fault(alloc: Global, config: &Config, node: &NewNode) -> Result<Option<Code>, Memory>
    ensures fault { IfOk result (λ fault. fault ≡ node_fault config.now node.now) }
    ensures memory { OnErr result (HasTarget node.now.part) }
{
    match part_fault(alloc, &node.part)? {
        Some(code) => Ok(Some(code)),
        None => {
            if is_layout(config, node.layout) {
                return Ok(None);
            }
            Ok(Some(Code::BadLayout))
        }
    }
}

/// A server is one of at most sixteen.
fn few_servers(config: &Config)
    ensures { config.now.servers ≤ SERVERS }
{
    let _servers = config.servers();
}

impl CreateTask {
    /// The task of a call that makes a node. Nothing is asked for yet; a fault in the call's words is known.
    pub fn new(alloc: Global, request: &Request, config: &Config) -> Result<CreateTask, Memory>
        requires valid { IsRequest config.now request.now }
        requires call { IsCreateCall request.now.call }
        ensures config { IfOk result (λ task. task.config ≡ config.now) }
        ensures effect { IfOk result (λ task. (T : Tree) → create_effect task T ≡ effect config.now T request.now) }
        ensures areas { IfOk result
            (λ task. (T : Tree)
            → create_areas task T ≡ call_areas config.now T request.now request.now.call) }
        ensures ready { IfOk result IsCreateReady }
    {
        match &request.call {
            Call::Mkdir {
                place,
                mode,
                layout,
            } => CreateTask::start(alloc, request, config, place, NewNode::dir(*mode, *layout)),
            Call::Create {
                place,
                mode,
                layout,
            } => CreateTask::start(alloc, request, config, place, NewNode::file(*mode, *layout)),
            Call::Symlink { place, target } => {
                let node = NewNode::link(target.try_clone()?);
                CreateTask::start(alloc, request, config, place, node)
            }
            _ => unreachable!(),
        }
    }

    /// The task that makes this node at this place.
    fn start(
        alloc: Global,
        request: &Request,
        config: &Config,
        place: &Place,
        node: NewNode,
    ) -> Result<CreateTask, Memory>
        requires valid { IsRequest config.now request.now }
        requires made { IsMade request.now.call place.now node }
        ensures config { IfOk result (λ task. task.config ≡ config.now) }
        ensures effect { IfOk result (λ task. (T : Tree) → create_effect task T ≡ effect config.now T request.now) }
        ensures areas { IfOk result
            (λ task. (T : Tree)
            → create_areas task T ≡ call_areas config.now T request.now request.now.call) }
        ensures ready { IfOk result IsCreateReady }
    {
        few_servers(config);
        let fault = node_fault(alloc, config, &node)?;
        let stage = Stage::new(alloc, place, WalkEnd::Parent, fault)?;
        Ok(CreateTask {
            config: *config,
            server: request.server,
            stamp: request.stamp,
            node,
            stage,
            failed: false,
        })
    }
}
