ghost use Rattle.std.specs.Prelude.{◌≡◌, ◌≤◌, IfOk, IsTrue};
ghost use Rattle.tree_model.specs.Calls.{effect};
ghost use Rattle.tree_model.specs.Tree.{Tree};
ghost use Rattle.path_walk.specs.Footprint.{call_areas};
ghost use Rattle.row_records.specs.Calls.{is_call};
ghost use Rattle.op_session.specs.Session.{IsSessionReady, IsSessionCall, session_task_areas, session_effect};
ghost use Rattle.op_session.specs.Beginning.{IsHeldBy, IsOpenOf};

use fs_base::{Call, ClientId, Config, InodeId, Memory, Place, Request, Session};
use path_walk::Stage;
use std::alloc::Global;
use tree_model::WalkEnd;

/// What a file is opened for.
#[derive(Clone, Copy, Debug, PartialEq, Eq)]
pub enum OpenMode {
    Read,
    /// A session of this number is made, from 1 on. Its stamp is below 2^53.
    Write { number: u64, stamp: u64 },
}

/// What is asked of a session's file.
#[derive(Clone, Copy, Debug, PartialEq, Eq)]
pub enum HeldCall {
    Fstat,
    /// This place of the layout is to be brought into use.
    Extend { place: u16 },
}

/// What is being done.
#[derive(Drop)]
pub enum SessionWork {
    /// A file is being opened.
    Opening(OpenMode, Stage),
    /// A session is looked for, and then its file.
    Held(HeldCall, Session),
}

/// open, openr, extend or fstat under way.
#[derive(Drop)]
pub struct SessionTask {
    pub config: Config,
    pub client: ClientId,
    pub work: SessionWork,
    /// Whether memory ran out on the way.
    pub failed: bool,
}

impl SessionTask {
    /// The task of one of the four calls. Nothing is asked for yet; a fault in a place's text is known.
    pub fn new(alloc: Global, request: &Request, config: &Config) -> Result<SessionTask, Memory>
        requires number { 1 ≤ request.now.number }
        requires ranges { IsTrue (is_call (request.now.stamp, request.now.call)) }
        requires call { IsSessionCall request.now.call }
        ensures config { IfOk result (λ task. task.config ≡ config.now) }
        ensures effect { IfOk result (λ task. (T : Tree) → session_effect task T ≡ effect config.now T request.now) }
        ensures areas { IfOk result
            (λ task. (T : Tree)
            → session_task_areas task T ≡ call_areas config.now T request.now request.now.call) }
        ensures ready { IfOk result IsSessionReady }
    {
        match &request.call {
            Call::Openr(place) => SessionTask::open(alloc, request, config, place, OpenMode::Read),
            Call::Open(place) => {
                let mode = OpenMode::Write {
                    number: request.number,
                    stamp: request.stamp,
                };
                SessionTask::open(alloc, request, config, place, mode)
            }
            Call::Fstat(session) => {
                Ok(SessionTask::held(request, config, session, HeldCall::Fstat))
            }
            Call::Extend { session, place } => {
                let call = HeldCall::Extend { place: *place };
                Ok(SessionTask::held(request, config, session, call))
            }
            _ => unreachable!(),
        }
    }

    /// The task that opens the file at a place.
    fn open(
        alloc: Global,
        request: &Request,
        config: &Config,
        place: &Place,
        mode: OpenMode,
    ) -> Result<SessionTask, Memory>
        requires number { 1 ≤ request.now.number }
        requires ranges { IsTrue (is_call (request.now.stamp, request.now.call)) }
        requires call { IsOpenOf request.now request.now.call mode place.now }
        ensures config { IfOk result (λ task. task.config ≡ config.now) }
        ensures effect { IfOk result (λ task. (T : Tree) → session_effect task T ≡ effect config.now T request.now) }
        ensures areas { IfOk result
            (λ task. (T : Tree)
            → session_task_areas task T ≡ call_areas config.now T request.now request.now.call) }
        ensures ready { IfOk result IsSessionReady }
    {
        let stage = Stage::new(alloc, place, WalkEnd::Follow, None)?;
        Ok(SessionTask {
            config: *config,
            client: request.client,
            work: SessionWork::Opening(mode, stage),
            failed: false,
        })
    }

    /// The task of a call by a session.
    fn held(request: &Request, config: &Config, session: &Session, call: HeldCall) -> SessionTask
        requires call { IsHeldBy request.now.call call session.now }
        ensures config { result.config ≡ config.now }
        ensures effect { (T : Tree) → session_effect result T ≡ effect config.now T request.now }
        ensures areas { (T : Tree) → session_task_areas result T ≡ call_areas config.now T request.now request.now.call }
        ensures ready { IsSessionReady result }
    {
        let session = Session {
            inode: InodeId::new(session.inode.get()),
            number: session.number,
        };
        SessionTask {
            config: *config,
            client: request.client,
            work: SessionWork::Held(call, session),
            failed: false,
        }
    }
}
