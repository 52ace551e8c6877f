ghost use Rattle.std.specs.Prelude.{◌≡◌, ◌<◌, ◌≤◌, Bool, false, true, unwrap_or, IsTrue, IfOk, IfSome, OnErr};
ghost use Rattle.std.specs.FinMap.{get};
ghost use Rattle.std.specs.Option.{is_some};
ghost use Rattle.tree_model.specs.Effects.{Leaves};
ghost use Rattle.tree_model.specs.Calls.{apply, after_kept, effect, is_query, is_told, settle, settles};
ghost use Rattle.tree_model.specs.Making.{IsPlanOfEffect};

use crate::new_node::NewNode;
use crate::plan::Plan;
use crate::tree::Tree;
use fs_base::limits::{FILE_BYTES, SERVERS};
use fs_base::{Call, Memory, Reply, Request};
use std::alloc::Global;

/// Whether the tree knows what this call does.
pub fn is_told(call: &Call) -> bool
    ensures { result ≡ is_told call.now }
{
    matches!(
        call,
        Call::Lookup(_)
            | Call::Stat(_)
            | Call::List(_)
            | Call::Readlink(_)
            | Call::Openr(_)
            | Call::Fstat(_)
            | Call::Mkdir { .. }
            | Call::Create { .. }
            | Call::Symlink { .. }
            | Call::Setattr { .. }
            | Call::Link { .. }
            | Call::Unlink(_)
            | Call::Rmdir(_)
            | Call::Rename { .. }
            | Call::Open(_)
            | Call::Extend { .. }
    )
}

/// Whether a call changes nothing, whatever the tree. The replies to such calls aren't kept.
pub fn is_query(call: &Call) -> bool
    ensures { result ≡ is_query call.now }
{
    matches!(
        call,
        Call::Lookup(_)
            | Call::Stat(_)
            | Call::List(_)
            | Call::Readlink(_)
            | Call::Openr(_)
            | Call::Fstat(_)
            | Call::Doomed
    )
}

/// Whether a call settles a file's length, which the storage nodes tell.
pub fn settles(call: &Call) -> bool
    ensures { result ≡ settles call.now }
{
    matches!(call, Call::Fsync(_) | Call::Close(_))
}

impl Tree {
    /// The reply to a query.
    fn answer(&self, alloc: Global, request: &Request) -> Result<Reply, Memory>
        requires told { IsTrue (is_told request.now.call) }
        requires query { is_query request.now.call ≡ true }
        ensures { IfOk result (λ reply. effect self.now.config self.now.tree request.now ≡ Leaves reply) }
    {
        match &request.call {
            Call::Lookup(place) => self.lookup(alloc, place),
            Call::Stat(place) => self.stat(alloc, place),
            Call::List(place) => self.list(alloc, place),
            Call::Readlink(place) => self.readlink(alloc, place),
            Call::Openr(place) => self.open_to_read(alloc, place),
            Call::Fstat(session) => Ok(self.fstat(request.client, session)),
            _ => unreachable!(),
        }
    }

    /// What an update is to do.
    fn plan(&self, alloc: Global, request: &Request) -> Result<Plan, Memory>
        requires server { request.now.server < SERVERS }
        requires told { IsTrue (is_told request.now.call) }
        requires update { is_query request.now.call ≡ false }
        ensures { IfOk result
            (IsPlanOfEffect self.now.tree request.now.server request.now.stamp
            (effect self.now.config self.now.tree request.now)) }
    {
        match &request.call {
            Call::Mkdir {
                place,
                mode,
                layout,
            } => self.plan_make(alloc, request, place, NewNode::dir(*mode, *layout)),
            Call::Create {
                place,
                mode,
                layout,
            } => self.plan_make(alloc, request, place, NewNode::file(*mode, *layout)),
            Call::Symlink { place, target } => self.plan_symlink(alloc, request, place, target),
            Call::Setattr { place, changes } => self.plan_setattr(alloc, request, place, *changes),
            Call::Link { from, to } => self.plan_link(alloc, request, from, to),
            Call::Unlink(place) => self.plan_unlink(alloc, request, place),
            Call::Rmdir(place) => self.plan_rmdir(alloc, request, place),
            Call::Rename { from, to } => self.plan_rename(alloc, request, from, to),
            Call::Open(place) => self.plan_open(alloc, request, place),
            Call::Extend { session, place } => Ok(self.plan_extend(request, session, *place)),
            _ => unreachable!(),
        }
    }

    /// Does what an update is to do, and keeps its reply.
    fn perform(
        &mut self,
        alloc: Global,
        request: &Request,
        settled: Option<u64>,
    ) -> Result<Reply, Memory>
        requires server { request.now.server < SERVERS }
        requires told { IsTrue (is_told request.now.call) }
        requires update { is_query request.now.call ≡ false }
        ensures ok { IfOk result
            (λ reply. settle self.old.tree request.now (unwrap_or settled 0)
            (effect self.old.config self.old.tree request.now) ≡ (self.new.tree, reply)) }
        ensures config { self.new.config ≡ self.old.config }
        ensures err { OnErr result (self.new ≡ self.old) }
    {
        match self.plan(alloc, request)? {
            Plan::Refuse(code) => Ok(Reply::Refused(code)),
            Plan::Add(child) => self.add_kept(request, child),
            Plan::Change(id, changes) => self.change_kept(request, id, changes),
            Plan::Join(key, id) => self.join_kept(request, key, id),
            Plan::Detach(key, id, fate) => self.detach_kept(request, key, id, fate),
            Plan::Keep => self.stay_kept(request),
            Plan::Move(shift) => self.move_kept(request, shift),
            Plan::Replace(shift, old, fate) => self.replace_kept(request, shift, old, fate),
            Plan::Open(key, file) => self.open_kept(request, key, file),
            Plan::Extend(id, hint) => self.extend_kept(request, id, hint),
        }
    }

    /// An update looks at its client's kept reply first.
    fn update(
        &mut self,
        alloc: Global,
        request: &Request,
        settled: Option<u64>,
    ) -> Result<Reply, Memory>
        requires server { request.now.server < SERVERS }
        requires told { IsTrue (is_told request.now.call) }
        requires update { is_query request.now.call ≡ false }
        ensures ok { IfOk result
            (λ reply. after_kept self.old.config self.old.tree request.now (unwrap_or settled 0)
            (get self.old.tree.kept request.now.client.0) ≡ (self.new.tree, reply)) }
        ensures config { self.new.config ≡ self.old.config }
        ensures err { OnErr result (self.new ≡ self.old) }
    {
        match self.earlier_reply(alloc, request)? {
            Some(reply) => Ok(reply),
            None => self.perform(alloc, request, settled),
        }
    }

    /// What a request does to the tree, and its reply. A refusal or a query leaves the tree as it was.
    ///
    /// A call that settles a file's length is given it, in bytes, and no other call is.
    #[tactic(auto, unfolding(crate::specs::Calls::apply))]
    pub fn apply(
        &mut self,
        alloc: Global,
        request: &Request,
        settled: Option<u64>,
    ) -> Result<Reply, Memory>
        requires server { request.now.server < SERVERS }
        requires told { IsTrue (is_told request.now.call) }
        requires given { is_some settled ≡ settles request.now.call }
        requires bounded { IfSome settled (λ length. length ≤ FILE_BYTES) }
        ensures ok { IfOk result
            (λ reply. apply self.old.config self.old.tree request.now (unwrap_or settled 0)
            ≡ (self.new.tree, reply)) }
        ensures config { self.new.config ≡ self.old.config }
        ensures err { OnErr result (self.new ≡ self.old) }
    {
        if is_query(&request.call) {
            self.answer(alloc, request)
        } else {
            self.update(alloc, request, settled)
        }
    }
}
