ghost use Rattle.std.specs.Prelude.{◌≡◌, ◌≢◌, ◌<◌, IsSome, None, IfOk, OnOk, OnErr};
ghost use Rattle.std.specs.FinMap.{get};
ghost use Rattle.fs_base.specs.declared.reply.Reply.TheVariants.{Done, File, Hint, Made};
ghost use Rattle.tree_model.specs.Calls.{keeps};
ghost use Rattle.tree_model.specs.Making.{added, altered, detached, earlier_reply, extended, fared, linked, opened, replaced};
ghost use Rattle.tree_model.specs.Moving.{moved};

use crate::kept::{Doom, KeptReply};
use crate::plan::{Child, Fate, Shift};
use crate::setattr::{change_node, hint_node, touch_node};
use crate::tree::Tree;
use fs_base::limits::LAST_NUMBER;
use fs_base::{Changes, Code, FileInfo, InodeId, Memory, Name, Reply, Request, copy_file};
use std::alloc::Global;

impl Tree {
    /// The reply to a number that came before, or is older than one that did.
    pub(crate) fn earlier_reply(
        &self,
        alloc: Global,
        request: &Request,
    ) -> Result<Option<Reply>, Memory>
        ensures { IfOk result
            (λ reply. reply ≡ earlier_reply request.now.number (get self.now.tree.kept request.now.client.0)) }
    {
        let Some(kept) = self.kept.get(request.client.0) else {
            return Ok(None);
        };
        if kept.number == request.number {
            return Ok(Some(kept.reply.try_clone(alloc)?));
        }
        if request.number < kept.number {
            return Ok(Some(Reply::Refused(Code::Stale(kept.number))));
        }
        Ok(None)
    }

    /// Puts a child in, all or nothing.
    #[tactic(auto, using(crate::proofs::Undo::there_by_id, crate::proofs::Undo::undone_by_id))]
    fn add(&mut self, server: u8, child: Child) -> Result<(), Memory>
        requires { child.number < LAST_NUMBER }
        ensures ok { OnOk result (self.new.tree ≡ added self.old.tree server child) }
        ensures config { self.new.config ≡ self.old.config }
        ensures err { OnErr result (self.new ≡ self.old) }
    {
        let Child {
            key,
            number,
            id,
            node,
        } = child;
        let server = u64::from(server);
        let next = self.next.insert(server, number + 1)?;
        let was = match self.nodes.insert(id.get(), node) {
            Ok(before) => before,
            Err(e) => {
                self.next.put_back(server, next);
                return Err(e);
            }
        };
        match self.entries.insert(key, id) {
            Ok(_) => Ok(()),
            Err(e) => {
                self.nodes.put_back(id.get(), was);
                self.next.put_back(server, next);
                Err(e)
            }
        }
    }

    /// Puts a child and the reply in, all or nothing.
    #[tactic(auto, using(crate::proofs::Undo::there_by_id, crate::proofs::Undo::undone_by_id))]
    pub(crate) fn add_kept(&mut self, request: &Request, child: Child) -> Result<Reply, Memory>
        requires { child.number < LAST_NUMBER }
        ensures ok { OnOk result
            (self.new.tree ≡ keeps (added self.old.tree request.now.server child) request.now (Made child.id)) }
        ensures reply { IfOk result (λ reply. reply ≡ Made child.id) }
        ensures config { self.new.config ≡ self.old.config }
        ensures err { OnErr result (self.new ≡ self.old) }
    {
        let id = child.id;
        let kept = KeptReply {
            number: request.number,
            reply: Reply::Made(id),
        };
        let before = self.kept.insert(request.client.0, kept)?;
        match self.add(request.server, child) {
            Ok(()) => Ok(Reply::Made(id)),
            Err(e) => {
                self.kept.put_back(request.client.0, before);
                Err(e)
            }
        }
    }

    /// Changes the node of an id and puts the reply in, all or nothing.
    pub(crate) fn change_kept(
        &mut self,
        request: &Request,
        id: u64,
        changes: Changes,
    ) -> Result<Reply, Memory>
        requires { IsSome (get self.old.tree.nodes id) }
        ensures ok { OnOk result
            (self.new.tree ≡ keeps (altered self.old.tree id changes request.now.stamp) request.now Done) }
        ensures reply { IfOk result (λ reply. reply ≡ Done) }
        ensures config { self.new.config ≡ self.old.config }
        ensures err { OnErr result (self.new ≡ self.old) }
    {
        let kept = KeptReply {
            number: request.number,
            reply: Reply::Done,
        };
        self.kept.insert(request.client.0, kept)?;
        change_node(&mut self.nodes, id, changes, request.stamp);
        Ok(Reply::Done)
    }

    /// Keeps the reply `Done`, and gives back what was kept before.
    fn keep_done(&mut self, request: &Request) -> Result<Option<KeptReply>, Memory>
        ensures before { IfOk result (λ before. before ≡ get self.old.tree.kept request.now.client.0) }
        ensures ok { OnOk result (self.new.tree ≡ keeps self.old.tree request.now Done) }
        ensures config { self.new.config ≡ self.old.config }
        ensures err { OnErr result (self.new ≡ self.old) }
    {
        let kept = KeptReply {
            number: request.number,
            reply: Reply::Done,
        };
        self.kept.insert(request.client.0, kept)
    }

    /// Adds an entry of a node and puts the reply in, all or nothing.
    #[tactic(auto, using(crate::proofs::Undo::there_by_id, crate::proofs::Undo::undone_by_id))]
    pub(crate) fn join_kept(
        &mut self,
        request: &Request,
        key: (u64, Name),
        id: InodeId,
    ) -> Result<Reply, Memory>
        requires { IsSome (get self.old.tree.nodes id) }
        ensures ok { OnOk result
            (self.new.tree ≡ keeps (linked self.old.tree request.now.stamp key id) request.now Done) }
        ensures reply { IfOk result (λ reply. reply ≡ Done) }
        ensures config { self.new.config ≡ self.old.config }
        ensures err { OnErr result (self.new ≡ self.old) }
    {
        let before = self.keep_done(request)?;
        match self.entries.insert(key, id) {
            Ok(_) => {
                touch_node(&mut self.nodes, id.get(), request.stamp);
                Ok(Reply::Done)
            }
            Err(e) => {
                self.kept.put_back(request.client.0, before);
                Err(e)
            }
        }
    }

    /// What becomes of a node that loses an entry, all or nothing. Only for a file that waits it takes
    /// memory.
    fn fare(&mut self, id: InodeId, fate: Fate, stamp: u64) -> Result<(), Memory>
        requires { IsSome (get self.old.tree.nodes id) }
        ensures ok { OnOk result (self.new.tree ≡ fared self.old.tree stamp id fate) }
        ensures config { self.new.config ≡ self.old.config }
        ensures err { OnErr result (self.new ≡ self.old) }
    {
        match fate {
            Fate::Stays => {
                touch_node(&mut self.nodes, id.get(), stamp);
                Ok(())
            }
            Fate::Waits => {
                self.doomed.insert(id.get(), Doom::Waiting)?;
                touch_node(&mut self.nodes, id.get(), stamp);
                Ok(())
            }
            Fate::Goes => {
                self.nodes.remove(id.get());
                Ok(())
            }
        }
    }

    /// Takes an entry away and puts the reply in, all or nothing.
    #[tactic(auto, using(crate::proofs::Undo::there_by_id, crate::proofs::Undo::undone_by_id))]
    pub(crate) fn detach_kept(
        &mut self,
        request: &Request,
        key: (u64, Name),
        id: InodeId,
        fate: Fate,
    ) -> Result<Reply, Memory>
        requires { IsSome (get self.old.tree.nodes id) }
        ensures ok { OnOk result
            (self.new.tree ≡ keeps (detached self.old.tree request.now.stamp key id fate) request.now Done) }
        ensures reply { IfOk result (λ reply. reply ≡ Done) }
        ensures config { self.new.config ≡ self.old.config }
        ensures err { OnErr result (self.new ≡ self.old) }
    {
        let before = self.keep_done(request)?;
        match self.fare(id, fate, request.stamp) {
            Ok(()) => {
                self.entries.remove(&key);
                Ok(Reply::Done)
            }
            Err(e) => {
                self.kept.put_back(request.client.0, before);
                Err(e)
            }
        }
    }

    /// Keeps the reply `Done` and nothing else.
    pub(crate) fn stay_kept(&mut self, request: &Request) -> Result<Reply, Memory>
        ensures ok { OnOk result (self.new.tree ≡ keeps self.old.tree request.now Done) }
        ensures reply { IfOk result (λ reply. reply ≡ Done) }
        ensures config { self.new.config ≡ self.old.config }
        ensures err { OnErr result (self.new ≡ self.old) }
    {
        self.keep_done(request)?;
        Ok(Reply::Done)
    }

    /// Moves an entry, all or nothing.
    fn shift(&mut self, shift: Shift) -> Result<(), Memory>
        requires { shift.from ≢ shift.to }
        ensures ok { OnOk result (self.new.tree ≡ moved self.old.tree shift.from shift.to shift.id) }
        ensures config { self.new.config ≡ self.old.config }
        ensures err { OnErr result (self.new ≡ self.old) }
        ensures absent { OnErr result (get self.old.tree.entries shift.to ≡ None) }
    {
        let Shift { from, to, id } = shift;
        self.entries.insert(to, id)?;
        self.entries.remove(&from);
        Ok(())
    }

    /// Moves an entry and puts the reply in, all or nothing.
    #[tactic(auto, using(crate::proofs::Undo::there_by_id, crate::proofs::Undo::undone_by_id))]
    pub(crate) fn move_kept(&mut self, request: &Request, shift: Shift) -> Result<Reply, Memory>
        requires { shift.from ≢ shift.to }
        ensures ok { OnOk result
            (self.new.tree ≡ keeps (moved self.old.tree shift.from shift.to shift.id) request.now Done) }
        ensures reply { IfOk result (λ reply. reply ≡ Done) }
        ensures config { self.new.config ≡ self.old.config }
        ensures err { OnErr result (self.new ≡ self.old) }
    {
        let before = self.keep_done(request)?;
        match self.shift(shift) {
            Ok(()) => Ok(Reply::Done),
            Err(e) => {
                self.kept.put_back(request.client.0, before);
                Err(e)
            }
        }
    }

    /// Moves an entry to where another stood, whose node loses it, and puts the reply in, all or nothing.
    #[tactic(auto, using(crate::proofs::Undo::there_by_id, crate::proofs::Undo::undone_by_id))]
    pub(crate) fn replace_kept(
        &mut self,
        request: &Request,
        shift: Shift,
        old: InodeId,
        fate: Fate,
    ) -> Result<Reply, Memory>
        requires apart { shift.from ≢ shift.to }
        requires taken { IsSome (get self.old.tree.entries shift.to) }
        requires there { IsSome (get self.old.tree.nodes old) }
        ensures ok { OnOk result
            (self.new.tree ≡ keeps (replaced self.old.tree request.now.stamp shift old fate) request.now Done) }
        ensures reply { IfOk result (λ reply. reply ≡ Done) }
        ensures config { self.new.config ≡ self.old.config }
        ensures err { OnErr result (self.new ≡ self.old) }
    {
        let before = self.keep_done(request)?;
        match self.fare(old, fate, request.stamp) {
            Ok(()) => {
                if self.shift(shift).is_err() {
                    unreachable!()
                }
                Ok(Reply::Done)
            }
            Err(e) => {
                self.kept.put_back(request.client.0, before);
                Err(e)
            }
        }
    }

    /// Adds a session and puts the reply in, all or nothing.
    #[tactic(auto, using(crate::proofs::Undo::there_by_id, crate::proofs::Undo::undone_by_id))]
    pub(crate) fn open_kept(
        &mut self,
        request: &Request,
        key: (u64, (u128, u64)),
        file: FileInfo,
    ) -> Result<Reply, Memory>
        ensures ok { OnOk result (self.new.tree ≡ keeps (opened self.old.tree key) request.now (File file)) }
        ensures reply { IfOk result (λ reply. reply ≡ File file) }
        ensures config { self.new.config ≡ self.old.config }
        ensures err { OnErr result (self.new ≡ self.old) }
    {
        let kept = KeptReply {
            number: request.number,
            reply: Reply::File(copy_file(&file)),
        };
        let before = self.kept.insert(request.client.0, kept)?;
        match self.writers.insert(key, ()) {
            Ok(_) => Ok(Reply::File(file)),
            Err(e) => {
                self.kept.put_back(request.client.0, before);
                Err(e)
            }
        }
    }

    /// Gives a file another hint and puts the reply in, all or nothing.
    pub(crate) fn extend_kept(
        &mut self,
        request: &Request,
        id: InodeId,
        hint: u16,
    ) -> Result<Reply, Memory>
        requires { IsSome (get self.old.tree.nodes id) }
        ensures ok { OnOk result
            (self.new.tree ≡ keeps (extended self.old.tree id hint) request.now (Hint hint)) }
        ensures reply { IfOk result (λ reply. reply ≡ Hint hint) }
        ensures config { self.new.config ≡ self.old.config }
        ensures err { OnErr result (self.new ≡ self.old) }
    {
        let kept = KeptReply {
            number: request.number,
            reply: Reply::Hint(hint),
        };
        self.kept.insert(request.client.0, kept)?;
        hint_node(&mut self.nodes, id.get(), hint);
        Ok(Reply::Hint(hint))
    }
}
