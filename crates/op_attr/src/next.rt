ghost use Rattle.std.specs.Prelude.{◌≡◌, ◌<◌, ◌^◌, [], true, false, IfOk, OnOk, OnErr};
ghost use Rattle.fs_base.specs.declared.kind.Kind.{Kind};
ghost use Rattle.fs_base.specs.declared.kind.Kind.TheVariants as kinds;
ghost use Rattle.row_tree.specs.Told.{attributes_at, length_at};
ghost use Rattle.row_tree.specs.TreeOf.{node_part};
ghost use Rattle.tree_model.specs.declared.walk.Walked.TheVariants.{At};
ghost use Rattle.tree_model.specs.Effects.{Leaves};
ghost use Rattle.tree_model.specs.Finding.{target_of};
ghost use Rattle.path_walk.specs.Owed.{HasStepped};
ghost use Rattle.op_attr.specs.declared.task.AttrCall.TheVariants as attr;
ghost use Rattle.op_attr.specs.Attr.{IsAttrReady, MaySet, attr_areas, attr_effect};
ghost use Rattle.op_attr.specs.Ending.{IsAttrEndStep};

use crate::setattr::setattr;
use crate::task::{AttrCall, AttrTask};
use fs_base::{Attributes, Code, InodeId, Kind, Memory, Reply};
use inode_record::{InodePart, InodeRow};
use path_walk::{Reached, forget};
use std::alloc::Global;
use tree_model::Walked;
use txn_task::{Answer, Ask, OpStep, Txn, Want, WantList, kind_of, want_inode, want_list};

fn length_of(part: &InodePart) -> u64
    ensures { result ≡ length_at part.now }
{
    match part {
        InodePart::Dir { .. } => 0,
        InodePart::File { length, .. } => *length,
        InodePart::Link { target } => target.len() as u64,
    }
}

fn links_of(row: &InodeRow) -> u32
    ensures value { result ≡ row.now.links }
    ensures bound { row.now.links < 2 ^ 32 }
{
    row.links
}

fn attributes(id: InodeId, row: &InodeRow) -> Attributes
    ensures told { result ≡ attributes_at id row.now }
    ensures links { row.now.links < 2 ^ 32 }
{
    Attributes {
        inode: id,
        kind: kind_of(&row.part),
        mode: row.mode,
        owner: row.owner,
        group: row.group,
        links: links_of(row),
        atime: row.atime,
        mtime: row.mtime,
        ctime: row.ctime,
        length: length_of(&row.part),
    }
}

fn stat(alloc: Global, txn: &Txn, id: InodeId) -> Result<OpStep, Memory>
    requires { txn.now.writes ≡ [] }
    ensures { IfOk result (λ s. (kind : Kind) → IsAttrEndStep attr.Stat (At id kind) txn.now txn.now s) }
{
    match want_inode(alloc, txn, id)? {
        Want::Ask(key) => Ok(OpStep::Ask(Ask::Get(key))),
        Want::Absent => Ok(OpStep::Reply(Reply::Refused(Code::NotFound))),
        Want::There(row) => Ok(OpStep::Reply(Reply::Attr(attributes(id, &row)))),
    }
}

/// The entries of a directory whose pages were read, or the next page.
fn list(alloc: Global, txn: &Txn, dir: InodeId) -> Result<OpStep, Memory>
    requires { txn.now.writes ≡ [] }
    ensures { IfOk result (IsAttrEndStep attr.List (At dir kinds.Dir) txn.now txn.now) }
{
    match want_list(alloc, txn, dir)? {
        WantList::Ask(ask) => Ok(OpStep::Ask(ask)),
        WantList::All(names) => Ok(OpStep::Reply(Reply::Names(names))),
    }
}

fn list_at(alloc: Global, txn: &Txn, id: InodeId, kind: Kind) -> Result<OpStep, Memory>
    requires { txn.now.writes ≡ [] }
    ensures { IfOk result (IsAttrEndStep attr.List (At id kind) txn.now txn.now) }
{
    match kind {
        Kind::Dir => list(alloc, txn, id),
        Kind::File => Ok(OpStep::Reply(Reply::Refused(Code::NotDir))),
        Kind::Link => Ok(OpStep::Reply(Reply::Refused(Code::NotDir))),
    }
}

fn target_of(part: InodePart) -> Reply
    ensures { target_of (node_part part) ≡ Leaves result }
{
    match part {
        InodePart::Dir { .. } => Reply::Refused(Code::NotLink),
        InodePart::File { .. } => Reply::Refused(Code::NotLink),
        InodePart::Link { target } => Reply::Target(target),
    }
}

fn target(alloc: Global, txn: &Txn, id: InodeId) -> Result<OpStep, Memory>
    requires { txn.now.writes ≡ [] }
    ensures { IfOk result (IsAttrEndStep attr.Readlink (At id kinds.Link) txn.now txn.now) }
{
    match want_inode(alloc, txn, id)? {
        Want::Ask(key) => Ok(OpStep::Ask(Ask::Get(key))),
        Want::Absent => Ok(OpStep::Reply(Reply::Refused(Code::NotFound))),
        Want::There(row) => Ok(OpStep::Reply(target_of(row.part))),
    }
}

/// The entry tells whether it is a link, so no other inode is asked for.
fn readlink(alloc: Global, txn: &Txn, id: InodeId, kind: Kind) -> Result<OpStep, Memory>
    requires { txn.now.writes ≡ [] }
    ensures { IfOk result (IsAttrEndStep attr.Readlink (At id kind) txn.now txn.now) }
{
    match kind {
        Kind::Dir => Ok(OpStep::Reply(Reply::Refused(Code::NotLink))),
        Kind::File => Ok(OpStep::Reply(Reply::Refused(Code::NotLink))),
        Kind::Link => target(alloc, txn, id),
    }
}

/// What the call does at a node.
fn at_node(
    call: AttrCall,
    alloc: Global,
    txn: &mut Txn,
    id: InodeId,
    kind: Kind,
) -> Result<OpStep, Memory>
    requires ready { MaySet call }
    requires writes { txn.old.writes ≡ [] }
    ensures { IfOk result (IsAttrEndStep call (At id kind) txn.old txn.new) }
{
    match call {
        AttrCall::Lookup => Ok(OpStep::Reply(Reply::Found(id, kind))),
        AttrCall::Stat => stat(alloc, txn, id),
        AttrCall::List => list_at(alloc, txn, id, kind),
        AttrCall::Readlink => readlink(alloc, txn, id, kind),
        AttrCall::Setattr { stamp, changes } => {
            let step = setattr(alloc, txn, id, changes, stamp)?;
            Ok(step)
        }
    }
}

/// What the call does where its walk ends.
fn at_end(call: AttrCall, alloc: Global, txn: &mut Txn, walked: &Walked) -> Result<OpStep, Memory>
    requires ready { MaySet call }
    requires writes { txn.old.writes ≡ [] }
    ensures { IfOk result (IsAttrEndStep call walked.now txn.old txn.new) }
{
    match walked {
        Walked::At(id, kind) => at_node(call, alloc, txn, *id, *kind),
        Walked::AtParent(_, _) => Ok(OpStep::Reply(Reply::Refused(Code::NotDir))),
        Walked::NoName(_) => Ok(OpStep::Reply(Reply::Refused(Code::NotDir))),
        Walked::Stopped(code) => Ok(OpStep::Reply(Reply::Refused(*code))),
    }
}

impl AttrTask {
    /// On with what has been read. The answer to the last ask stands among the reads.
    ///
    /// Once memory ran out the answer is want of memory from then on.
    pub fn next(&mut self, alloc: Global, answer: Answer, txn: &mut Txn) -> Result<OpStep, Memory>
        requires ready { IsAttrReady self.old }
        requires writes { txn.old.writes ≡ [] }
        ensures config { OnOk result (self.new.config ≡ self.old.config) }
        ensures ready { OnOk result (IsAttrReady self.new) }
        ensures step { IfOk result
            (HasStepped self.old.config (attr_areas self.old) (attr_areas self.new) (attr_effect self.old)
            (attr_effect self.new) txn.old txn.new) }
        ensures alive { OnOk result ((self.old.failed ≡ false) × (self.new.failed ≡ false)) }
        ensures err { OnErr result (self.new.failed ≡ true) }
    {
        forget(answer);
        if self.failed {
            return Err(Memory);
        }
        let step = self.go_on(alloc, txn);
        self.failed = step.is_err();
        step
    }

    /// The walk, and what the call does where it ends.
    fn go_on(&mut self, alloc: Global, txn: &mut Txn) -> Result<OpStep, Memory>
        requires ready { IsAttrReady self.old }
        requires writes { txn.old.writes ≡ [] }
        ensures config { OnOk result (self.new.config ≡ self.old.config) }
        ensures ready { OnOk result (IsAttrReady self.new) }
        ensures step { IfOk result
            (HasStepped self.old.config (attr_areas self.old) (attr_areas self.new) (attr_effect self.old)
            (attr_effect self.new) txn.old txn.new) }
    {
        match self.stage.next(alloc, txn)? {
            Reached::Ask(ask) => Ok(OpStep::Ask(ask)),
            Reached::End(walked) => {
                let step = at_end(self.call, alloc, txn, &walked)?;
                Ok(step)
            }
        }
    }
}
