ghost use Rattle.std.specs.Prelude.{◌≡◌, [], Some, IfOk, OnOk};
ghost use Rattle.path_walk.specs.Owed.{IsOpCommit, IsOpStep, IsNewAsk, MayAsk, LeavesWrites};
ghost use Rattle.path_walk.specs.Footprint.{footprint};
ghost use Rattle.path_walk.specs.Sound.{IsJustifiedReply, IsSoundEntry, kept_value};
ghost use Rattle.conflict_sets.specs.declared.sets.WriteSet.{WriteSet};
ghost use Rattle.key_schema.specs.Keys.{spelled_key};
ghost use Rattle.key_schema.specs.declared.key.Key.TheVariants as keys;
ghost use Rattle.row_tree.specs.Values.{KeptValue, spelled_value};
ghost use Rattle.txn_task.specs.Writes.{set_write};
ghost use Rattle.meta_task.specs.Ops.{op_areas, op_effect};
ghost use Rattle.meta_task.specs.State.{view_of, IsState, IsTaskGoing, IsReading, IsOpUnderWay, IsNewRequest};
ghost use Rattle.meta_task.specs.Steps.{GoesTo};
ghost use Rattle.meta_task.specs.Task.{HasReadAll, ShowsNew};

use crate::op::OpTask;
use crate::state::{State, set_op, set_waiting};
use crate::waiting::Waiting;
use conflict_sets::{ReadSet, WriteSet};
use fs_base::{Items, Memory, Reply, Request};
use key_schema::Key;
use row_records::KeptRow;
use std::alloc::Global;
use tree_model::is_query;
use txn_task::{Answer, Ask, Asked, Entry, OpStep, Txn, copy_look};

fn copy_request(alloc: Global, request: &Request) -> Result<Request, Memory>
    ensures { IfOk result (λ copy. copy ≡ request.now) }
{
    let call = request.call.try_clone(alloc)?;
    Ok(Request {
        server: request.server,
        client: request.client,
        number: request.number,
        stamp: request.stamp,
        call,
    })
}

/// The bytes of a kept reply.
fn kept_bytes(alloc: Global, number: u64, reply: &Reply) -> Result<Vec<u8>, Memory>
    ensures { IfOk result
        (λ bytes. bytes.items ≡ spelled_value (KeptValue (record { number = number; reply = reply.now }))) }
{
    let reply = reply.try_clone(alloc)?;
    let row = KeptRow { number, reply };
    let bytes = row.write(alloc)?;
    Ok(bytes)
}

/// What an entry is made of, beside its reply.
#[derive(Drop)]
struct Parts {
    request: Request,
    /// A copy of the reply.
    kept: Reply,
    reads: ReadSet,
    writes: WriteSet,
}

/// The parts of an attempt's entry; the kept reply is the last write.
fn parts_of(alloc: Global, request: &Request, txn: &mut Txn, reply: &Reply) -> Result<Parts, Memory>
    ensures parts { IfOk result
        (λ parts. (parts.request ≡ request.now) × (parts.kept ≡ reply.now) × (parts.reads ≡ txn.old.reads)) }
    ensures writes { IfOk result
        (λ parts. parts.writes.writes
        ≡ set_write (spelled_key (keys.Idem request.now.client))
        (Some (spelled_value (kept_value request.now reply.now))) txn.old.writes) }
    ensures kept { OnOk result ((txn.new.reads ≡ txn.old.reads) × (txn.new.snapshot ≡ txn.old.snapshot)) }
{
    let bytes = kept_bytes(alloc, request.number, reply)?;
    txn.put(alloc, &Key::Idem(request.client), Some(bytes))?;
    let reads = txn.copy_reads(alloc)?;
    let writes = txn.take_writes(alloc);
    let kept = reply.try_clone(alloc)?;
    let request = copy_request(alloc, request)?;
    Ok(Parts {
        request,
        kept,
        reads,
        writes,
    })
}

impl State {
    /// An ask of rows, which waits for its answer.
    pub(crate) fn look(&mut self, op: Option<OpTask>, ask: Ask) -> Result<Ask, Memory>
        requires going { IsTaskGoing self.old }
        requires unwritten { self.old.txn.writes ≡ [] }
        requires asks { IsReading self.old.config self.old.request self.old.txn.reads ask op }
        requires fresh { IsNewAsk self.old.txn.reads ask }
        requires touched { MayAsk self.old.config (λ T. footprint self.old.config T self.old.request) self.old.txn.reads
            ask }
        ensures state { OnOk result (IsState self.new) }
        ensures goes { IfOk result (λ next. GoesTo (view_of self.old) (view_of self.new) next) }
    {
        let copy = copy_look(self.alloc, &ask)?;
        set_op(&mut self.op, op);
        set_waiting(&mut self.waiting, Waiting::Reading(copy));
        Ok(ask)
    }

    /// The end, with a reply that was told from what was read.
    pub(crate) fn tell(&mut self, reply: Reply) -> Result<Ask, Memory>
        requires going { IsTaskGoing self.old }
        requires told { IsJustifiedReply self.old.config self.old.request self.old.txn.reads reply }
        requires new { ShowsNew (view_of self.old) reply }
        requires all { HasReadAll (view_of self.old) }
        ensures state { OnOk result (IsState self.new) }
        ensures goes { IfOk result (λ next. GoesTo (view_of self.old) (view_of self.new) next) }
    {
        let version = self.txn.snapshot();
        let ask = self.end(reply, version, false)?;
        Ok(ask)
    }

    /// The commit, with the kept reply as its last write.
    fn commit(&mut self, reply: Reply, asked: Items<Asked>) -> Result<Ask, Memory>
        requires going { IsTaskGoing self.old }
        requires sound { (writes : WriteSet)
            → writes.writes
            ≡ set_write (spelled_key (keys.Idem self.old.request.client))
            (Some (spelled_value (kept_value self.old.request reply))) self.old.txn.writes
            → IsSoundEntry self.old.config
            (record {
              request = self.old.request;
              reply = reply;
              asked = asked;
              reads = self.old.txn.reads;
              writes = writes;
            }) }
        requires all { HasReadAll (view_of self.old) }
        ensures state { OnOk result (IsState self.new) }
        ensures goes { IfOk result (λ next. GoesTo (view_of self.old) (view_of self.new) next) }
    {
        let Parts {
            request,
            kept,
            reads,
            writes,
        } = parts_of(self.alloc, &self.request, &mut self.txn, &reply)?;
        set_waiting(&mut self.waiting, Waiting::Committing(kept));
        Ok(Ask::Commit(Entry {
            request,
            reply,
            asked,
            reads,
            writes,
        }))
    }

    /// What the operation's commit comes to. No store has rows that agree with what a query has read that
    /// would
    /// commit; any reply is right then.
    fn commit_of(&mut self, op: OpTask, reply: Reply, asked: Items<Asked>) -> Result<Ask, Memory>
        requires going { IsTaskGoing self.old }
        requires under { IsOpUnderWay self.old.config self.old.request self.old.txn.reads op }
        requires made { IsOpCommit self.old.config (op_effect op) self.old.txn reply asked }
        requires all { HasReadAll (view_of self.old) }
        ensures state { OnOk result (IsState self.new) }
        ensures goes { IfOk result (λ next. GoesTo (view_of self.old) (view_of self.new) next) }
    {
        if is_query(&self.request.call) {
            let ask = self.tell(reply)?;
            return Ok(ask);
        }
        let ask = self.commit(reply, asked)?;
        Ok(ask)
    }

    /// What the operation's step comes to.
    fn settle(&mut self, op: OpTask, step: OpStep) -> Result<Ask, Memory>
        requires going { IsTaskGoing self.old }
        requires under { IsOpUnderWay self.old.config self.old.request self.old.txn.reads op }
        requires step { IsOpStep self.old.config (op_areas op) (op_effect op) self.old.txn step }
        requires unwritten { LeavesWrites step self.old.txn.writes }
        ensures state { OnOk result (IsState self.new) }
        ensures goes { IfOk result (λ next. GoesTo (view_of self.old) (view_of self.new) next) }
    {
        match step {
            OpStep::Ask(ask) => {
                let ask = self.look(Some(op), ask)?;
                Ok(ask)
            }
            OpStep::Reply(reply) => {
                let ask = self.tell(reply)?;
                Ok(ask)
            }
            OpStep::Commit(reply, asked) => {
                let ask = self.commit_of(op, reply, asked)?;
                Ok(ask)
            }
        }
    }

    /// The operation goes on, once the answer is among the reads.
    pub(crate) fn step(&mut self, op: OpTask, answer: Answer) -> Result<Ask, Memory>
        requires going { IsTaskGoing self.old }
        requires unwritten { self.old.txn.writes ≡ [] }
        requires under { IsOpUnderWay self.old.config self.old.request self.old.txn.reads op }
        ensures state { OnOk result (IsState self.new) }
        ensures goes { IfOk result (λ next. GoesTo (view_of self.old) (view_of self.new) next) }
    {
        let mut op = op;
        let step = op.next(self.alloc, answer, &mut self.txn)?;
        let ask = self.settle(op, step)?;
        Ok(ask)
    }

    /// The operation's first step.
    pub(crate) fn begin(&mut self) -> Result<Ask, Memory>
        requires going { IsTaskGoing self.old }
        requires unwritten { self.old.txn.writes ≡ [] }
        requires new { IsNewRequest self.old.request self.old.txn.reads }
        ensures state { OnOk result (IsState self.new) }
        ensures goes { IfOk result (λ next. GoesTo (view_of self.old) (view_of self.new) next) }
    {
        let op = OpTask::new(self.alloc, &self.request, &self.config)?;
        let ask = self.step(op, Answer::Start)?;
        Ok(ask)
    }
}
