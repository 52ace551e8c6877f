ghost use Rattle.std.specs.Prelude.{◌≡◌, IfOk, OnOk};
ghost use Rattle.conflict_sets.specs.declared.sets.ReadSet.{ReadSet};
ghost use Rattle.tree_model.specs.Tree.{Tree};
ghost use Rattle.path_walk.specs.Footprint.{trip_from};
ghost use Rattle.path_walk.specs.Stages.{trip_at, IsFaultless, IsReached, IsSameKind};
ghost use Rattle.path_walk.specs.Walks.{KeepsTrip, IsWalkStep, trip_of};
ghost use Rattle.path_walk.specs.declared.walk.Walk.{Walk};

use crate::walk::{Walk, WalkError, WalkStep};
use fs_base::{Code, Memory, Place};
use std::alloc::Global;
use tree_model::{WalkEnd, Walked};
use txn_task::{Answer, Ask, Txn};

/// How far a call has come on its way.
#[derive(Debug, Drop)]
pub enum Stage {
    /// The words of the call are refused.
    Refused(Code),
    /// Under way, or where the walk ends.
    Walking(Walk),
}

/// Where a call has come.
#[derive(Debug, Drop)]
pub enum Reached {
    /// A key has to be read first.
    Ask(Ask),
    /// The end of its walk.
    End(Walked),
}

/// What was answered stands in the transaction already, and steps look there alone: a key that was read
/// before, by the walk or for the kept reply, needs no case of its own.
pub fn forget(_answer: Answer) {}

/// What a walk's step says.
fn reached_by(step: WalkStep) -> Reached
    ensures { (walk : Walk) (reads : ReadSet) → IsWalkStep step walk reads
        → IsReached result (trip_of walk) reads }
{
    match step {
        WalkStep::Ask(ask) => Reached::Ask(ask),
        WalkStep::At(id, kind) => Reached::End(Walked::At(id, kind)),
        WalkStep::Parent(id, name) => Reached::End(Walked::AtParent(id, name)),
        WalkStep::NoName(id) => Reached::End(Walked::NoName(id)),
        WalkStep::Refused(code) => Reached::End(Walked::Stopped(code)),
    }
}

impl Stage {
    /// The walk of a call's place, where neither its text nor the call's other words are refused.
    ///
    /// The place's fault comes first, then the given one.
    pub fn new(
        alloc: Global,
        place: &Place,
        end: WalkEnd,
        fault: Option<Code>,
    ) -> Result<Stage, Memory>
        ensures trip { IfOk result (λ stage. (T : Tree) → trip_at stage T ≡ trip_from place.now end fault T) }
        ensures clear { IfOk result (IsFaultless fault) }
    {
        let walk = match Walk::new(alloc, place, end) {
            Ok(walk) => walk,
            Err(WalkError::BadPath) => return Ok(Stage::Refused(Code::BadPath)),
            Err(WalkError::BadName) => return Ok(Stage::Refused(Code::BadName)),
            Err(WalkError::Memory) => return Err(Memory),
        };
        match fault {
            Some(code) => Ok(Stage::Refused(code)),
            None => Ok(Stage::Walking(walk)),
        }
    }

    /// On with what has been read. Where nothing more was read it gives the same answer again.
    pub fn next(&mut self, alloc: Global, txn: &Txn) -> Result<Reached, Memory>
        ensures keeps { OnOk result (KeepsTrip (trip_at self.old) (trip_at self.new) txn.now.reads) }
        ensures same { OnOk result (IsSameKind self.old self.new) }
        ensures reached { IfOk result (λ r. IsReached r (trip_at self.new) txn.now.reads) }
    {
        match self {
            Stage::Refused(code) => Ok(Reached::End(Walked::Stopped(*code))),
            Stage::Walking(walk) => {
                let step = walk.next(alloc, txn)?;
                Ok(reached_by(step))
            }
        }
    }
}
