ghost use Rattle.std.specs.Prelude.{◌≡◌, ◌≢◌, ◌⊎◌, [], false, IfOk, OnOk, OnErr};
ghost use Rattle.key_schema.specs.Keys.{spelled_key};
ghost use Rattle.key_schema.specs.declared.key.Key.TheVariants as keys;
ghost use Rattle.tree_model.specs.Calls.{is_query as asks_only};
ghost use Rattle.txn_task.specs.Transactions.{with_key};
ghost use Rattle.txn_task.specs.declared.messages.Answer.TheVariants as answers;
ghost use Rattle.meta_task.specs.State.{view_of, IsState, IsFailedOrState, IsTaskGoing, IsAnswerNoted};
ghost use Rattle.meta_task.specs.Steps.{GoesTo, Repeats, IsRowGot, IsReadPending, IsCommitting};
ghost use Rattle.meta_task.specs.Task.{Asks, FitsTask, MayTake, learnt, no_reads};
ghost use Rattle.meta_task.specs.declared.waiting.Waiting.TheVariants as waits;

use crate::kept::{Kept, kept_of};
use crate::state::{State, set_waiting, take_op};
use crate::waiting::Waiting;
use conflict_sets::Got;
use fs_base::{Code, Memory, Reply};
use key_schema::Key;
use std::mem;
use tree_model::is_query;
use txn_task::{Answer, Ask};

fn pending(waiting: Waiting) -> Ask
    requires { IsReadPending waiting }
    ensures { waiting ≡ waits.Reading result }
{
    match waiting {
        Waiting::Reading(ask) => ask,
        _ => unreachable!(),
    }
}

fn committing(waiting: Waiting) -> Reply
    requires { IsCommitting waiting }
    ensures { waiting ≡ waits.Committing result }
{
    match waiting {
        Waiting::Committing(reply) => reply,
        _ => unreachable!(),
    }
}

fn got_of(answer: Answer) -> Got
    requires { IsRowGot answer }
    ensures { answer ≡ answers.Got result }
{
    match answer {
        Answer::Got(got) => got,
        _ => unreachable!(),
    }
}

impl State {
    fn take_start(&mut self) -> Ask
        requires fits { FitsTask self.old.waiting answers.Start }
        requires state { IsState self.old }
        ensures state { IsState self.new }
        ensures asks { Asks (view_of self.old) answers.Start (view_of self.new) result }
    {
        set_waiting(&mut self.waiting, Waiting::Beginning);
        Ask::Begin
    }

    /// A new attempt, in which nothing was read yet.
    fn restart(&mut self, version: u64)
        requires fits { FitsTask self.old.waiting (answers.Begun version) }
        requires state { IsState self.old }
        ensures going { IsTaskGoing self.new }
        ensures unwritten { self.new.txn.writes ≡ [] }
        ensures reads { self.new.txn.reads ≡ no_reads }
        ensures known { view_of self.new
            ≡ record (learnt (view_of self.old) (answers.Begun version)) { waiting = waits.Ended } }
    {
        set_waiting(&mut self.waiting, Waiting::Ended);
        self.txn.begin(self.alloc, version);
        self.begun = true;
    }

    /// An update looks at its client's kept reply first.
    fn ask_kept(&mut self) -> Result<Ask, Memory>
        requires going { IsTaskGoing self.old }
        requires unwritten { self.old.txn.writes ≡ [] }
        requires reads { self.old.txn.reads ≡ no_reads }
        requires update { asks_only self.old.request.call ≡ false }
        ensures state { OnOk result (IsState self.new) }
        ensures goes { IfOk result (λ next. GoesTo (view_of self.old) (view_of self.new) next) }
    {
        let key = Key::Idem(self.request.client);
        let ask = self.look(None, Ask::Get(key))?;
        Ok(ask)
    }

    fn take_begun(&mut self, version: u64) -> Result<Ask, Memory>
        requires fits { FitsTask self.old.waiting (answers.Begun version) }
        requires state { IsState self.old }
        ensures state { OnOk result (IsState self.new) }
        ensures asks { IfOk result
            (λ ask. Asks (view_of self.old) (answers.Begun version) (view_of self.new) ask) }
    {
        self.restart(version);
        if is_query(&self.request.call) {
            let ask = self.begin()?;
            return Ok(ask);
        }
        let ask = self.ask_kept()?;
        Ok(ask)
    }

    /// The answer comes among the reads.
    fn note(&mut self, answer: &Answer) -> Result<(), Memory>
        requires fits { FitsTask self.old.waiting answer.now }
        requires pending { IsReadPending self.old.waiting }
        requires state { IsState self.old }
        ensures going { OnOk result (IsTaskGoing self.new) }
        ensures unwritten { OnOk result (self.new.txn.writes ≡ []) }
        ensures known { OnOk result
            (view_of self.new ≡ record (learnt (view_of self.old) answer.now) { waiting = waits.Ended }) }
        ensures noted { OnOk result (IsAnswerNoted self.new.op self.old self.new answer.now) }
    {
        let waiting = mem::replace(&mut self.waiting, Waiting::Ended);
        let ask = pending(waiting);
        self.txn.note(self.alloc, &ask, answer)?;
        Ok(())
    }

    /// An update goes on where its client's kept reply is earlier; else that decides.
    fn take_kept(&mut self, got: Got) -> Result<Ask, Memory>
        requires going { IsTaskGoing self.old }
        requires unwritten { self.old.txn.writes ≡ [] }
        requires update { asks_only self.old.request.call ≡ false }
        requires reads { self.old.txn.reads
            ≡ with_key no_reads (spelled_key (keys.Idem self.old.request.client)) got.value }
        ensures state { OnOk result (IsState self.new) }
        ensures goes { IfOk result
            (λ next. GoesTo (view_of self.old) (view_of self.new) next
            ⊎ Repeats (view_of self.old) got (view_of self.new) next) }
    {
        let kept = kept_of(self.alloc, &got.value, self.request.number)?;
        match kept {
            Kept::Earlier => {
                let ask = self.begin()?;
                Ok(ask)
            }
            Kept::Same(reply) => {
                let ask = self.end(reply, got.version, true)?;
                Ok(ask)
            }
            Kept::Later(number) => {
                let ask = self.tell(Reply::Refused(Code::Stale(number)))?;
                Ok(ask)
            }
        }
    }

    fn take_read(&mut self, answer: Answer) -> Result<Ask, Memory>
        requires fits { FitsTask self.old.waiting answer }
        requires pending { IsReadPending self.old.waiting }
        requires state { IsState self.old }
        ensures state { OnOk result (IsState self.new) }
        ensures asks { IfOk result (λ ask. Asks (view_of self.old) answer (view_of self.new) ask) }
    {
        self.note(&answer)?;
        match take_op(&mut self.op) {
            Some(op) => {
                let ask = self.step(op, answer)?;
                Ok(ask)
            }
            None => {
                let got = got_of(answer);
                let ask = self.take_kept(got)?;
                Ok(ask)
            }
        }
    }

    fn take_committed(&mut self, version: u64) -> Result<Ask, Memory>
        requires fits { FitsTask self.old.waiting (answers.Committed version) }
        requires state { IsState self.old }
        ensures state { OnOk result (IsState self.new) }
        ensures asks { IfOk result
            (λ ask. Asks (view_of self.old) (answers.Committed version) (view_of self.new) ask) }
    {
        let waiting = mem::replace(&mut self.waiting, Waiting::Ended);
        let reply = committing(waiting);
        let ask = self.end(reply, version, true)?;
        Ok(ask)
    }

    fn take_conflict(&mut self, version: u64, key: Key) -> Result<Ask, Memory>
        requires fits { FitsTask self.old.waiting (answers.Conflict version key) }
        requires state { IsState self.old }
        ensures state { OnOk result (IsState self.new) }
        ensures asks { IfOk result
            (λ ask. Asks (view_of self.old) (answers.Conflict version key) (view_of self.new) ask) }
    {
        set_waiting(&mut self.waiting, Waiting::Ended);
        let more = self.retry.again(version, key)?;
        self.begun = false;
        if more {
            set_waiting(&mut self.waiting, Waiting::Beginning);
            return Ok(Ask::Begin);
        }
        let snapshot = self.txn.snapshot();
        let ask = self.end(Reply::Refused(Code::Conflict), snapshot, false)?;
        Ok(ask)
    }

    fn take_full(&mut self) -> Result<Ask, Memory>
        requires fits { FitsTask self.old.waiting answers.StoreFull }
        requires state { IsState self.old }
        ensures state { OnOk result (IsState self.new) }
        ensures asks { IfOk result (λ ask. Asks (view_of self.old) answers.StoreFull (view_of self.new) ask) }
    {
        let snapshot = self.txn.snapshot();
        let ask = self.end(Reply::Refused(Code::StoreFull), snapshot, false)?;
        Ok(ask)
    }

    /// The next ask of a task that goes on.
    fn take(&mut self, answer: Answer) -> Result<Ask, Memory>
        requires fits { FitsTask self.old.waiting answer }
        requires state { IsState self.old }
        ensures state { OnOk result (IsState self.new) }
        ensures asks { IfOk result (λ ask. Asks (view_of self.old) answer (view_of self.new) ask) }
    {
        match answer {
            Answer::Start => {
                let ask = self.take_start();
                Ok(ask)
            }
            Answer::Begun(version) => {
                let ask = self.take_begun(version)?;
                Ok(ask)
            }
            Answer::Got(got) => {
                let ask = self.take_read(Answer::Got(got))?;
                Ok(ask)
            }
            Answer::Rows(rows) => {
                let ask = self.take_read(Answer::Rows(rows))?;
                Ok(ask)
            }
            Answer::Committed(version) => {
                let ask = self.take_committed(version)?;
                Ok(ask)
            }
            Answer::Conflict(version, key) => {
                let ask = self.take_conflict(version, key)?;
                Ok(ask)
            }
            Answer::StoreFull => {
                let ask = self.take_full()?;
                Ok(ask)
            }
            Answer::Ended(_) => unreachable!(),
            Answer::Did(_) => unreachable!(),
            Answer::NodeRefused(_) => unreachable!(),
        }
    }

    /// The next ask. Once memory ran out the answer is want of memory from then on.
    pub(crate) fn next(&mut self, answer: Answer) -> Result<Ask, Memory>
        requires may { MayTake self.old.waiting answer }
        requires held { IsFailedOrState self.old }
        ensures held { IsFailedOrState self.new }
        ensures asks { IfOk result (λ ask. Asks (view_of self.old) answer (view_of self.new) ask) }
        ensures alive { OnOk result (self.old.waiting ≢ waits.Failed) }
        ensures err { OnErr result (self.new.waiting ≡ waits.Failed) }
    {
        if self.has_failed() {
            return Err(Memory);
        }
        match self.take(answer) {
            Ok(ask) => Ok(ask),
            Err(Memory) => {
                self.fail();
                Err(Memory)
            }
        }
    }
}
