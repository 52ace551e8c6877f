//! A task, told ask by ask.

ghost use Rattle.std.specs.Prelude.{◌≡◌, IfOk, MatchOption};
ghost use Rattle.fs_base.specs.declared.reply.Reply.{Reply};
ghost use Rattle.txn_task.specs.declared.messages.Ask.TheVariants as asks;
ghost use Rattle.meta_task.specs.Task.{MayTake};
ghost use Rattle.meta_task.specs.declared.waiting.Waiting.TheVariants as waits;
ghost use Rattle.task_runs.specs.Awaiting.{TaskAwaits};

use crate::answers::{committed, got, rows_in};
use crate::requests::task_of;
use crate::telling::{tell_ask, tell_outcome};
use anyhow::{Context, Result, bail};
use fs_base::{Config, Memory, Text};
use key_schema::Key;
use meta_task::MetaTask;
use std::alloc::Global;
use test_support::{Rows, split};
use txn_task::{Answer, Ask};

#[tactic(auto, using(crate::proofs::AwaitLaws::awaits))]
fn next(task: &mut MetaTask, answer: Answer) -> Result<Ask, Memory>
    requires { MayTake task.old.waiting answer }
    ensures { IfOk result (λ ask. TaskAwaits task.new.waiting ask) }
{
    let ask = task.next(answer)?;
    Ok(ask)
}

fn begin(task: &mut MetaTask) -> Result<Ask, Memory>
    requires { task.old.waiting ≡ waits.Beginning }
    ensures { IfOk result (λ ask. TaskAwaits task.new.waiting ask) }
{
    next(task, Answer::Begun(5))
}

fn look(alloc: Global, rows: &Rows, task: &mut MetaTask, key: &Key) -> Result<Ask, Memory>
    requires { task.old.waiting ≡ waits.Reading (asks.Get key.now) }
    ensures { IfOk result (λ ask. TaskAwaits task.new.waiting ask) }
{
    let answer = got(alloc, rows, key)?;
    next(task, answer)
}

fn list(
    alloc: Global,
    rows: &Rows,
    task: &mut MetaTask,
    lo: &Text,
    hi: &Text,
    limit: u32,
) -> Result<Ask, Memory>
    requires { task.old.waiting ≡ waits.Reading (asks.Range lo.now hi.now limit) }
    ensures { IfOk result (λ ask. TaskAwaits task.new.waiting ask) }
{
    let found = rows_in(alloc, rows, lo, hi, limit)?;
    next(task, Answer::Rows(found))
}

/// The words are what the commit is answered.
fn commit(alloc: Global, words: Option<&str>, task: &mut MetaTask) -> Result<Ask>
    requires { (reply : Reply) × (task.old.waiting ≡ waits.Committing reply) }
    ensures { IfOk result (λ ask. TaskAwaits task.new.waiting ask) }
{
    let answer = committed(alloc, words.context("no answer is left to the commit")?)?;
    let ask = next(task, answer)?;
    Ok(ask)
}

/// The task's next ask, if it hasn't ended. The words are what its commit is answered.
fn turn(
    alloc: Global,
    rows: &Rows,
    words: Option<&str>,
    task: &mut MetaTask,
    ask: Ask,
) -> Result<Option<Ask>>
    requires { TaskAwaits task.old.waiting ask }
    ensures { IfOk result (λ next. MatchOption next (Unit {0}) (λ ask. TaskAwaits task.new.waiting ask)) }
{
    match ask {
        Ask::Begin => Ok(Some(begin(task)?)),
        Ask::Get(key) => Ok(Some(look(alloc, rows, task, &key)?)),
        Ask::Range { lo, hi, limit } => {
            let ask = list(alloc, rows, task, &lo, &hi, limit)?;
            Ok(Some(ask))
        }
        Ask::Commit(_) => Ok(Some(commit(alloc, words, task)?)),
        _ => Ok(None),
    }
}

fn is_commit(ask: &Ask) -> bool {
    matches!(ask, Ask::Commit(_))
}

/// Tells the task's asks up to its end, and its outcome. Each commit takes the first of the answers that are left.
fn run(
    alloc: Global,
    rows: &Rows,
    mut task: MetaTask,
    answers: &[&str],
    out: &mut String,
) -> Result<()>
    requires { task.waiting ≡ waits.Fresh }
{
    let mut left = answers.iter();
    let mut ask = next(&mut task, Answer::Start)?;
    for _turn in 0..1000u16 {
        tell_ask(alloc, &ask, out)?;
        let words = if is_commit(&ask) {
            left.next().copied()
        } else {
            None
        };
        match turn(alloc, rows, words, &mut task, ask)? {
            Some(more) => ask = more,
            None => return tell_outcome(alloc, task.outcome(), left.len(), out),
        }
    }
    bail!("it still asks")
}

/// Tells a request, with what its commits are answered behind semicolons.
pub fn tell(
    alloc: Global,
    config: &Config,
    rows: &Rows,
    words: &str,
    out: &mut String,
) -> Result<()> {
    let parts: Vec<&str> = words.split(" ; ").collect(alloc)?;
    let [request, answers @ ..] = parts.as_slice() else {
        bail!("no request");
    };
    let words = split(alloc, request)?;
    let task = task_of(alloc, config, words.as_slice())?;
    run(alloc, rows, task, answers, out)
}
