//! What a task's asks are answered.

ghost use Rattle.std.specs.Prelude.{IfOk};
ghost use Rattle.fs_base.specs.declared.reply.Reply.{Reply};
ghost use Rattle.txn_task.specs.declared.messages.Ask.TheVariants as asks;
ghost use Rattle.meta_task.specs.Task.{FitsTask};
ghost use Rattle.meta_task.specs.declared.waiting.Waiting.TheVariants as waits;

use anyhow::{Result, bail};
use conflict_sets::Got;
use fs_base::{Items, Memory, Row, Text};
use key_schema::Key;
use std::alloc::Global;
use test_support::{Rows, bytes_of, split};
use txn_task::Answer;

/// Each key was last written at version 3.
pub fn got(alloc: Global, rows: &Rows, key: &Key) -> Result<Answer, Memory>
    ensures { IfOk result (λ answer. FitsTask (waits.Reading (asks.Get key.now)) answer) }
{
    let bytes = Text::from_vec(key.write(alloc)?);
    let value = match rows.get(&bytes) {
        Some(value) => Some(value.try_clone()?),
        None => None,
    };
    Ok(Answer::Got(Got { value, version: 3 }))
}

/// The first rows, up to the limit, from one key on and below another.
pub fn rows_in(
    alloc: Global,
    rows: &Rows,
    lo: &Text,
    hi: &Text,
    limit: u32,
) -> Result<Items<Row>, Memory> {
    let mut found = Items::new(alloc);
    for (key, value) in rows {
        if *lo <= *key && *key < *hi && found.len() < limit as usize {
            found.push(Row {
                key: key.try_clone()?,
                value: value.try_clone()?,
            })?;
        }
    }
    Ok(found)
}

/// What a commit is answered, as the words say.
pub fn committed(alloc: Global, words: &str) -> Result<Answer>
    ensures { IfOk result (λ answer. (reply : Reply) → FitsTask (waits.Committing reply) answer) }
{
    let words = split(alloc, words)?;
    match words.as_slice() {
        ["ok", version] => Ok(Answer::Committed(version.parse::<u64>()?)),
        ["conflict", version, key] => {
            let bytes = bytes_of(alloc, key)?;
            let key = Key::read(alloc, bytes.as_slice())?;
            Ok(Answer::Conflict(version.parse::<u64>()?, key))
        }
        ["full"] => Ok(Answer::StoreFull),
        _ => bail!("a commit isn't answered so"),
    }
}
