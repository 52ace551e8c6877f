//! What a task asks and comes to, in words.

use anyhow::{Result, bail};
use conflict_sets::Write;
use fs_base::Text;
use key_schema::Key;
use std::alloc::{AllocError, Global};
use txn_task::{Ask, Entry, Outcome};

fn hex_of(alloc: Global, bytes: &[u8]) -> Result<String, AllocError> {
    hex::encode(alloc, bytes)
}

fn tell_get(alloc: Global, key: &Key, out: &mut String) -> Result<()> {
    let bytes = key.write(alloc)?;
    let key = hex_of(alloc, bytes.as_slice())?;
    writeln!(out, "get {key}")?;
    Ok(())
}

fn tell_range(alloc: Global, lo: &Text, hi: &Text, limit: u32, out: &mut String) -> Result<()> {
    let lo = hex_of(alloc, lo.as_slice())?;
    let hi = hex_of(alloc, hi.as_slice())?;
    writeln!(out, "range {lo} {hi} {limit}")?;
    Ok(())
}

fn tell_write(alloc: Global, write: &Write, out: &mut String) -> Result<()> {
    let key = hex_of(alloc, write.key.as_slice())?;
    match &write.value {
        Some(value) => {
            let value = hex_of(alloc, value.as_slice())?;
            writeln!(out, "put {key} {value}")?;
        }
        None => writeln!(out, "delete {key}")?,
    }
    Ok(())
}

/// The reply of an entry, and what it writes.
fn tell_entry(alloc: Global, entry: &Entry, out: &mut String) -> Result<()> {
    let reply = &entry.reply;
    writeln!(out, "commit {reply:?}")?;
    for write in entry.writes.writes.as_slice() {
        tell_write(alloc, write, out)?;
    }
    Ok(())
}

/// An ask, in a line; that of a commit with one for each write.
pub fn tell_ask(alloc: Global, ask: &Ask, out: &mut String) -> Result<()> {
    match ask {
        Ask::Begin => writeln!(out, "begin")?,
        Ask::Get(key) => tell_get(alloc, key, out)?,
        Ask::Range { lo, hi, limit } => tell_range(alloc, lo, hi, *limit, out)?,
        Ask::Commit(entry) => tell_entry(alloc, entry, out)?,
        Ask::Done => writeln!(out, "done")?,
        _ => bail!("no store answers such an ask"),
    }
    Ok(())
}

/// The outcome, and how many of the answers to commits were left.
pub fn tell_outcome(
    alloc: Global,
    outcome: Option<&Outcome>,
    left: usize,
    out: &mut String,
) -> Result<()> {
    let Some(outcome) = outcome else {
        bail!("it has no outcome");
    };
    if left != 0 {
        bail!("an answer is left that no commit was given");
    }
    let Outcome {
        reply,
        version,
        committed,
        conflicts,
    } = outcome;
    for (version, key) in conflicts.as_slice() {
        let bytes = key.write(alloc)?;
        let key = hex_of(alloc, bytes.as_slice())?;
        writeln!(out, "conflict {version} {key}")?;
    }
    writeln!(
        out,
        "reply {reply:?} version {version} committed {committed}"
    )?;
    Ok(())
}
