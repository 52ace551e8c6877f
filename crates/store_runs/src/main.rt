//! Commits and reads of a store: reads a list of calls, and writes what each is answered.
//!
//! The store's law is that the keys `a` and `b` have a value; each is `-` at first. A line is one of these,
//! or a remark
//! behind `#`:
//! - `commit SNAPSHOT READ KEY`: sets the key to the snapshot's digits. What it has read is a key, or a range
//!   `LO-HI:LIMIT`.
//! - `get VERSION KEY`: the value and its version.
//! - `range VERSION LO-HI:LIMIT`: the keys and values.
//! - `fill COUNT`: so many commits to `a` that have read nothing.
//! - `parts`: ends the store; its opening rows and its entries are counted, and a new one begins.
//! - `look VERSION`: the greatest version that is at most this one in the chain of the versions 2, 5 and 9.
//!
//! Each read and each commit is also done by the plain program, which goes through the journal; where the two
//! answer
//! differently the program fails.
#![tactic(auto)]

ghost use Rattle.std.specs.Prelude.{◌≤◌, length};

mod law;
mod look;
mod plain;
mod reading;

use crate::law::{Touch, no_reads, open, setting};
use crate::look::look;
use crate::plain::Plain;
use crate::reading::{range_of, reads_of};
use anyhow::{Context, Result, bail};
use conflict_sets::{EntryLaw, Got};
use fs_base::{Memory, Row};
use kv_store::{CommitError, KvState, Refused};
use std::alloc::Global;
use std::{io, mem};

/// The store, and the plain program with the same entries.
#[derive(Drop)]
struct Stores {
    store: KvState<Touch>,
    plain: Plain,
}

impl Stores {
    fn open(alloc: Global) -> Result<Stores> {
        Ok(Stores {
            store: open(alloc)?,
            plain: Plain::open(alloc)?,
        })
    }
}

fn same(answer: String, plain: String) -> Result<String> {
    if answer != plain {
        bail!("the plain program answers{plain}");
    }
    Ok(answer)
}

fn told_refusal(alloc: Global, why: &CommitError) -> Result<String> {
    match why {
        CommitError::Conflict(version, key) => {
            let key = str::from_utf8(key.as_slice())?;
            Ok(format!(in alloc; " conflict {version} {key}")?)
        }
        CommitError::Full => Ok(String::from_str(alloc, " full")?),
        CommitError::Memory => bail!(Memory),
    }
}

fn told(alloc: Global, answer: &Result<u64, Refused<Touch>>) -> Result<String> {
    match answer {
        Ok(version) => Ok(format!(in alloc; " {version}")?),
        Err(refused) => told_refusal(alloc, &refused.why),
    }
}

/// The plain program's answer to a commit, and the entry in its journal where it isn't refused.
fn plain_commit(alloc: Global, plain: &mut Plain, snapshot: u64, entry: Touch) -> Result<String> {
    if let Some(why) = plain.refusal(snapshot, entry.reads())? {
        return told_refusal(alloc, &why);
    }
    plain.journal.push(entry)?;
    let version = plain.journal.len();
    Ok(format!(in alloc; " {version}")?)
}

fn commit(alloc: Global, stores: &mut Stores, snapshot: u64, words: &str) -> Result<String>
    requires { snapshot ≤ length stores.old.store.journal }
{
    let (read, key) = words.split_once(' ').context("nothing to set")?;
    read_both(alloc, stores, snapshot, read)?;
    let value = format!(in alloc; "{snapshot}")?;
    let reads = reads_of(alloc, &stores.store, snapshot, read)?;
    let entry = setting(alloc, reads, key.as_bytes(), value.as_bytes())?;
    let reads = reads_of(alloc, &stores.store, snapshot, read)?;
    let copy = setting(alloc, reads, key.as_bytes(), value.as_bytes())?;
    let answer = told(alloc, &stores.store.commit(snapshot, entry))?;
    let plain = plain_commit(alloc, &mut stores.plain, snapshot, copy)?;
    same(answer, plain)
}

fn told_got(alloc: Global, got: &Got) -> Result<String> {
    let writer = got.version;
    match &got.value {
        None => Ok(format!(in alloc; " none {writer}")?),
        Some(value) => {
            let value = str::from_utf8(value.as_slice())?;
            Ok(format!(in alloc; " {value} {writer}")?)
        }
    }
}

fn told_rows(alloc: Global, rows: &[Row]) -> Result<String> {
    let mut told = String::new(alloc);
    for row in rows {
        let key = str::from_utf8(row.key.as_slice())?;
        let value = str::from_utf8(row.value.as_slice())?;
        write!(told, " {key}:{value}")?;
    }
    Ok(told)
}

/// What both read of a key or a range.
fn read_both(alloc: Global, stores: &Stores, version: u64, words: &str) -> Result<String>
    requires { version ≤ length stores.now.store.journal }
{
    let Stores { store, plain } = stores;
    match range_of(words) {
        None => {
            let got = store.get_at(version, words.as_bytes())?;
            let by_plain = plain.get_at(version, words.as_bytes())?;
            same(told_got(alloc, &got)?, told_got(alloc, &by_plain)?)
        }
        Some((lo, hi, limit)) => {
            let rows = store.range_at(version, lo.as_bytes(), hi.as_bytes(), limit)?;
            let by_plain = plain.range_at(version, lo.as_bytes(), hi.as_bytes(), limit)?;
            let by_plain = told_rows(alloc, by_plain.as_slice())?;
            same(told_rows(alloc, rows.as_slice())?, by_plain)
        }
    }
}

fn at_version(alloc: Global, stores: &mut Stores, call: &str, rest: &str) -> Result<String> {
    let (version, words) = rest.split_once(' ').context("no version")?;
    let version = version.parse::<u64>()?;
    if version > stores.store.front() {
        bail!("the version is yet to come");
    }
    match call {
        "commit" => commit(alloc, stores, version, words),
        "get" | "range" => read_both(alloc, stores, version, words),
        _ => bail!("no such call"),
    }
}

fn fill(alloc: Global, stores: &mut Stores, count: &str) -> Result<String> {
    for _ in 0..count.parse::<u32>()? {
        let entry = setting(alloc, no_reads(alloc), b"a", b"1")?;
        let copy = setting(alloc, no_reads(alloc), b"a", b"1")?;
        let front = stores.store.front();
        if stores.store.commit(front, entry).is_err() {
            bail!("a commit that reads nothing was refused");
        }
        stores.plain.journal.push(copy)?;
    }
    Ok(String::new(alloc))
}

fn parts(alloc: Global, stores: &mut Stores) -> Result<String> {
    let old = mem::replace(stores, Stores::open(alloc)?);
    let (rows, entries) = old.store.into_parts();
    Ok(format!(in alloc; " {} {}", rows.len(), entries.len())?)
}

fn looked(alloc: Global, version: &str) -> Result<String> {
    match look(alloc, version.parse()?)? {
        None => Ok(String::from_str(alloc, " none")?),
        Some(found) => Ok(format!(in alloc; " {found}")?),
    }
}

fn tell(alloc: Global, stores: &mut Stores, line: &str) -> Result<String> {
    let answer = match line.split_once(' ') {
        Some(("#", _)) => return Ok(String::new(alloc)),
        Some(("fill", count)) => return fill(alloc, stores, count),
        Some(("look", version)) => looked(alloc, version)?,
        Some((call, rest)) => at_version(alloc, stores, call, rest)?,
        None if line == "parts" => parts(alloc, stores)?,
        None => bail!("no such line"),
    };
    Ok(format!(in alloc; " ={answer}")?)
}

fn tell_all(alloc: Global, lines: &str, out: &mut String) -> Result<()> {
    let mut stores = Stores::open(alloc)?;
    for line in lines.lines() {
        let told = tell(alloc, &mut stores, line).context(format_args!("at {line}"))?;
        writeln!(out, "{line}{told}")?;
    }
    Ok(())
}

fn main(rt: HostRuntime) -> Result<()> {
    let lines = io::read_to_string(rt.alloc(), rt.reader())?;
    let mut out = String::new(rt.alloc());
    let told = tell_all(rt.alloc(), lines.as_str(), &mut out);
    rt.print(out.as_str())?;
    told
}
