//! Calls of a storage node: reads a list of them, and writes what each is answered.
//!
//! A line is one of these, or a remark behind `#`:
//! - `write INODE INDEX OFFSET LEN FILL`, `end INODE KEEP REST holds` or `.. drops`, `remove INODE VERSION`: the front.
//! - `writes COUNT INODE INDEX LEN FILL`: so many writes, one behind the other from the chunk's beginning on.
//! - `read INODE INDEX OFFSET LEN`: the front, and the runs, each `OFFSET+LENxFILL`.
//! - `kept INODE INDEX`: the runs of the whole chunk, as the node keeps them.
//! - `query INODE`: the front, and the last chunk's index and length.
//! - `node`: ends the node; what it has done is counted, and a new one begins.
#![tactic(auto)]

mod reading;

use crate::reading::{chunk_of, end_of, inode_of, range_of, write_at, write_of};
use anyhow::{Context, Result, bail};
use chunk_node::{NodeError, NodeState, Run};
use fs_base::Memory;
use std::alloc::Global;
use std::{io, mem};
use test_support::split;

fn done(alloc: Global, answer: Result<u64, NodeError>) -> Result<String> {
    match answer {
        Ok(front) => Ok(format!(in alloc; " {front}")?),
        Err(NodeError::Removed(version)) => Ok(format!(in alloc; " removed {version}")?),
        Err(NodeError::Full) => Ok(String::from_str(alloc, " full")?),
        Err(NodeError::Memory) => bail!(Memory),
    }
}

fn tell_runs(told: &mut String, runs: &[Run]) -> Result<()> {
    for run in runs {
        let Run { offset, len, fill } = run;
        write!(told, " {offset}+{len}x{fill}")?;
    }
    Ok(())
}

fn writes(alloc: Global, node: &mut NodeState, words: &[&str]) -> Result<String> {
    let [count, inode, index, len, fill] = words else {
        bail!("a count, and the four numbers of writes");
    };
    let count = count.parse::<u32>()?;
    let first = write_of(&[*inode, *index, "0", *len, *fill])?;
    let mut front = node.front();
    for n in 0..count {
        let write = write_at(first, n.saturating_mul(first.len)).context("past the chunk")?;
        match node.write(write) {
            Ok(place) => front = place,
            Err(_) => bail!("one of the writes was refused"),
        }
    }
    Ok(format!(in alloc; " {front}")?)
}

fn read(alloc: Global, node: &NodeState, words: &[&str]) -> Result<String> {
    let (inode, index, offset, len) = range_of(words)?;
    match node.read(inode, index, offset, len) {
        Ok((front, runs)) => {
            let mut told = done(alloc, Ok(front))?;
            tell_runs(&mut told, runs.as_slice())?;
            Ok(told)
        }
        Err(why) => done(alloc, Err(why)),
    }
}

fn kept(alloc: Global, node: &NodeState, words: &[&str]) -> Result<String> {
    let (inode, index) = chunk_of(words)?;
    let mut told = String::new(alloc);
    match node.kept(inode, index) {
        Some(runs) => tell_runs(&mut told, runs)?,
        None => told.push_str(" none")?,
    }
    Ok(told)
}

fn query(alloc: Global, node: &NodeState, words: &[&str]) -> Result<String> {
    let [inode] = words else {
        bail!("an inode");
    };
    let (front, last) = node.query_end(inode_of(inode)?);
    match last {
        Some((index, len)) => Ok(format!(in alloc; " {front} {index} {len}")?),
        None => Ok(format!(in alloc; " {front} none")?),
    }
}

fn remove(alloc: Global, node: &mut NodeState, words: &[&str]) -> Result<String> {
    let [inode, version] = words else {
        bail!("an inode, and a version");
    };
    let front = node.remove_inode(inode_of(inode)?, version.parse::<u64>()?)?;
    done(alloc, Ok(front))
}

fn answer(alloc: Global, node: &mut NodeState, call: &str, words: &[&str]) -> Result<String> {
    match call {
        "write" => done(alloc, node.write(write_of(words)?)),
        "writes" => writes(alloc, node, words),
        "end" => done(alloc, node.set_end(end_of(words)?)),
        "remove" => remove(alloc, node, words),
        "read" => read(alloc, node, words),
        "kept" => kept(alloc, node, words),
        "query" => query(alloc, node, words),
        "node" => {
            let old = mem::replace(node, NodeState::new(alloc));
            Ok(format!(in alloc; " {}", old.into_history().len())?)
        }
        _ => bail!("no such call"),
    }
}

fn tell(alloc: Global, node: &mut NodeState, line: &str, out: &mut String) -> Result<()> {
    let words = split(alloc, line)?;
    match words.as_slice() {
        ["#", ..] => writeln!(out, "{line}")?,
        [call, rest @ ..] => {
            let answer = answer(alloc, node, call, rest).context(format_args!("at {line}"))?;
            writeln!(out, "{line} ={answer}")?;
        }
        [] => bail!("an empty line"),
    }
    Ok(())
}

fn tell_all(alloc: Global, lines: &str, out: &mut String) -> Result<()> {
    let mut node = NodeState::new(alloc);
    for line in lines.lines() {
        tell(alloc, &mut node, line, out)?;
    }
    Ok(())
}

fn main(rt: HostRuntime) -> Result<()> {
    let lines = io::read_to_string(rt.alloc(), rt.reader())?;
    let mut out = String::new(rt.alloc());
    let told = tell_all(rt.alloc(), lines.as_str(), &mut out);
    rt.print(out.as_str())?;
    told
}
