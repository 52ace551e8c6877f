//! Runs each case of a list that comes from standard input, and writes what came of it.
//!
//! Cases are parted by blank lines. The lines of a case are these, in any order up to the last:
//! - `case NAME`
//! - `words WORD..`: the command line. Where the line is missing the one word is `step`.
//! - `source piece=N failing=N,..`: the bytes that a read gives at most, and the reads that fail, from 1. Either may be
//!   missing: a piece has 4,096 bytes, and no read fails.
//! - `sink room=N failing=N,..`: the same of writes. The room is 1,000,000 bytes.
//! - `plan`: the scenario isn't run; what it reads as is written.
//! - `record`: there is no scenario; the lines of the input list a record of a run, and its text is written.
//! - `stops SERVERS ASKS`: the scenario is run once for each server below SERVERS and each number from 1 to ASKS, with
//!   one stop, of that server after so many asks. Each text that came out is written once, behind how many runs told
//!   it, without what a stop may change: its lines `gone` are left out, and `*` stands for the server of a reply and
//!   for the number behind `made`.
//! - `# REMARK`
//! - `scenario`, last, and behind it the lines of the input. The last one has no line feed at its end.
//!
//! A record's lines are these; keys, calls and replies are the bytes of which they are read, in hexadecimal.
//! - `conflict VERSION KEY`, `gone SERVER STOP`: what the request of the next receipt went through.
//! - `receipt CLIENT OP NUMBER SERVER MARK VERSION CALL REPLY`: number and server may be `-`, the mark is `commit` or
//!   `seen`.
//! - `end OPS COMMITS CONFLICTS STOPS WAITING`: the counts.
//! - `# REMARK`
//!
//! In words and input `<0aff>` stands for the bytes that it names, and `<255*TEXT>` for the text, so many times.
#![tactic(auto)]

mod case;
mod draft;
mod marks;
mod outcome;
mod stopped;

use anyhow::{Context, Error, Result};
use fs_io::{StdSink, write_all};
use std::alloc::Global;
use std::io;

/// Nothing but remarks.
fn is_remark(block: &str) -> bool {
    block
        .lines()
        .all(|line| line.is_empty() || line.starts_with('#'))
}

fn run_block(alloc: Global, block: &str, out: &mut Vec<u8>) -> Result<()> {
    if is_remark(block) {
        return Ok(());
    }
    let case = case::read(alloc, block)?;
    outcome::tell(alloc, case, out)
}

/// Each case in turn. An error names the line at which its case begins.
fn run_list(alloc: Global, list: &str, out: &mut Vec<u8>) -> Result<()> {
    let mut line = 1usize;
    for block in list.split("\n\n") {
        run_block(alloc, block, out).context(format_args!("the case at line {line}"))?;
        line = line.saturating_add(block.split('\n').count());
        line = line.saturating_add(1);
    }
    Ok(())
}

fn main(rt: HostRuntime) -> Result<()> {
    let alloc = rt.alloc();
    let list = io::read_to_string(alloc, rt.reader())?;
    let list = list.as_str();
    let mut out = Vec::new(alloc);
    let told = run_list(alloc, list.strip_suffix('\n').unwrap_or(list), &mut out);
    let mut sink = StdSink::new(io::writer(&rt));
    write_all(&mut sink, out.as_slice()).map_err(|_| Error::msg("standard output"))?;
    told
}
