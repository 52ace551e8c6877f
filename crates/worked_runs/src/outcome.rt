//! What comes of a case.

use crate::case::{Case, Shown};
use crate::{draft, stopped};
use anyhow::{Result, ensure};
use client_core::Script;
use fs_io::{MemSink, MemSource};
use meta_top::plain_main;
use run_record::write_replies;
use scenario::read_scenario;
use std::alloc::Global;

pub fn push(out: &mut Vec<u8>, text: &str) -> Result<()> {
    out.extend_from_slice(text.as_bytes())?;
    Ok(())
}

/// The status of the case's run, how many bytes were written, and these.
fn tell_run(alloc: Global, case: Case, out: &mut Vec<u8>) -> Result<()> {
    let Case {
        words,
        source,
        sink,
        input,
        ..
    } = case;
    ensure!(source.size > 0, "a piece of 0 bytes");
    let mut source = MemSource::new(input, source.size, source.failing);
    let mut sink = MemSink::new(alloc, sink.size, sink.failing)?;
    let status = plain_main(alloc, words.as_slice(), &mut source, &mut sink);
    let code = status as u8;
    let count = sink.bytes().len();
    let line = format!(in alloc; "status {code} {status:?}, {count} bytes\n")?;
    push(out, line.as_str())?;
    out.extend_from_slice(sink.bytes())?;
    Ok(())
}

/// A client, how many operations it has, and the first of them.
fn tell_script(alloc: Global, script: &Script, out: &mut Vec<u8>) -> Result<()> {
    let id = script.id;
    let home = script.home;
    let ops = script.ops.as_slice();
    let count = ops.len();
    let line = format!(in alloc; "client {id:?} home={home} ops={count}\n")?;
    push(out, line.as_str())?;
    if let Some(op) = ops.first() {
        let line = format!(in alloc; "{op:?}\n")?;
        push(out, line.as_str())?;
    }
    Ok(())
}

/// What the case's scenario reads as.
fn tell_plan(alloc: Global, input: &[u8], out: &mut Vec<u8>) -> Result<()> {
    let plan = read_scenario(alloc, input)?;
    let servers = plan.config.servers();
    let attempts = plan.attempts;
    let schedule = &plan.schedule;
    let line = format!(in alloc; "servers={servers} attempts={attempts} {schedule:?}\n")?;
    push(out, line.as_str())?;
    for stop in plan.stops.as_slice() {
        let line = format!(in alloc; "{stop:?}\n")?;
        push(out, line.as_str())?;
    }
    for script in plan.clients.as_slice() {
        tell_script(alloc, script, out)?;
    }
    Ok(())
}

/// The text of the record that the case's lines list.
fn tell_record(alloc: Global, input: &[u8], out: &mut Vec<u8>) -> Result<()> {
    let run = draft::read(alloc, str::from_utf8(input)?)?;
    let text = write_replies(alloc, &run)?;
    out.extend_from_slice(text.as_slice())?;
    Ok(())
}

/// The case's name, what comes of it, and a line feed.
pub fn tell(alloc: Global, case: Case, out: &mut Vec<u8>) -> Result<()> {
    let line = format!(in alloc; "case {}\n", case.name)?;
    push(out, line.as_str())?;
    match case.shown {
        Shown::Run => tell_run(alloc, case, out)?,
        Shown::Plan => tell_plan(alloc, case.input.as_slice(), out)?,
        Shown::Record => tell_record(alloc, case.input.as_slice(), out)?,
        Shown::Stopped(servers, asks) => stopped::tell(alloc, &case, servers, asks, out)?,
    }
    push(out, "\n")
}
