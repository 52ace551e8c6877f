//! Runs of one scenario, each with another stop.

use crate::case::Case;
use crate::outcome::push;
use anyhow::{Context, Result};
use fs_io::{MemSink, MemSource};
use meta_top::plain_main;
use std::alloc::Global;

/// A text, and how many runs told it.
#[derive(Drop)]
struct Told {
    text: String,
    runs: u32,
}

/// The scenario with a stop of the server after so many asks.
fn with_stop(alloc: Global, scenario: &str, server: u8, asks: u32) -> Result<Vec<u8>> {
    let keys = scenario.strip_prefix('{').context("no object")?;
    let stop = format!(in alloc; r#"{{"server":{server},"after":"ask","n":{asks}}}"#)?;
    let text = format!(in alloc; r#"{{"stops":[{stop}],{keys}"#)?;
    Ok(Vec::from_slice(alloc, text.as_bytes())?)
}

/// Whether a stop may change this word of a line: a reply's server, and a new inode's number.
fn varies(words: &[&str], i: usize) -> bool {
    match words.get(..i) {
        Some(["reply", _, _, _]) => true,
        Some([.., last]) => *last == "made",
        _ => false,
    }
}

/// The line with `*` for each word that a stop may change.
fn push_line(alloc: Global, text: &mut String, line: &str) -> Result<()> {
    let words: Vec<&str> = line.split(' ').collect(alloc)?;
    for (i, word) in words.as_slice().iter().enumerate() {
        if i > 0 {
            text.push(' ')?;
        }
        let told = if varies(words.as_slice(), i) {
            "*"
        } else {
            *word
        };
        text.push_str(told)?;
    }
    text.push('\n')?;
    Ok(())
}

/// What a run told, without what a stop may change.
fn settled(alloc: Global, told: &str) -> Result<String> {
    let mut text = String::new(alloc);
    for line in told.lines() {
        if !line.starts_with("gone ") {
            push_line(alloc, &mut text, line)?;
        }
    }
    Ok(text)
}

/// The status of the run, and what it told.
fn run(alloc: Global, words: &[String], input: Vec<u8>) -> Result<String> {
    let mut source = MemSource::new(input, 4096, Vec::new(alloc));
    let mut sink = MemSink::new(alloc, 1_000_000, Vec::new(alloc))?;
    let status = plain_main(alloc, words, &mut source, &mut sink);
    let text = settled(alloc, str::from_utf8(sink.bytes())?)?;
    let code = status as u8;
    Ok(format!(in alloc; "status {code} {status:?}\n{text}")?)
}

/// One more run told this.
fn count(told: &mut Vec<Told>, text: String) -> Result<()> {
    for known in told.iter_mut() {
        if known.text.as_str() == text.as_str() {
            known.runs = known.runs.saturating_add(1);
            return Ok(());
        }
    }
    told.push(Told { text, runs: 1 })?;
    Ok(())
}

fn run_server(
    alloc: Global,
    case: &Case,
    server: u8,
    asks: u32,
    told: &mut Vec<Told>,
) -> Result<()> {
    let scenario = str::from_utf8(case.input.as_slice())?;
    for n in 1..=asks {
        let input = with_stop(alloc, scenario, server, n)?;
        count(told, run(alloc, case.words.as_slice(), input)?)?;
    }
    Ok(())
}

/// Each text that runs told, and how many did.
pub fn tell(alloc: Global, case: &Case, servers: u8, asks: u32, out: &mut Vec<u8>) -> Result<()> {
    let mut told = Vec::new(alloc);
    for server in 0..servers {
        run_server(alloc, case, server, asks, &mut told)?;
    }
    for known in told.as_slice() {
        let line = format!(in alloc; "{} runs\n", known.runs)?;
        push(out, line.as_str())?;
        push(out, known.text.as_str())?;
    }
    Ok(())
}
