//! A case, and its lines.

use crate::marks::spelled;
use anyhow::{Context, Result, bail};
use std::alloc::Global;

/// How many bytes a source gives at once, or a sink takes in all, and which of its calls fail.
#[derive(Drop)]
pub struct Limits {
    pub size: u32,
    pub failing: Vec<u64>,
}

/// What is written of a case.
#[derive(Clone, Copy)]
pub enum Shown {
    Run,
    Plan,
    Record,
    /// A run for each stop of each of so many servers after each ask up to so many.
    Stopped(u8, u32),
}

#[derive(Drop)]
pub struct Case {
    pub name: String,
    pub shown: Shown,
    pub words: Vec<String>,
    pub source: Limits,
    pub sink: Limits,
    pub input: Vec<u8>,
}

fn read_calls(alloc: Global, list: &str) -> Result<Vec<u64>> {
    let mut calls = Vec::new(alloc);
    for call in list.split(',') {
        calls.push(call.parse::<u64>()?)?;
    }
    Ok(calls)
}

/// `failing=N,..`, or the size under its name.
fn read_setting(alloc: Global, limits: &mut Limits, setting: &str, name: &str) -> Result<()> {
    let (key, value) = setting.split_once('=').context("a setting without a =")?;
    if key == name {
        limits.size = value.parse::<u32>()?;
    } else if key == "failing" {
        limits.failing = read_calls(alloc, value)?;
    } else {
        bail!("no such setting: {setting}");
    }
    Ok(())
}

/// The limits of a line `piece=N failing=N,..`, or `room=N failing=N,..`.
fn read_limits(alloc: Global, line: &str, name: &str, size: u32) -> Result<Limits> {
    let mut limits = Limits {
        size,
        failing: Vec::new(alloc),
    };
    for setting in line.split(' ') {
        read_setting(alloc, &mut limits, setting, name)?;
    }
    Ok(limits)
}

fn read_words(alloc: Global, line: &str) -> Result<Vec<String>> {
    let mut words = Vec::new(alloc);
    for word in line.split(' ') {
        words.push(String::from_utf8(spelled(alloc, word)?)?)?;
    }
    Ok(words)
}

/// `SERVERS ASKS`
fn read_stops(numbers: &str) -> Result<Shown> {
    let (servers, asks) = numbers.split_once(' ').context("two numbers")?;
    Ok(Shown::Stopped(servers.parse::<u8>()?, asks.parse::<u32>()?))
}

fn read_line(alloc: Global, case: &mut Case, line: &str) -> Result<()> {
    let (key, rest) = line.split_once(' ').unwrap_or((line, ""));
    match key {
        "case" => case.name = String::from_str(alloc, rest)?,
        "words" if line == "words" => case.words = Vec::new(alloc),
        "words" => case.words = read_words(alloc, rest)?,
        "source" => case.source = read_limits(alloc, rest, "piece", case.source.size)?,
        "sink" => case.sink = read_limits(alloc, rest, "room", case.sink.size)?,
        "plan" => case.shown = Shown::Plan,
        "record" => case.shown = Shown::Record,
        "stops" => case.shown = read_stops(rest)?,
        "#" | "" => {}
        _ => bail!("no such line: {line}"),
    }
    Ok(())
}

/// The lines above the scenario, and its lines.
fn parted(block: &str) -> Result<(&str, &str)> {
    match block.split_once("\nscenario\n") {
        Some(parts) => Ok(parts),
        None => {
            let head = block.strip_suffix("\nscenario").context("no scenario")?;
            Ok((head, ""))
        }
    }
}

/// The case of a block of lines.
pub fn read(alloc: Global, block: &str) -> Result<Case> {
    let (head, scenario) = parted(block)?;
    let mut case = Case {
        name: String::new(alloc),
        shown: Shown::Run,
        words: read_words(alloc, "step")?,
        source: read_limits(alloc, "piece=4096", "piece", 0)?,
        sink: read_limits(alloc, "room=1000000", "room", 0)?,
        input: spelled(alloc, scenario)?,
    };
    for line in head.split('\n') {
        read_line(alloc, &mut case, line)?;
    }
    Ok(case)
}
