//! The program `fs3meta`: steps a scenario, and writes the replies.
#![tactic(auto)]

use fs_io::{StdSink, StdSource};
use meta_top::{command, exit_code};
use std::process::ExitCode;
use std::{env, io};

fn main(rt: HostRuntime) -> ExitCode {
    let mut input = StdSource::new(rt.reader());
    let mut output = StdSink::new(io::writer(&rt));
    let status = command(rt.alloc(), env::args(&rt), &mut input, &mut output);
    exit_code(status)
}
