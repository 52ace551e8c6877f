use anyhow::{Context, Result};
use std::alloc::Global;

/// What a program tells its lines to: it keeps what the lines before have set.
pub trait Bench {
    /// Adds a line and what comes of it to the text. The line is no remark.
    fn tell(&mut self, alloc: Global, line: &str, out: &mut String) -> Result<()>;
}

/// Tells all lines, each with what comes of it; a remark, which begins with `#`, stays as it is.
pub fn tell_all<B: Bench>(
    alloc: Global,
    bench: &mut B,
    lines: &str,
    out: &mut String,
) -> Result<()> {
    for line in lines.lines() {
        if line.starts_with('#') {
            writeln!(out, "{line}")?;
        } else {
            bench
                .tell(alloc, line, out)
                .context(format_args!("at {line}"))?;
        }
    }
    Ok(())
}
