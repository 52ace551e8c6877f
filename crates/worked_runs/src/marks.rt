//! What a text with marks stands for.

use anyhow::{Context, Result};
use std::alloc::Global;

/// The bytes of `0aff`, or the text of `255*TEXT`, so many times.
fn push_mark(alloc: Global, bytes: &mut Vec<u8>, mark: &str) -> Result<()> {
    let Some((count, text)) = mark.split_once('*') else {
        let named = hex::decode(alloc, mark)?;
        bytes.extend_from_slice(named.as_slice())?;
        return Ok(());
    };
    for _ in 0..count.parse::<u32>()? {
        bytes.extend_from_slice(text.as_bytes())?;
    }
    Ok(())
}

/// The bytes of a text whose marks stand between `<` and `>`.
pub fn spelled(alloc: Global, text: &str) -> Result<Vec<u8>> {
    let mut bytes = Vec::new(alloc);
    let mut parts = text.split('<');
    if let Some(front) = parts.next() {
        bytes.extend_from_slice(front.as_bytes())?;
    }
    for part in parts {
        let (mark, rest) = part.split_once('>').context("a < without its >")?;
        push_mark(alloc, &mut bytes, mark).context(format_args!("at <{mark}>"))?;
        bytes.extend_from_slice(rest.as_bytes())?;
    }
    Ok(bytes)
}
