//! What a line's words ask of a node.

ghost use Rattle.std.specs.Prelude.{◌≡◌, ◌≤◌, ◌+◌, true, IfOk, IfSome};

use anyhow::{Context, Result, bail};
use chunk_node::{EndDone, WriteDone};
use fs_base::{ClientId, InodeId};

const CHUNK: u32 = 4_194_304;

pub fn inode_of(word: &str) -> Result<InodeId> {
    InodeId::read(word.parse::<u64>()?).context("an inode's number is below 2^36")
}

/// An inode, and the index of one of its chunks.
pub fn chunk_of(words: &[&str]) -> Result<(InodeId, u64)> {
    let [inode, index] = words else {
        bail!("an inode, and an index");
    };
    Ok((inode_of(inode)?, index.parse::<u64>()?))
}

/// A chunk, and an offset and a length in it.
pub fn range_of(words: &[&str]) -> Result<(InodeId, u64, u32, u32)>
    ensures { IfOk result (λ range. range.2 + range.3 ≤ 4194304) }
{
    let [inode, index, offset, len] = words else {
        bail!("an inode, an index, an offset and a length");
    };
    let offset = offset.parse::<u32>()?;
    let len = len.parse::<u32>()?;
    if offset > CHUNK || len > CHUNK - offset {
        bail!("past the chunk");
    }
    Ok((inode_of(inode)?, index.parse::<u64>()?, offset, len))
}

/// Inode, index, offset, length and fill of a write.
pub fn write_of(words: &[&str]) -> Result<WriteDone>
    ensures some { IfOk result (λ w. 1 ≤ w.len) }
    ensures short { IfOk result (λ w. w.offset + w.len ≤ 4194304) }
{
    let [inode, index, offset, len, fill] = words else {
        bail!("the five numbers of a write");
    };
    let (inode, index, offset, len) = range_of(&[*inode, *index, *offset, *len])?;
    if len == 0 {
        bail!("a write has a byte");
    }
    Ok(WriteDone {
        inode,
        index,
        offset,
        len,
        fill: fill.parse::<u8>()?,
        version: 0,
        client: ClientId(0),
        number: 0,
    })
}

/// The write at another offset, if it lies in the chunk there.
pub fn write_at(write: WriteDone, offset: u32) -> Option<WriteDone>
    requires { 1 ≤ write.len }
    ensures some { IfSome result (λ w. 1 ≤ w.len) }
    ensures short { IfSome result (λ w. w.offset + w.len ≤ 4194304) }
{
    if offset > CHUNK || write.len > CHUNK - offset {
        return None;
    }
    Some(WriteDone { offset, ..write })
}

/// Inode, `keep` and `rest` of a cut, and whether it holds the chunk before.
pub fn end_of(words: &[&str]) -> Result<EndDone>
    ensures holds { IfOk result (λ s. s.holds ≡ true → 1 ≤ s.keep) }
    ensures short { IfOk result (λ s. s.rest ≤ 4194304) }
{
    let [inode, keep, rest, holds] = words else {
        bail!("an inode, two numbers, and whether the chunk before is held");
    };
    let keep = keep.parse::<u64>()?;
    let rest = rest.parse::<u32>()?;
    let holds = match *holds {
        "holds" => true,
        "drops" => false,
        _ => bail!("holds or drops"),
    };
    if rest > CHUNK || (holds && keep == 0) {
        bail!("a cut that no node is asked for");
    }
    Ok(EndDone {
        inode: inode_of(inode)?,
        keep,
        rest,
        holds,
        client: ClientId(0),
        number: 0,
    })
}
