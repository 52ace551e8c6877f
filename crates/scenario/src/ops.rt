//! The operations of a client.

ghost use Rattle.std.specs.Prelude.{◌≡◌, ◌≤◌, ◌<◌, codes, length, map, IfOk, IfSome, ok_or};
ghost use Rattle.fs_base.specs.Gives.{Gives};
ghost use Rattle.serde_json.specs.View.{view};
ghost use Rattle.scenario.specs.Broken.{broken_of, not_built};
ghost use Rattle.scenario.specs.Numbers.{number_or};
ghost use Rattle.scenario.specs.Ops.{both, changes_of, fd_of, first_place, keys_of, kind_of_op, layout_of, making_of, op_of, op_with, place_at, second_place, short_text};
ghost use Rattle.client_core.specs.Plans.{IsChanges, IsGivenLayout, IsOp, IsPlace};

use crate::broken::{Broken, ScenarioError, need, not_built};
use crate::json::{has_only, text_at};
use crate::numbers::{number_16_at, number_32_at, number_at, number_or};
use client_core::{DESCRIPTORS, Op};
use fs_base::limits::{INODE_IDS, MODES, TEXT_BYTES, TIMES};
use fs_base::{Changes, DefaultLayout, InodeId, Place, Text};
use serde_json::Value;
use std::alloc::Global;

/// The operations that are built, by name.
#[derive(Clone, Copy, Debug, PartialEq, Eq)]
pub enum OpKind {
    Mkdir,
    Create,
    Symlink,
    Setattr,
    Link,
    Unlink,
    Rmdir,
    Rename,
    Lookup,
    Stat,
    List,
    Readlink,
    Open,
    Openr,
    Fstat,
}

/// What mkdir and create have beside a place.
#[derive(Clone, Copy, Debug)]
pub struct Making {
    pub mode: u16,
    pub layout: Option<DefaultLayout>,
}

/// The operation of a JSON object.
#[tactic(auto, unfolding(crate::specs::Ops::op_of))]
pub fn op_of(alloc: Global, value: &Value) -> Result<Op, ScenarioError>
    ensures gives { Gives broken_of (λ op. op) result (op_of (view value.now)) }
    ensures valid { IfOk result (λ op. IsOp op) }
{
    let name = text_at(value, "op", not_built())?;
    let kind = kind_of(name)?;
    need(has_only(value, keys_of(kind)), not_built())?;
    let stamp = number_or(value, "time", TIMES, 0)?;
    op_with(alloc, kind, stamp, value)
}

fn kind_of(name: &str) -> Result<OpKind, Broken>
    ensures { result ≡ ok_or (kind_of_op name.now) not_built }
{
    match name {
        "mkdir" => Ok(OpKind::Mkdir),
        "create" => Ok(OpKind::Create),
        "symlink" => Ok(OpKind::Symlink),
        "setattr" => Ok(OpKind::Setattr),
        "link" => Ok(OpKind::Link),
        "unlink" => Ok(OpKind::Unlink),
        "rmdir" => Ok(OpKind::Rmdir),
        "rename" => Ok(OpKind::Rename),
        "lookup" => Ok(OpKind::Lookup),
        "stat" => Ok(OpKind::Stat),
        "list" => Ok(OpKind::List),
        "readlink" => Ok(OpKind::Readlink),
        "open" => Ok(OpKind::Open),
        "openr" => Ok(OpKind::Openr),
        "fstat" => Ok(OpKind::Fstat),
        _ => Err(not_built()),
    }
}

/// All the keys that an operation may have.
fn keys_of(kind: OpKind) -> &'static [&'static str]
    ensures { map (λ k. k.now) result.now ≡ keys_of kind }
{
    match kind {
        OpKind::Mkdir | OpKind::Create => &["op", "time", "path", "dir", "mode", "chunk", "stripe"],
        OpKind::Symlink => &["op", "time", "path", "dir", "target"],
        OpKind::Setattr => &[
            "op", "time", "path", "dir", "mode", "uid", "gid", "atime", "mtime",
        ],
        OpKind::Link | OpKind::Rename => &["op", "time", "path", "dir", "path2", "dir2"],
        OpKind::Unlink | OpKind::Rmdir => &["op", "time", "path", "dir"],
        OpKind::Lookup | OpKind::Stat | OpKind::List | OpKind::Readlink => &[
            "op", "time", "path", "dir",
        ],
        OpKind::Open | OpKind::Openr => &["op", "time", "path", "dir", "fd"],
        OpKind::Fstat => &["op", "time", "fd"],
    }
}

/// The text at a key that must be there.
fn short_text(alloc: Global, value: &Value, name: &str) -> Result<Text, ScenarioError>
    ensures gives { Gives broken_of (λ text. text) result (short_text name.now (view value.now)) }
    ensures short { IfOk result (λ text. length text ≤ TEXT_BYTES) }
{
    let text = text_at(value, name, not_built())?;
    need(text.len() <= TEXT_BYTES, not_built())?;
    Ok(Text::from_slice(alloc, text.as_bytes())?)
}

/// The place whose base and path stand at these keys.
fn place_at(alloc: Global, value: &Value, dir: &str, path: &str) -> Result<Place, ScenarioError>
    ensures gives { Gives broken_of (λ place. place) result (place_at dir.now path.now (view value.now)) }
    ensures valid { IfOk result (λ place. IsPlace place) }
{
    let base = number_or(value, dir, INODE_IDS, 0)?;
    let text = short_text(alloc, value, path)?;
    Ok(Place {
        base: InodeId::new(base),
        text,
    })
}

/// The place of an operation, or where one of two places begins.
fn first_place(alloc: Global, value: &Value) -> Result<Place, ScenarioError>
    ensures gives { Gives broken_of (λ place. place) result (first_place (view value.now)) }
    ensures valid { IfOk result (λ place. IsPlace place) }
{
    place_at(alloc, value, "dir", "path")
}

/// Where an operation of two places leads.
fn second_place(alloc: Global, value: &Value) -> Result<Place, ScenarioError>
    ensures gives { Gives broken_of (λ place. place) result (second_place (view value.now)) }
    ensures valid { IfOk result (λ place. IsPlace place) }
{
    place_at(alloc, value, "dir2", "path2")
}

/// The descriptor that an operation is on.
fn fd_of(value: &Value) -> Result<u8, Broken>
    ensures gives { result ≡ fd_of (view value.now) }
    ensures below { IfOk result (λ fd. fd < DESCRIPTORS) }
{
    let fd = number_or(value, "fd", DESCRIPTORS as u64, 1)?;
    Ok(fd as u8)
}

fn both(chunk: Option<u32>, stripe: Option<u16>) -> Result<Option<DefaultLayout>, Broken>
    ensures gives { result ≡ both chunk stripe }
    ensures valid { IfOk result (λ layout. IfSome layout IsGivenLayout) }
{
    match (chunk, stripe) {
        (Some(chunk), Some(stripe)) => Ok(Some(DefaultLayout { chunk, stripe })),
        (None, None) => Ok(None),
        _ => Err(not_built()),
    }
}

fn layout_of(value: &Value) -> Result<Option<DefaultLayout>, Broken>
    ensures gives { result ≡ layout_of (view value.now) }
    ensures valid { IfOk result (λ layout. IfSome layout IsGivenLayout) }
{
    let chunk = number_32_at(value, "chunk", 1 << 32)?;
    let stripe = number_16_at(value, "stripe", 1 << 16)?;
    both(chunk, stripe)
}

fn mode_or(value: &Value, default: u16) -> Result<u16, Broken>
    requires { default < MODES }
    ensures gives { result ≡ number_or (codes "mode") MODES default (view value.now) }
    ensures below { IfOk result (λ mode. mode < MODES) }
{
    let mode = number_or(value, "mode", MODES as u64, u64::from(default))?;
    Ok(mode as u16)
}

fn making_of(value: &Value, default: u16) -> Result<Making, Broken>
    requires { default < MODES }
    ensures gives { result ≡ making_of default (view value.now) }
    ensures mode { IfOk result (λ making. making.mode < MODES) }
    ensures layout { IfOk result (λ making. IfSome making.layout IsGivenLayout) }
{
    let mode = mode_or(value, default)?;
    let layout = layout_of(value)?;
    Ok(Making { mode, layout })
}

#[tactic(auto, unfolding(crate::specs::Ops::changes_of))]
fn changes_of(value: &Value) -> Result<Changes, Broken>
    ensures gives { result ≡ changes_of (view value.now) }
    ensures valid { IfOk result (λ changes. IsChanges changes) }
{
    let mode = number_16_at(value, "mode", MODES as u64)?;
    let owner = number_32_at(value, "uid", 1 << 32)?;
    let group = number_32_at(value, "gid", 1 << 32)?;
    let atime = number_at(value, "atime", TIMES)?;
    let mtime = number_at(value, "mtime", TIMES)?;
    Ok(Changes {
        mode,
        owner,
        group,
        atime,
        mtime,
    })
}

/// The operation of a kind, with what it has of its own.
fn op_with(alloc: Global, kind: OpKind, stamp: u64, value: &Value) -> Result<Op, ScenarioError>
    requires { stamp < TIMES }
    ensures gives { Gives broken_of (λ op. op) result (op_with kind stamp (view value.now)) }
    ensures valid { IfOk result (λ op. IsOp op) }
{
    match kind {
        OpKind::Mkdir => mkdir_with(alloc, stamp, value),
        OpKind::Create => create_with(alloc, stamp, value),
        OpKind::Symlink => symlink_with(alloc, stamp, value),
        OpKind::Setattr => setattr_with(alloc, stamp, value),
        OpKind::Link => link_with(alloc, stamp, value),
        OpKind::Rename => rename_with(alloc, stamp, value),
        OpKind::Open => open_with(alloc, stamp, value),
        OpKind::Openr => openr_with(alloc, stamp, value),
        OpKind::Fstat => fstat_with(stamp, value),
        OpKind::Unlink => {
            let place = first_place(alloc, value)?;
            Ok(Op::Unlink { stamp, place })
        }
        OpKind::Rmdir => {
            let place = first_place(alloc, value)?;
            Ok(Op::Rmdir { stamp, place })
        }
        OpKind::Lookup => {
            let place = first_place(alloc, value)?;
            Ok(Op::Lookup { stamp, place })
        }
        OpKind::Stat => {
            let place = first_place(alloc, value)?;
            Ok(Op::Stat { stamp, place })
        }
        OpKind::List => {
            let place = first_place(alloc, value)?;
            Ok(Op::List { stamp, place })
        }
        OpKind::Readlink => {
            let place = first_place(alloc, value)?;
            Ok(Op::Readlink { stamp, place })
        }
    }
}

fn mkdir_with(alloc: Global, stamp: u64, value: &Value) -> Result<Op, ScenarioError>
    requires { stamp < TIMES }
    ensures gives { Gives broken_of (λ op. op) result (op_with OpKind.Mkdir stamp (view value.now)) }
    ensures valid { IfOk result (λ op. IsOp op) }
{
    let place = first_place(alloc, value)?;
    let made = making_of(value, 0o755)?;
    Ok(Op::Mkdir {
        stamp,
        place,
        mode: made.mode,
        layout: made.layout,
    })
}

fn create_with(alloc: Global, stamp: u64, value: &Value) -> Result<Op, ScenarioError>
    requires { stamp < TIMES }
    ensures gives { Gives broken_of (λ op. op) result (op_with OpKind.Create stamp (view value.now)) }
    ensures valid { IfOk result (λ op. IsOp op) }
{
    let place = first_place(alloc, value)?;
    let made = making_of(value, 0o644)?;
    Ok(Op::Create {
        stamp,
        place,
        mode: made.mode,
        layout: made.layout,
    })
}

fn symlink_with(alloc: Global, stamp: u64, value: &Value) -> Result<Op, ScenarioError>
    requires { stamp < TIMES }
    ensures gives { Gives broken_of (λ op. op) result (op_with OpKind.Symlink stamp (view value.now)) }
    ensures valid { IfOk result (λ op. IsOp op) }
{
    let place = first_place(alloc, value)?;
    let target = short_text(alloc, value, "target")?;
    Ok(Op::Symlink {
        stamp,
        place,
        target,
    })
}

fn setattr_with(alloc: Global, stamp: u64, value: &Value) -> Result<Op, ScenarioError>
    requires { stamp < TIMES }
    ensures gives { Gives broken_of (λ op. op) result (op_with OpKind.Setattr stamp (view value.now)) }
    ensures valid { IfOk result (λ op. IsOp op) }
{
    let place = first_place(alloc, value)?;
    let changes = changes_of(value)?;
    Ok(Op::Setattr {
        stamp,
        place,
        changes,
    })
}

fn link_with(alloc: Global, stamp: u64, value: &Value) -> Result<Op, ScenarioError>
    requires { stamp < TIMES }
    ensures gives { Gives broken_of (λ op. op) result (op_with OpKind.Link stamp (view value.now)) }
    ensures valid { IfOk result (λ op. IsOp op) }
{
    let from = first_place(alloc, value)?;
    let to = second_place(alloc, value)?;
    Ok(Op::Link { stamp, from, to })
}

fn rename_with(alloc: Global, stamp: u64, value: &Value) -> Result<Op, ScenarioError>
    requires { stamp < TIMES }
    ensures gives { Gives broken_of (λ op. op) result (op_with OpKind.Rename stamp (view value.now)) }
    ensures valid { IfOk result (λ op. IsOp op) }
{
    let from = first_place(alloc, value)?;
    let to = second_place(alloc, value)?;
    Ok(Op::Rename { stamp, from, to })
}

fn open_with(alloc: Global, stamp: u64, value: &Value) -> Result<Op, ScenarioError>
    requires { stamp < TIMES }
    ensures gives { Gives broken_of (λ op. op) result (op_with OpKind.Open stamp (view value.now)) }
    ensures valid { IfOk result (λ op. IsOp op) }
{
    let place = first_place(alloc, value)?;
    let fd = fd_of(value)?;
    Ok(Op::Open { stamp, place, fd })
}

fn openr_with(alloc: Global, stamp: u64, value: &Value) -> Result<Op, ScenarioError>
    requires { stamp < TIMES }
    ensures gives { Gives broken_of (λ op. op) result (op_with OpKind.Openr stamp (view value.now)) }
    ensures valid { IfOk result (λ op. IsOp op) }
{
    let place = first_place(alloc, value)?;
    let fd = fd_of(value)?;
    Ok(Op::Openr { stamp, place, fd })
}

fn fstat_with(stamp: u64, value: &Value) -> Result<Op, ScenarioError>
    requires { stamp < TIMES }
    ensures gives { Gives broken_of (λ op. op) result (op_with OpKind.Fstat stamp (view value.now)) }
    ensures valid { IfOk result (λ op. IsOp op) }
{
    let fd = fd_of(value)?;
    Ok(Op::Fstat { stamp, fd })
}
