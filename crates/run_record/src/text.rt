//! What a reply line ends with.

ghost use Rattle.std.specs.Prelude.{◌≡◌, IfOk};
ghost use Rattle.run_record.specs.ReplyText.{call_word, text_of};

use crate::reply_text::push_reply;
use fs_base::{Call, Items, Memory, Reply, Text};
use std::alloc::Global;

/// The name of a call and the words of its reply.
pub fn text_of(alloc: Global, call: &Call, reply: &Reply) -> Result<Text, Memory>
    ensures { IfOk result (λ text. text ≡ text_of call.now reply.now) }
{
    let mut text = String::new(alloc);
    text.push_str(call_word(call))?;
    text.push_str(" ")?;
    push_reply(&mut text, reply)?;
    Ok(Items::from_vec(text.into_bytes()))
}

/// A call's name.
fn call_word(call: &Call) -> &'static str
    ensures { result.now ≡ call_word call.now }
{
    match call {
        Call::Lookup(_) => "lookup",
        Call::Stat(_) => "stat",
        Call::List(_) => "list",
        Call::Readlink(_) => "readlink",
        Call::Openr(_) => "openr",
        Call::Fstat(_) => "fstat",
        Call::Doomed => "doomed",
        Call::Mkdir { .. } => "mkdir",
        Call::Create { .. } => "create",
        Call::Symlink { .. } => "symlink",
        Call::Setattr { .. } => "setattr",
        Call::Link { .. } => "link",
        Call::Unlink(_) => "unlink",
        Call::Rmdir(_) => "rmdir",
        Call::Rename { .. } => "rename",
        Call::Open(_) => "open",
        Call::Extend { .. } => "extend",
        Call::Report { .. } => "report",
        Call::Fsync(_) => "fsync",
        Call::Close(_) => "close",
        Call::Truncate { .. } => "truncate",
        Call::Purge(_) => "purge",
        Call::Reap(_) => "reap",
        Call::Prune(_) => "prune",
        Call::Write { .. } => "write",
        Call::Read { .. } => "read",
        Call::Sweep => "sweep",
    }
}
