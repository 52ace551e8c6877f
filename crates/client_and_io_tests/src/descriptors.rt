//! The calls of a script that opens files. Expected sessions are worked out from the numbers of its requests.

ghost use Rattle.std.specs.Prelude.{◌≡◌, ◌≤◌, None, length, All, IfOk, OnOk};
ghost use Rattle.client_core.specs.Awaiting.{Awaits};
ghost use Rattle.client_core.specs.Files.{IsFileSound};
ghost use Rattle.client_core.specs.Plans.{IsOp};
ghost use Rattle.fs_base.specs.Config.{Settings};

use crate::scripts::{client, next, place};
use client_core::{ClientAnswer, ClientAsk, ClientState, Op};
use fs_base::{Code, FileInfo, InodeId, Items, Layout, Memory, Reply};
use std::alloc::{AllocError, Global};
use std::process::Abort;
use std::test::Fail;
use txn_task::Outcome;

/// Each request's call, and nothing for the ask behind it. `AT` is the place of the path `/a` from the root. The
/// request 7 is refused.
const CALLS: &str = r#"Open(AT)

Fstat(Session { inode: InodeId { value: 48 }, number: 1 })

Open(AT)

Fstat(Session { inode: InodeId { value: 48 }, number: 3 })

Openr(AT)

Fstat(Session { inode: InodeId { value: 48 }, number: 0 })

Open(AT)

Fstat(Session { inode: InodeId { value: 0 }, number: 0 })

Fstat(Session { inode: InodeId { value: 0 }, number: 0 })
"#;

fn ops(alloc: Global) -> Result<Items<Op>, Memory>
    ensures few { IfOk result (λ ops. length ops ≤ 4000) }
    ensures valid { IfOk result (λ ops. All IsOp ops) }
{
    let mut ops = Items::new(alloc);
    let at = place(alloc)?;
    ops.push(Op::Open {
        stamp: 1,
        place: at,
        fd: 7,
    })?;
    ops.push(Op::Fstat { stamp: 2, fd: 7 })?;
    let at = place(alloc)?;
    ops.push(Op::Open {
        stamp: 3,
        place: at,
        fd: 0,
    })?;
    ops.push(Op::Fstat { stamp: 4, fd: 0 })?;
    let at = place(alloc)?;
    ops.push(Op::Openr {
        stamp: 5,
        place: at,
        fd: 7,
    })?;
    ops.push(Op::Fstat { stamp: 6, fd: 7 })?;
    let at = place(alloc)?;
    ops.push(Op::Open {
        stamp: 7,
        place: at,
        fd: 0,
    })?;
    ops.push(Op::Fstat { stamp: 8, fd: 0 })?;
    ops.push(Op::Fstat { stamp: 9, fd: 255 })?;
    Ok(ops)
}

/// Inode 48, as a configuration with one chain lays it out, or a refusal.
fn outcome(alloc: Global, number: u64) -> Outcome
    ensures { (C : Settings) → C.chains ≡ 1 → IsFileSound C result.reply }
{
    let conflicts = Items::new(alloc);
    if number == 7 {
        return Outcome {
            reply: Reply::Refused(Code::NotFound),
            version: number,
            committed: false,
            conflicts,
        };
    }
    Outcome {
        reply: Reply::File(FileInfo {
            inode: InodeId::new(48),
            length: 0,
            truncs: 0,
            layout: Layout {
                chunk: 1,
                stripe: 1,
                start: 0,
                mix: 48,
            },
            hint: 1,
        }),
        version: number,
        committed: false,
        conflicts,
    }
}

fn turn(alloc: Global, client: &mut ClientState, ask: &ClientAsk) -> Result<ClientAsk, Memory>
    requires awaits { Awaits client.old.request ask.now }
    requires chain { client.old.config.chains ≡ 1 }
    ensures awaits { IfOk result (λ ask. Awaits client.new.request ask) }
    ensures chain { OnOk result (client.new.config.chains ≡ 1) }
{
    match ask {
        ClientAsk::Send { request, .. } => {
            let outcome = outcome(alloc, request.number);
            let ask = next(client, ClientAnswer::Replied(2, outcome))?;
            Ok(ask)
        }
        _ => {
            let ask = next(client, ClientAnswer::Next)?;
            Ok(ask)
        }
    }
}

fn call_of(alloc: Global, ask: &ClientAsk) -> Result<String, AllocError> {
    match ask {
        ClientAsk::Send { request, .. } => format!(in alloc; "{:?}", request.call),
        _ => Ok(String::new(alloc)),
    }
}

/// The ask's call has to be the line, and the ask is answered.
fn told(
    rt: &(impl Abort + AllocGlobal),
    client: &mut ClientState,
    ask: &ClientAsk,
    line: &str,
) -> Result<ClientAsk, Memory>
    requires awaits { Awaits client.old.request ask.now }
    requires chain { client.old.config.chains ≡ 1 }
    ensures awaits { IfOk result (λ ask. Awaits client.new.request ask) }
    ensures chain { OnOk result (client.new.config.chains ≡ 1) }
{
    let got = call_of(rt.alloc(), ask)?;
    assert_eq!(rt; got.as_str(), line);
    turn(rt.alloc(), client, ask)
}

/// The calls of the client's asks, a line each.
fn sends(
    rt: &(impl Abort + AllocGlobal),
    client: &mut ClientState,
    want: &str,
) -> Result<(), Memory>
    requires idle { client.old.request ≡ None }
    requires chain { client.old.config.chains ≡ 1 }
{
    let mut ask = next(client, ClientAnswer::Start)?;
    for line in want.split('\n') {
        ask = told(rt, client, &ask, line)?;
    }
    Ok(())
}

#[test]
fn calls_on_descriptors_name_their_sessions(rt: HostRuntime) -> Result<(), Fail> {
    let alloc = rt.alloc();
    let mut client = client(alloc, ops(alloc)?)?;
    let at = "Place { base: InodeId { value: 0 }, text: Items { items: [47, 97] } }";
    let want = CALLS.replace(alloc, "AT", at)?;
    sends(&rt, &mut client, want.as_str())?;
    assert!(rt; client.has_ended());
    Ok(())
}
