//! Scripts told ask by ask. Expected asks are worked out from the form of requests and receipts.

ghost use Rattle.std.specs.Prelude.{◌≡◌, ◌≤◌, None, length, All, IfOk, OnOk};
ghost use Rattle.client_core.specs.Awaiting.{Awaits};
ghost use Rattle.client_core.specs.Client.{FitsClient};
ghost use Rattle.client_core.specs.Files.{IsFileSound, ShowsSound};
ghost use Rattle.client_core.specs.Plans.{IsOp, IsPlace};
ghost use Rattle.fs_base.specs.Config.{Settings};

use client_core::{ClientAnswer, ClientAsk, ClientState, Op, Script};
use fs_base::{ClientId, Code, Config, InodeId, Items, Memory, Place, Reply, Text};
use key_schema::Key;
use std::alloc::{AllocError, Global};
use std::process::Abort;
use std::test::Fail;
use txn_task::Outcome;

/// How many operations have ended, whether the client has, and its ask, a line each. `AT` is the place of the path `/a`
/// from the root.
const TOLD: &str =
    r#"0 false Send { server: 2, request: Request { server: 2, client: ClientId(9), number: 1, stamp: 5, call: Stat(AT) } }
1 false CallEnd { receipts: Items { items: [Receipt { op: 0, number: Some(1), server: Some(1), stamp: 5, call: Stat(AT), reply: Made(InodeId { value: 40 }), committed: true, version: 6, conflicts: Items { items: [(4, Alloc(1))] }, gone: Items { items: [] } }] }, op_ends: true }
1 false Send { server: 2, request: Request { server: 2, client: ClientId(9), number: 2, stamp: 7, call: List(AT) } }
2 true CallEnd { receipts: Items { items: [Receipt { op: 1, number: Some(2), server: Some(1), stamp: 7, call: List(AT), reply: Refused(NotDir), committed: false, version: 8, conflicts: Items { items: [] }, gone: Items { items: [] } }] }, op_ends: true }
2 true Ended
2 true Ended"#;

pub(crate) fn place(alloc: Global) -> Result<Place, Memory>
    ensures { IfOk result (λ place. IsPlace place) }
{
    Ok(Place {
        base: InodeId::root(),
        text: Text::from_slice(alloc, b"/a")?,
    })
}

/// A `stat` at time 5, and a `list` at time 7.
fn two(alloc: Global) -> Result<Items<Op>, Memory>
    ensures few { IfOk result (λ ops. length ops ≤ 4000) }
    ensures valid { IfOk result (λ ops. All IsOp ops) }
{
    let mut ops = Items::new(alloc);
    let place = place(alloc)?;
    ops.push(Op::Stat { stamp: 5, place })?;
    let place = self::place(alloc)?;
    ops.push(Op::List { stamp: 7, place })?;
    Ok(ops)
}

/// A client of server 2 of three.
pub(crate) fn client(alloc: Global, ops: Items<Op>) -> Result<ClientState, Fail>
    requires few { length ops ≤ 4000 }
    requires valid { All IsOp ops }
    ensures idle { IfOk result (λ client. client.request ≡ None) }
    ensures chain { IfOk result (λ client. client.config.chains ≡ 1) }
{
    let config = Config::new(3, 1, 1, 1, 1).ok_or("no configuration")?;
    Ok(ClientState::new(
        alloc,
        Script {
            id: ClientId(9),
            home: 2,
            ops,
        },
        config,
    )?)
}

/// The first request meets a conflict with the key of an inode and is committed; another one is refused.
fn outcome(alloc: Global, number: u64) -> Result<Outcome, Memory>
    ensures { (C : Settings) → IfOk result (λ outcome. IsFileSound C outcome.reply) }
{
    let mut conflicts = Items::new(alloc);
    if number != 1 {
        return Ok(Outcome {
            reply: Reply::Refused(Code::NotDir),
            version: 8,
            committed: false,
            conflicts,
        });
    }
    conflicts.push((4, Key::Alloc(1)))?;
    Ok(Outcome {
        reply: Reply::Made(InodeId::new(40)),
        version: 6,
        committed: true,
        conflicts,
    })
}

pub(crate) fn next(client: &mut ClientState, answer: ClientAnswer) -> Result<ClientAsk, Memory>
    requires fits { FitsClient client.old.request answer }
    requires files { ShowsSound client.old.config answer }
    ensures awaits { IfOk result (λ ask. Awaits client.new.request ask) }
    ensures config { OnOk result (client.new.config ≡ client.old.config) }
{
    let ask = client.next(answer)?;
    Ok(ask)
}

/// The next ask. Server 1 does each request.
fn turn(alloc: Global, client: &mut ClientState, ask: &ClientAsk) -> Result<ClientAsk, Memory>
    requires { Awaits client.old.request ask.now }
    ensures { IfOk result (λ ask. Awaits client.new.request ask) }
{
    match ask {
        ClientAsk::Send { request, .. } => {
            let outcome = outcome(alloc, request.number)?;
            let ask = next(client, ClientAnswer::Replied(1, outcome))?;
            Ok(ask)
        }
        _ => {
            let ask = next(client, ClientAnswer::Next)?;
            Ok(ask)
        }
    }
}

/// How many operations have ended, whether all have, and the ask.
fn line_of(alloc: Global, client: &ClientState, ask: &ClientAsk) -> Result<String, AllocError> {
    let ended = client.has_ended();
    format!(in alloc; "{} {ended} {ask:?}", client.ended_ops())
}

/// The client's ask has to be the line, and is answered.
fn told(
    rt: &(impl Abort + AllocGlobal),
    client: &mut ClientState,
    ask: &ClientAsk,
    line: &str,
) -> Result<ClientAsk, Memory>
    requires { Awaits client.old.request ask.now }
    ensures { IfOk result (λ ask. Awaits client.new.request ask) }
{
    let got = line_of(rt.alloc(), client, ask)?;
    assert_eq!(rt; got.as_str(), line);
    turn(rt.alloc(), client, ask)
}

/// The client's asks, a line each.
fn tells(
    rt: &(impl Abort + AllocGlobal),
    client: &mut ClientState,
    want: &str,
) -> Result<(), Memory>
    requires { client.old.request ≡ None }
{
    let mut ask = next(client, ClientAnswer::Start)?;
    for line in want.split('\n') {
        ask = told(rt, client, &ask, line)?;
    }
    Ok(())
}

#[test]
fn each_operation_is_a_request_and_ends_with_a_receipt(rt: HostRuntime) -> Result<(), Fail> {
    let alloc = rt.alloc();
    let mut client = client(alloc, two(alloc)?)?;
    assert!(rt; !client.has_ended());
    let at = "Place { base: InodeId { value: 0 }, text: Items { items: [47, 97] } }";
    let want = TOLD.replace(alloc, "AT", at)?;
    Ok(tells(&rt, &mut client, want.as_str())?)
}

#[test]
fn a_script_without_operations_has_ended(rt: HostRuntime) -> Result<(), Fail> {
    let alloc = rt.alloc();
    let mut client = client(alloc, Items::new(alloc))?;
    assert!(rt; client.has_ended());
    Ok(tells(&rt, &mut client, "0 true Ended\n0 true Ended")?)
}
