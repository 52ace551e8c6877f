ghost use Rattle.std.specs.Prelude.{◌≡◌, IsTrue, IfOk};
ghost use Rattle.row_records.specs.Calls.{is_call};
ghost use Rattle.path_walk.specs.Requests.{IsRequest};
ghost use Rattle.meta_task.specs.declared.waiting.Waiting.TheVariants as waits;

use anyhow::{Result, bail};
use fs_base::{Call, ClientId, Config, Request};
use meta_task::MetaTask;
use path_walk::is_built;
use row_records::{call_read, call_write};
use std::alloc::Global;
use test_support::call_of;

/// The call with its stamp, as it is read from the bytes that are written of it. So its numbers are in their ranges.
fn ranged(alloc: Global, stamp: u64, call: &Call) -> Result<(u64, Call)>
    ensures { IfOk result (λ read. IsTrue (is_call read)) }
{
    let bytes = call_write(alloc, stamp, call)?;
    let read = call_read(alloc, bytes.as_slice())?;
    Ok(read)
}

/// The request of these words, if a server of the configuration takes it.
fn taken(
    config: &Config,
    server: u8,
    client: u128,
    number: u64,
    stamped: (u64, Call),
) -> Result<Request>
    requires { IsTrue (is_call stamped) }
    ensures { IfOk result (λ request. IsRequest config.now request) }
{
    let (stamp, call) = stamped;
    if server >= config.servers() || number == 0 || !is_built(&call) {
        bail!("no server takes this request");
    }
    Ok(Request {
        server,
        client: ClientId(client),
        number,
        stamp,
        call,
    })
}

fn request_of(alloc: Global, config: &Config, words: &[&str], call: &[&str]) -> Result<Request>
    ensures { IfOk result (λ request. IsRequest config.now request) }
{
    let [server, client, number, stamp] = words else {
        bail!("a request has a server, a client, a number and a stamp");
    };
    let server = server.parse::<u8>()?;
    let client = client.parse::<u128>()?;
    let number = number.parse::<u64>()?;
    let stamp = stamp.parse::<u64>()?;
    let call = call_of(alloc, call)?;
    let stamped = ranged(alloc, stamp, &call)?;
    let request = taken(config, server, client, number, stamped)?;
    Ok(request)
}

/// The task of a request in words, before its first step.
pub fn task_of(alloc: Global, config: &Config, words: &[&str]) -> Result<MetaTask>
    ensures { IfOk result (λ task. task.waiting ≡ waits.Fresh) }
{
    let [server, client, number, stamp, attempts, call @ ..] = words else {
        bail!("a request has a server, a client, a number, a stamp and attempts");
    };
    let attempts = attempts.parse::<u8>()?;
    if attempts < 1 || attempts > 64 {
        bail!("no such number of attempts");
    }
    let request = request_of(alloc, config, &[*server, *client, *number, *stamp], call)?;
    let task = MetaTask::new(alloc, request, *config, attempts)?;
    Ok(task)
}
