ghost use Rattle.std.specs.Prelude.{◌≡◌, ◌<◌, None, false, true, option_map, slice_get, IfOk, IfSome, OnOk, OnErr};
ghost use Rattle.client_core.specs.Awaiting.{Awaits};
ghost use Rattle.client_core.specs.Client.{client_step, end_call, fd_at, has_ended, new_client, next_request, send, send_again, server_after, FitsClient, IsSending};
ghost use Rattle.client_core.specs.Files.{AreDescriptorsSound, IsFileSound, ShowsSound};
ghost use Rattle.client_core.specs.Ops.{session_for};
ghost use Rattle.client_core.specs.Plans.{IsScript};
ghost use Rattle.path_walk.specs.Requests.{IsRequest};

use crate::descriptors::{Descriptors, descriptor_after, session_of};
use crate::messages::{ClientAnswer, ClientAsk};
use crate::plan::{Op, Script};
use crate::steps::{copy_for, copy_of, fd_of, receipts_of, request_of};
use fs_base::{ClientId, Config, Items, Memory, Request, Session};
use std::alloc::Global;
use std::marker::Model;
use txn_task::Outcome;

/// A client on its way through its script.
///
/// Its requests are numbered from 1 and go to its present server; each call ends with one receipt.
#[derive(Debug, Drop)]
pub struct ClientState {
    alloc: Global,
    config: Config,
    script: Script,
    op: u16,
    /// How many request numbers are used.
    number: u64,
    /// The one that it sends to.
    server: u8,
    /// What it has open.
    descriptors: Descriptors,
    /// The stops that took away the request of the call under way.
    gone: Items<(u8, u32)>,
    /// The one under way.
    request: Option<Request>,
    failed: bool,
}

impl Model for ClientState {
    ghost use Rattle.client_core.specs.Client.{ClientView};
    ghost use Rattle.client_core.specs.Moved.{IsUnderWay};

    ghost Value = { ClientView };

    ghost view = { λ c. record {
      config = c.config;
      script = c.script;
      op = c.op;
      number = c.number;
      server = c.server;
      descriptors = c.descriptors;
      gone = c.gone;
      request = c.request;
      failed = c.failed;
    } };

    ghost invariant = { λ c. IsUnderWay
        (record {
          config = c.config;
          script = c.script;
          op = c.op;
          number = c.number;
          server = c.server;
          descriptors = c.descriptors;
          gone = c.gone;
          request = c.request;
          failed = c.failed;
        }) };
}

impl ClientState {
    /// A client that has done nothing yet.
    pub fn new(alloc: Global, script: Script, config: Config) -> Result<ClientState, Memory>
        requires { IsScript config.servers script }
        ensures { IfOk result (λ client. client ≡ new_client config script) }
    {
        let server = script.home;
        Ok(ClientState {
            alloc,
            config,
            script,
            op: 0,
            number: 0,
            server,
            descriptors: Descriptors::new(alloc)?,
            gone: Items::new(alloc),
            request: None,
            failed: false,
        })
    }

    /// The next ask. The answer fits the last one; the first is `Start`.
    ///
    /// A client that had no memory for it answers want of memory from then on: what it was answered is lost.
    pub fn next(&mut self, answer: ClientAnswer) -> Result<ClientAsk, Memory>
        requires fits { FitsClient self.old.request answer }
        requires files { ShowsSound self.old.config answer }
        ensures alive { OnOk result (self.old.failed ≡ false) }
        ensures client { OnOk result (self.new ≡ (client_step self.old answer).0) }
        ensures ask { IfOk result (λ ask. ask ≡ (client_step self.old answer).1) }
        ensures valid { IfOk result (λ ask. IsSending self.old.config ask) }
        ensures awaits { IfOk result (λ ask. Awaits self.new.request ask) }
        ensures err { OnErr result (self.new ≡ record self.old { failed = true }) }
    {
        if self.failed {
            return Err(Memory);
        }
        self.failed = true;
        let ask = self.step(answer)?;
        self.failed = false;
        Ok(ask)
    }

    fn step(&mut self, answer: ClientAnswer) -> Result<ClientAsk, Memory>
        requires fits { FitsClient self.old.request answer }
        requires files { ShowsSound self.old.config answer }
        ensures client { OnOk result (self.new ≡ (client_step self.old answer).0) }
        ensures ask { IfOk result (λ ask. ask ≡ (client_step self.old answer).1) }
        ensures valid { IfOk result (λ ask. IsSending self.old.config ask) }
        ensures awaits { IfOk result (λ ask. Awaits self.new.request ask) }
        ensures err { OnErr result (self.new ≡ self.old) }
    {
        match answer {
            ClientAnswer::Replied(server, outcome) => {
                let ask = self.end_call(server, outcome)?;
                Ok(ask)
            }
            ClientAnswer::Gone { server, stop } => {
                let ask = self.send_again(server, stop)?;
                Ok(ask)
            }
            _ => {
                let ask = self.send()?;
                Ok(ask)
            }
        }
    }

    /// What a call on an operation's descriptor is sent with.
    fn session_for(&self, step: &Op) -> Session
        ensures { result ≡ session_for self.now.descriptors step.now }
    {
        session_of(self.descriptors.at(fd_of(step)))
    }

    /// The next operation's request, if there is one.
    fn next_request(&self) -> Result<Option<Request>, Memory>
        requires { self.now.request ≡ None }
        ensures gives { IfOk result
            (λ request. request
            ≡ option_map (next_request self.now) (slice_get self.now.script.ops self.now.op)) }
        ensures valid { IfOk result (λ request. IfSome request (IsRequest self.now.config)) }
    {
        let Some(step) = self.script.ops.as_slice().get(usize::from(self.op)) else {
            return Ok(None);
        };
        let session = self.session_for(step);
        let request = request_of(
            self.alloc,
            self.config,
            self.script.id,
            self.server,
            self.number + 1,
            session,
            step,
        )?;
        Ok(Some(request))
    }

    /// Sends the next operation's request, if there is one.
    fn send(&mut self) -> Result<ClientAsk, Memory>
        requires { self.old.request ≡ None }
        ensures client { OnOk result (self.new ≡ (send self.old (slice_get self.old.script.ops self.old.op)).0) }
        ensures ask { IfOk result (λ ask. ask ≡ (send self.old (slice_get self.old.script.ops self.old.op)).1) }
        ensures valid { IfOk result (λ ask. IsSending self.old.config ask) }
        ensures awaits { IfOk result (λ ask. Awaits self.new.request ask) }
        ensures err { OnErr result (self.new ≡ self.old) }
    {
        let Some(request) = self.next_request()? else {
            return Ok(ClientAsk::Ended);
        };
        let copy = copy_of(self.alloc, &request)?;
        self.number += 1;
        self.request = Some(copy);
        Ok(ClientAsk::Send {
            server: self.server,
            request,
        })
    }

    /// The one behind the present one.
    fn next_server(&self) -> u8
        ensures value { result ≡ server_after self.now.config self.now.server }
        ensures below { result < self.now.config.servers }
    {
        let servers = self.config.servers();
        (self.server + 1) % servers
    }

    /// Sends the request under way to the next server, since the one that had it stopped.
    fn send_again(&mut self, server: u8, stop: u32) -> Result<ClientAsk, Memory>
        ensures client { OnOk result (self.new ≡ (send_again self.old (server, stop) self.old.request).0) }
        ensures ask { IfOk result (λ ask. ask ≡ (send_again self.old (server, stop) self.old.request).1) }
        ensures valid { IfOk result (λ ask. IsSending self.old.config ask) }
        ensures awaits { IfOk result (λ ask. Awaits self.new.request ask) }
        ensures err { OnErr result (self.new ≡ self.old) }
    {
        let Some(request) = &self.request else {
            return Ok(ClientAsk::Ended);
        };
        let next = self.next_server();
        let request = copy_for(self.alloc, request, next)?;
        let copy = copy_of(self.alloc, &request)?;
        self.gone.push((server, stop))?;
        self.server = next;
        self.request = Some(copy);
        Ok(ClientAsk::Send {
            server: next,
            request,
        })
    }

    /// The descriptor of the operation under way, if it has one.
    fn fd(&self) -> Option<u8>
        ensures { result ≡ fd_at self.now.script.ops self.now.op }
    {
        match self.script.ops.as_slice().get(usize::from(self.op)) {
            Some(step) => fd_of(step),
            None => None,
        }
    }

    /// Ends the operation under way.
    fn end_call(&mut self, server: u8, outcome: Outcome) -> Result<ClientAsk, Memory>
        requires { IsFileSound self.old.config outcome.reply }
        ensures client { OnOk result (self.new ≡ (end_call self.old server outcome self.old.request).0) }
        ensures ask { IfOk result (λ ask. ask ≡ (end_call self.old server outcome self.old.request).1) }
        ensures valid { IfOk result (λ ask. IsSending self.old.config ask) }
        ensures awaits { IfOk result (λ ask. Awaits self.new.request ask) }
        ensures err { OnErr result (self.new ≡ self.old) }
    {
        let fd = self.fd();
        let Some(request) = &self.request else {
            return Ok(ClientAsk::Ended);
        };
        let descriptor = descriptor_after(request, &outcome, self.descriptors.at(fd));
        let receipts = receipts_of(self.alloc, self.op, request, server, &self.gone, outcome)?;
        self.descriptors.put(fd, descriptor);
        self.op += 1;
        self.gone = Items::new(self.alloc);
        self.request = None;
        Ok(ClientAsk::CallEnd {
            receipts,
            op_ends: true,
        })
    }

    pub fn id(&self) -> ClientId
        ensures { result ≡ self.now.script.id }
    {
        self.script.id
    }

    /// Whether nothing is under way and nothing left.
    pub fn has_ended(&self) -> bool
        ensures { result ≡ has_ended self.now }
    {
        self.request.is_none() && self.script.ops.len() <= usize::from(self.op)
    }

    /// A copy of the request under way, as it was sent last.
    pub fn pending(&self) -> Result<Option<Request>, Memory>
        ensures is { IfOk result (λ request. request ≡ self.now.request) }
        ensures valid { IfOk result (λ request. IfSome request (IsRequest self.now.config)) }
    {
        match &self.request {
            Some(request) => Ok(Some(copy_of(self.alloc, request)?)),
            None => Ok(None),
        }
    }

    /// How many operations have ended.
    pub fn ended_ops(&self) -> u16
        ensures { result ≡ self.now.op }
    {
        self.op
    }
}
