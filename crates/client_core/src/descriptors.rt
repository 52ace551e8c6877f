//! What a client keeps of the files that it opens.

ghost use Rattle.std.specs.Prelude.{◌≡◌, IfOk};
ghost use Rattle.client_core.specs.Descriptors.{descriptor_after, descriptor_at, none_open, opened, session_of, told_on, with_descriptor};

use fs_base::{Call, InodeId, Layout, Memory, Reply, Request, Session};
use std::alloc::Global;
use std::marker::Model;
use txn_task::Outcome;

/// Descriptors of a client: 0 to 255.
pub const DESCRIPTORS: usize = 256;

/// What a client keeps of a file that it opened.
#[derive(Clone, Copy, Debug, PartialEq, Eq)]
pub struct Descriptor {
    /// What calls on it are sent with. One that is read-only has number 0.
    pub session: Session,
    pub layout: Layout,
    /// How many places of the layout are in use, as far as it was told.
    pub hint: u16,
    /// How often the file had been truncated.
    pub truncs: u32,
    /// The version of the last call on it that a server didn't refuse.
    pub version: u64,
}

/// The descriptors of a client, by their numbers; each is open or isn't.
#[derive(Debug, Drop)]
pub struct Descriptors {
    kept: Vec<Option<Descriptor>>,
}

impl Model for Descriptors {
    ghost use Rattle.std.specs.Prelude.{◌≡◌, List, Option, length};
    ghost use Rattle.client_core.specs.declared.descriptors.Descriptor.{Descriptor};
    ghost use Rattle.client_core.specs.declared.descriptors.TheConstants.{DESCRIPTORS};

    ghost Value = { List (Option Descriptor) };

    ghost view = { λ d. d.kept.items };

    ghost invariant = { λ d. length d.kept.items ≡ DESCRIPTORS };
}

impl Descriptors {
    /// None is open.
    pub fn new(alloc: Global) -> Result<Descriptors, Memory>
        ensures { IfOk result (λ descriptors. descriptors ≡ none_open) }
    {
        let mut kept = Vec::new(alloc);
        for _ in 0..DESCRIPTORS {
            kept.push(None)?;
        }
        Ok(Descriptors { kept })
    }

    /// What is kept of this one, if there is one and it is open.
    pub fn at(&self, fd: Option<u8>) -> Option<Descriptor>
        ensures { result ≡ descriptor_at self.now fd }
    {
        let Some(fd) = fd else {
            return None;
        };
        self.kept[usize::from(fd)]
    }

    /// Keeps something else of this one, if there is one.
    pub fn put(&mut self, fd: Option<u8>, descriptor: Option<Descriptor>)
        ensures { self.new ≡ with_descriptor self.old fd descriptor }
    {
        if let Some(fd) = fd {
            self.kept[usize::from(fd)] = descriptor;
        }
    }
}

/// What a call on a descriptor is sent with.
pub(crate) fn session_of(descriptor: Option<Descriptor>) -> Session
    ensures { result ≡ session_of descriptor }
{
    match descriptor {
        Some(descriptor) => descriptor.session,
        None => Session {
            inode: InodeId::root(),
            number: 0,
        },
    }
}

/// A descriptor whose open or openr was answered.
fn opened(number: u64, outcome: &Outcome) -> Option<Descriptor>
    ensures { result ≡ opened number outcome.now.version outcome.now.reply }
{
    match &outcome.reply {
        Reply::File(info) => Some(Descriptor {
            session: Session {
                inode: info.inode,
                number,
            },
            layout: info.layout,
            hint: info.hint,
            truncs: info.truncs,
            version: outcome.version,
        }),
        _ => None,
    }
}

/// An open descriptor, once another call on it was answered.
fn told_on(outcome: &Outcome, descriptor: Descriptor) -> Descriptor
    ensures { result ≡ told_on outcome.now.version outcome.now.reply descriptor }
{
    match &outcome.reply {
        Reply::Refused(_) => descriptor,
        _ => {
            let mut told = descriptor;
            told.version = outcome.version;
            told
        }
    }
}

/// What is kept of a descriptor once a call on it was answered.
pub(crate) fn descriptor_after(
    request: &Request,
    outcome: &Outcome,
    before: Option<Descriptor>,
) -> Option<Descriptor>
    ensures { result ≡ descriptor_after request.now outcome.now before }
{
    match &request.call {
        Call::Open(_) => opened(request.number, outcome),
        Call::Openr(_) => opened(0, outcome),
        _ => match before {
            Some(descriptor) => Some(told_on(outcome, descriptor)),
            None => None,
        },
    }
}
