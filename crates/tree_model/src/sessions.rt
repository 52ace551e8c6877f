ghost use Rattle.std.specs.Prelude.{◌≡◌, IfOk};
ghost use Rattle.std.specs.Option.{option_copied};
ghost use Rattle.tree_model.specs.Effects.{Leaves};
ghost use Rattle.tree_model.specs.Making.{IsPlanOfEffect};
ghost use Rattle.tree_model.specs.Sessions.{doubled, extend, file_there, fstat, has_session, hint_over, open_to_read, open_to_write, open_to_write_at, opened_at, opened_node, session_file};

use crate::node::Node;
use crate::plan::Plan;
use crate::tree::Tree;
use crate::walk::{WalkEnd, Walked};
use fs_base::{ClientId, Code, FileInfo, InodeId, Kind, Memory, Place, Reply, Request, Session};
use std::alloc::Global;

/// The hint doubled until it is above the place, sixteen times at most.
fn doubled(place: u16, hint: u16) -> u32
    ensures { result ≡ doubled 16 place hint }
{
    let place = u32::from(place);
    let mut doubled = u32::from(hint);
    for _ in 0u32..16 {
        if place < doubled {
            return doubled;
        }
        doubled += doubled;
    }
    doubled
}

/// The hint that brings a place of a layout into use: the hint doubled until it is above the place, at most to
/// the stripe. One that is above the place stays.
pub fn hint_over(stripe: u16, place: u16, hint: u16) -> u16
    ensures { result ≡ hint_over stripe place hint }
{
    if place < hint {
        return hint;
    }
    let doubled = doubled(place, hint);
    if u32::from(stripe) < doubled {
        stripe
    } else {
        doubled as u16
    }
}

fn opened_node(id: InodeId, node: Option<&Node>) -> Result<FileInfo, Code>
    ensures { result ≡ opened_node id (option_copied node.entry) }
{
    match node {
        Some(node) => node.part.file(id).ok_or(Code::IsDir),
        None => Err(Code::NotFound),
    }
}

impl Tree {
    fn opened_of_kind(&self, kind: Kind, id: InodeId) -> Result<FileInfo, Code>
        ensures { result ≡ opened_at self.now.tree (Walked.At id kind) }
    {
        match kind {
            Kind::Dir => Err(Code::IsDir),
            Kind::File => opened_node(id, self.node(id.get())),
            Kind::Link => opened_node(id, self.node(id.get())),
        }
    }

    /// The file where a walk ends that follows links.
    fn opened_at(&self, walked: Walked) -> Result<FileInfo, Code>
        ensures { result ≡ opened_at self.now.tree walked }
    {
        match walked {
            Walked::At(id, kind) => self.opened_of_kind(kind, id),
            Walked::Stopped(code) => Err(code),
            Walked::AtParent(_, _) => Err(Code::NotDir),
            Walked::NoName(_) => Err(Code::NotDir),
        }
    }

    pub(crate) fn open_to_read(&self, alloc: Global, place: &Place) -> Result<Reply, Memory>
        ensures { IfOk result (λ reply. open_to_read self.now.tree place.now ≡ Leaves reply) }
    {
        match place.path(alloc)? {
            Ok(path) => {
                let walked = self.resolve(alloc, place.base, &path, WalkEnd::Follow)?;
                match self.opened_at(walked) {
                    Ok(file) => Ok(Reply::File(file)),
                    Err(code) => Ok(Reply::Refused(code)),
                }
            }
            Err(code) => Ok(Reply::Refused(code)),
        }
    }

    fn plan_open_at(&self, request: &Request, walked: Walked) -> Plan
        ensures { IsPlanOfEffect self.now.tree request.now.server request.now.stamp
            (open_to_write_at self.now.tree request.now.client request.now.number walked) result }
    {
        match self.opened_at(walked) {
            Ok(file) => Plan::Open((file.inode.get(), (request.client.0, request.number)), file),
            Err(code) => Plan::Refuse(code),
        }
    }

    /// A file is opened for writing.
    pub(crate) fn plan_open(
        &self,
        alloc: Global,
        request: &Request,
        place: &Place,
    ) -> Result<Plan, Memory>
        ensures { IfOk result
            (IsPlanOfEffect self.now.tree request.now.server request.now.stamp
            (open_to_write self.now.tree request.now.client request.now.number place.now)) }
    {
        match place.path(alloc)? {
            Ok(path) => {
                let walked = self.resolve(alloc, place.base, &path, WalkEnd::Follow)?;
                Ok(self.plan_open_at(request, walked))
            }
            Err(code) => Ok(Plan::Refuse(code)),
        }
    }

    /// Whether a client has this session.
    fn has_session(&self, client: ClientId, session: &Session) -> bool
        ensures { result ≡ has_session self.now.tree client session.now }
    {
        if session.number == 0 {
            return false;
        }
        let key = (session.inode.get(), (client.0, session.number));
        self.writers.get(key).is_some()
    }

    /// The file of a session.
    fn session_file(&self, client: ClientId, session: &Session) -> Result<FileInfo, Code>
        ensures { result ≡ session_file self.now.tree client session.now }
    {
        if !self.has_session(client, session) {
            return Err(Code::NoSession);
        }
        let id = InodeId::new(session.inode.get());
        match self.node(id.get()) {
            Some(node) => node.part.file(id).ok_or(Code::NoSession),
            None => Err(Code::NoSession),
        }
    }

    pub(crate) fn fstat(&self, client: ClientId, session: &Session) -> Reply
        ensures { fstat self.now.tree client session.now ≡ Leaves result }
    {
        match self.session_file(client, session) {
            Ok(file) => Reply::File(file),
            Err(code) => Reply::Refused(code),
        }
    }

    /// A place of a session's file is brought into use.
    pub(crate) fn plan_extend(&self, request: &Request, session: &Session, place: u16) -> Plan
        ensures { IsPlanOfEffect self.now.tree request.now.server request.now.stamp
            (extend self.now.tree request.now.client session.now place) result }
    {
        let file = match self.session_file(request.client, session) {
            Ok(file) => file,
            Err(code) => return Plan::Refuse(code),
        };
        if place < file.layout.stripe {
            Plan::Extend(file.inode, hint_over(file.layout.stripe, place, file.hint))
        } else {
            Plan::Refuse(Code::ShortHint)
        }
    }
}
