ghost use Rattle.std.specs.Prelude.{◌≡◌, IfOk};
ghost use Rattle.tree_model.specs.Effects.{Leaves};
ghost use Rattle.tree_model.specs.Finding.{entry_in, names_in, lookup, stat, stat_at, list, list_at, readlink, readlink_at, target_of};

use crate::node::NodePart;
use crate::tree::Tree;
use crate::walk::{WalkEnd, Walked};
use fs_base::{Code, DirEntry, InodeId, Items, Kind, Memory, Name, Place, Reply, Text};
use std::alloc::Global;

impl Tree {
    pub(crate) fn lookup(&self, alloc: Global, place: &Place) -> Result<Reply, Memory>
        ensures { IfOk result (λ reply. lookup self.now.tree place.now ≡ Leaves reply) }
    {
        match place.path(alloc)? {
            Ok(path) => {
                let walked = self.resolve(alloc, place.base, &path, WalkEnd::NoFollow)?;
                Ok(walked.found())
            }
            Err(code) => Ok(Reply::Refused(code)),
        }
    }

    fn stat_at(&self, walked: Walked) -> Reply
        ensures { stat_at self.now.tree walked ≡ Leaves result }
    {
        match walked {
            Walked::At(id, _) => match self.node(id.get()) {
                Some(node) => Reply::Attr(self.attributes(id, node)),
                None => Reply::Refused(Code::NotFound),
            },
            Walked::Stopped(code) => Reply::Refused(code),
            Walked::AtParent(_, _) => Reply::Refused(Code::NotDir),
            Walked::NoName(_) => Reply::Refused(Code::NotDir),
        }
    }

    pub(crate) fn stat(&self, alloc: Global, place: &Place) -> Result<Reply, Memory>
        ensures { IfOk result (λ reply. stat self.now.tree place.now ≡ Leaves reply) }
    {
        match place.path(alloc)? {
            Ok(path) => {
                let walked = self.resolve(alloc, place.base, &path, WalkEnd::Follow)?;
                Ok(self.stat_at(walked))
            }
            Err(code) => Ok(Reply::Refused(code)),
        }
    }

    /// What is listed for an entry, if it is one of this directory.
    fn entry_in(
        &self,
        alloc: Global,
        dir: u64,
        key: &(u64, Name),
        id: InodeId,
    ) -> Result<Option<DirEntry>, Memory>
        ensures { IfOk result (λ entry. entry ≡ entry_in self.now.tree dir (key.now, id)) }
    {
        if key.0 != dir {
            return Ok(None);
        }
        let Some(node) = self.node(id.get()) else {
            return Ok(None);
        };
        let kind = node.part.kind();
        let name = Text::from_slice(alloc, key.1.bytes())?;
        Ok(Some(DirEntry {
            name,
            inode: id,
            kind,
        }))
    }

    fn names_in(&self, alloc: Global, dir: u64) -> Result<Items<DirEntry>, Memory>
        ensures { IfOk result (λ names. names ≡ names_in self.now.tree dir) }
    {
        let mut names = Items::new(alloc);
        for (key, id) in self.entries.iter() {
            if let Some(entry) = self.entry_in(alloc, dir, key, *id)? {
                names.push(entry)?;
            }
        }
        Ok(names)
    }

    fn list_of_kind(&self, alloc: Global, kind: Kind, id: InodeId) -> Result<Reply, Memory>
        ensures { IfOk result (λ reply. list_at self.now.tree (Walked.At id kind) ≡ Leaves reply) }
    {
        match kind {
            Kind::Dir => Ok(Reply::Names(self.names_in(alloc, id.get())?)),
            Kind::File => Ok(Reply::Refused(Code::NotDir)),
            Kind::Link => Ok(Reply::Refused(Code::NotDir)),
        }
    }

    fn list_at(&self, alloc: Global, walked: Walked) -> Result<Reply, Memory>
        ensures { IfOk result (λ reply. list_at self.now.tree walked ≡ Leaves reply) }
    {
        match walked {
            Walked::At(id, kind) => self.list_of_kind(alloc, kind, id),
            Walked::Stopped(code) => Ok(Reply::Refused(code)),
            Walked::AtParent(_, _) => Ok(Reply::Refused(Code::NotDir)),
            Walked::NoName(_) => Ok(Reply::Refused(Code::NotDir)),
        }
    }

    pub(crate) fn list(&self, alloc: Global, place: &Place) -> Result<Reply, Memory>
        ensures { IfOk result (λ reply. list self.now.tree place.now ≡ Leaves reply) }
    {
        match place.path(alloc)? {
            Ok(path) => {
                let dir = self.resolve(alloc, place.base, &path, WalkEnd::Follow)?;
                self.list_at(alloc, dir)
            }
            Err(code) => Ok(Reply::Refused(code)),
        }
    }

    fn readlink_of_kind(&self, kind: Kind, id: InodeId) -> Result<Reply, Memory>
        ensures { IfOk result (λ reply. readlink_at self.now.tree (Walked.At id kind) ≡ Leaves reply) }
    {
        match kind {
            Kind::Dir => Ok(Reply::Refused(Code::NotLink)),
            Kind::File => Ok(Reply::Refused(Code::NotLink)),
            Kind::Link => match self.node(id.get()) {
                Some(node) => target_of(&node.part),
                None => Ok(Reply::Refused(Code::NotFound)),
            },
        }
    }

    fn readlink_at(&self, walked: Walked) -> Result<Reply, Memory>
        ensures { IfOk result (λ reply. readlink_at self.now.tree walked ≡ Leaves reply) }
    {
        match walked {
            Walked::At(id, kind) => self.readlink_of_kind(kind, id),
            Walked::Stopped(code) => Ok(Reply::Refused(code)),
            Walked::AtParent(_, _) => Ok(Reply::Refused(Code::NotDir)),
            Walked::NoName(_) => Ok(Reply::Refused(Code::NotDir)),
        }
    }

    pub(crate) fn readlink(&self, alloc: Global, place: &Place) -> Result<Reply, Memory>
        ensures { IfOk result (λ reply. readlink self.now.tree place.now ≡ Leaves reply) }
    {
        match place.path(alloc)? {
            Ok(path) => {
                let link = self.resolve(alloc, place.base, &path, WalkEnd::NoFollow)?;
                self.readlink_at(link)
            }
            Err(code) => Ok(Reply::Refused(code)),
        }
    }
}

fn target_of(part: &NodePart) -> Result<Reply, Memory>
    ensures { IfOk result (λ reply. target_of part.now ≡ Leaves reply) }
{
    match part {
        NodePart::Dir { .. } => Ok(Reply::Refused(Code::NotLink)),
        NodePart::File { .. } => Ok(Reply::Refused(Code::NotLink)),
        NodePart::Link { target } => Ok(Reply::Target(target.try_clone()?)),
    }
}
