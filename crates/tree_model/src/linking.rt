ghost use Rattle.std.specs.Prelude.{◌≡◌, IfOk};
ghost use Rattle.std.specs.FinMap.{get};
ghost use Rattle.tree_model.specs.Creating.{unless_there};
ghost use Rattle.tree_model.specs.Linking.{is_empty_dir, link, link_at, link_node, link_to, link_under, rmdir, rmdir_at, rmdir_entry, unlink, unlink_at, unlink_entry};
ghost use Rattle.tree_model.specs.Making.{IsPlanOfEffect, fate_of};

use crate::node::NodePart;
use crate::plan::{Fate, Plan};
use crate::tree::Tree;
use crate::walk::{WalkEnd, Walked};
use fs_base::limits::LINK_COUNT;
use fs_base::{Code, InodeId, Kind, Limit, Memory, Name, Place, Request};
use std::alloc::Global;

/// What becomes of a node that loses an entry, by whether it is its last.
pub(crate) fn fate_of(last: bool, part: &NodePart) -> Fate
    ensures { result ≡ fate_of last part.now }
{
    if !last {
        return Fate::Stays;
    }
    match part {
        NodePart::Dir { .. } => Fate::Goes,
        NodePart::File { .. } => Fate::Waits,
        NodePart::Link { .. } => Fate::Goes,
    }
}

impl Tree {
    /// A further entry of a node, under this name.
    fn plan_link_node(&self, request: &Request, id: InodeId, key: (u64, Name)) -> Plan
        ensures { IsPlanOfEffect self.now.tree request.now.server request.now.stamp
            (link_node self.now.tree request.now.stamp id key.0 key.1) result }
    {
        let Some(_node) = self.node(id.get()) else {
            return Plan::Refuse(Code::NotFound);
        };
        if self.count_to(id) == LINK_COUNT as usize {
            return Plan::Refuse(Code::AtLimit(Limit::Links));
        }
        Plan::Join(key, id)
    }

    /// The same, where nothing stands there.
    fn plan_link_entry(&self, request: &Request, id: InodeId, key: (u64, Name)) -> Plan
        ensures { IsPlanOfEffect self.now.tree request.now.server request.now.stamp
            (unless_there (get self.now.tree.entries key) (link_under self.now.tree request.now.stamp id key.0 key.1 (get self.now.tree.nodes key.0)))
            result }
    {
        if self.entry(&key).is_some() {
            return Plan::Refuse(Code::Exists);
        }
        let Some(parent) = self.node(key.0) else {
            return Plan::Refuse(Code::NotDir);
        };
        match &parent.part {
            NodePart::Dir { .. } => self.plan_link_node(request, id, key),
            NodePart::File { .. } => Plan::Refuse(Code::NotDir),
            NodePart::Link { .. } => Plan::Refuse(Code::NotDir),
        }
    }

    fn plan_link_to(&self, request: &Request, id: InodeId, to: Walked) -> Plan
        ensures { IsPlanOfEffect self.now.tree request.now.server request.now.stamp
            (link_to self.now.tree request.now.stamp id to) result }
    {
        match to {
            Walked::At(_, _) => Plan::Refuse(Code::Exists),
            Walked::NoName(_) => Plan::Refuse(Code::Exists),
            Walked::Stopped(code) => Plan::Refuse(code),
            Walked::AtParent(dir, name) => self.plan_link_entry(request, id, (dir.get(), name)),
        }
    }

    fn plan_link_of_kind(&self, request: &Request, kind: Kind, id: InodeId, to: Walked) -> Plan
        ensures { IsPlanOfEffect self.now.tree request.now.server request.now.stamp
            (link_at self.now.tree request.now.stamp (Walked.At id kind) to) result }
    {
        match kind {
            Kind::Dir => Plan::Refuse(Code::IsDir),
            Kind::File => self.plan_link_to(request, id, to),
            Kind::Link => self.plan_link_to(request, id, to),
        }
    }

    fn plan_link_at(&self, request: &Request, from: Walked, to: Walked) -> Plan
        ensures { IsPlanOfEffect self.now.tree request.now.server request.now.stamp
            (link_at self.now.tree request.now.stamp from to) result }
    {
        match from {
            Walked::At(id, kind) => self.plan_link_of_kind(request, kind, id, to),
            Walked::Stopped(code) => Plan::Refuse(code),
            Walked::AtParent(_, _) => Plan::Refuse(Code::NotDir),
            Walked::NoName(_) => Plan::Refuse(Code::NotDir),
        }
    }

    /// A further entry of a file or link.
    pub(crate) fn plan_link(
        &self,
        alloc: Global,
        request: &Request,
        from: &Place,
        to: &Place,
    ) -> Result<Plan, Memory>
        ensures { IfOk result
            (IsPlanOfEffect self.now.tree request.now.server request.now.stamp
            (link self.now.tree request.now.stamp from.now to.now)) }
    {
        let source = match from.path(alloc)? {
            Ok(path) => path,
            Err(code) => return Ok(Plan::Refuse(code)),
        };
        let path = match to.path(alloc)? {
            Ok(path) => path,
            Err(code) => return Ok(Plan::Refuse(code)),
        };
        let found = self.resolve(alloc, from.base, &source, WalkEnd::NoFollow)?;
        let walked = self.resolve(alloc, to.base, &path, WalkEnd::Parent)?;
        Ok(self.plan_link_at(request, found, walked))
    }

    /// Takes the entry at a name away.
    fn plan_unlink_entry(&self, request: &Request, key: (u64, Name)) -> Plan
        ensures { IsPlanOfEffect self.now.tree request.now.server request.now.stamp
            (unlink_entry self.now.tree request.now.stamp key.0 key.1 (get self.now.tree.entries key)) result }
    {
        let Some(id) = self.entry(&key) else {
            return Plan::Refuse(Code::NotFound);
        };
        let Some(node) = self.node(id.get()) else {
            return Plan::Refuse(Code::NotFound);
        };
        if let NodePart::Dir { .. } = &node.part {
            return Plan::Refuse(Code::IsDir);
        }
        let last = self.count_to(id) == 1;
        Plan::Detach(key, id, fate_of(last, &node.part))
    }

    fn plan_unlink_at(&self, request: &Request, walked: Walked) -> Plan
        ensures { IsPlanOfEffect self.now.tree request.now.server request.now.stamp
            (unlink_at self.now.tree request.now.stamp walked) result }
    {
        match walked {
            Walked::At(_, _) => Plan::Refuse(Code::IsRoot),
            Walked::NoName(_) => Plan::Refuse(Code::IsRoot),
            Walked::Stopped(code) => Plan::Refuse(code),
            Walked::AtParent(dir, name) => self.plan_unlink_entry(request, (dir.get(), name)),
        }
    }

    /// A file's or link's entry is taken away.
    pub(crate) fn plan_unlink(
        &self,
        alloc: Global,
        request: &Request,
        place: &Place,
    ) -> Result<Plan, Memory>
        ensures { IfOk result
            (IsPlanOfEffect self.now.tree request.now.server request.now.stamp
            (unlink self.now.tree request.now.stamp place.now)) }
    {
        match place.path(alloc)? {
            Ok(path) => {
                let walked = self.resolve(alloc, place.base, &path, WalkEnd::Parent)?;
                Ok(self.plan_unlink_at(request, walked))
            }
            Err(code) => Ok(Plan::Refuse(code)),
        }
    }

    /// Whether no entry lies in a directory.
    pub(crate) fn is_empty_dir(&self, dir: u64) -> bool
        ensures { result ≡ is_empty_dir self.now.tree dir }
    {
        for (key, id) in self.entries.iter() {
            let _ = id;
            if key.0 == dir {
                return false;
            }
        }
        true
    }

    /// Takes the directory at a name away.
    fn plan_rmdir_entry(&self, request: &Request, key: (u64, Name)) -> Plan
        ensures { IsPlanOfEffect self.now.tree request.now.server request.now.stamp
            (rmdir_entry self.now.tree key.0 key.1 (get self.now.tree.entries key)) result }
    {
        let Some(id) = self.entry(&key) else {
            return Plan::Refuse(Code::NotFound);
        };
        let Some(node) = self.node(id.get()) else {
            return Plan::Refuse(Code::NotFound);
        };
        match &node.part {
            NodePart::Dir { .. } => {
                if self.is_empty_dir(id.get()) {
                    return Plan::Detach(key, id, Fate::Goes);
                }
                Plan::Refuse(Code::NotEmpty)
            }
            NodePart::File { .. } => Plan::Refuse(Code::NotDir),
            NodePart::Link { .. } => Plan::Refuse(Code::NotDir),
        }
    }

    fn plan_rmdir_at(&self, request: &Request, walked: Walked) -> Plan
        ensures { IsPlanOfEffect self.now.tree request.now.server request.now.stamp
            (rmdir_at self.now.tree walked)
            result }
    {
        match walked {
            Walked::At(_, _) => Plan::Refuse(Code::IsRoot),
            Walked::NoName(_) => Plan::Refuse(Code::IsRoot),
            Walked::Stopped(code) => Plan::Refuse(code),
            Walked::AtParent(dir, name) => self.plan_rmdir_entry(request, (dir.get(), name)),
        }
    }

    /// An empty directory is removed.
    pub(crate) fn plan_rmdir(
        &self,
        alloc: Global,
        request: &Request,
        place: &Place,
    ) -> Result<Plan, Memory>
        ensures { IfOk result
            (IsPlanOfEffect self.now.tree request.now.server request.now.stamp
            (rmdir self.now.tree place.now)) }
    {
        match place.path(alloc)? {
            Ok(path) => {
                let walked = self.resolve(alloc, place.base, &path, WalkEnd::Parent)?;
                Ok(self.plan_rmdir_at(request, walked))
            }
            Err(code) => Ok(Plan::Refuse(code)),
        }
    }
}
