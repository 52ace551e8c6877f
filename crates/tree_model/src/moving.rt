ghost use Rattle.std.specs.Prelude.{◌≡◌, ◌≢◌, Some, IsSome, IfOk};
ghost use Rattle.std.specs.FinMap.{get};
ghost use Rattle.tree_model.specs.Finding.{if_there};
ghost use Rattle.tree_model.specs.Making.{IsPlanOfEffect};
ghost use Rattle.tree_model.specs.Moving.{dir_over, goes_below, is_below, move_at, move_entry, move_over, move_to, move_under, other_over, reaches, rename, rename_at};

use crate::linking::fate_of;
use crate::node::{Node, NodePart};
use crate::plan::{Fate, Plan, Shift};
use crate::tree::Tree;
use crate::walk::{WalkEnd, Walked};
use fs_base::{Code, InodeId, Memory, Name, Place, Request};
use std::alloc::Global;

impl Tree {
    /// Whether a node is reached from a directory by going down so many entries at most.
    fn reaches(&self, depth: usize, to: u64, from: u64) -> bool
        ensures { result ≡ reaches self.now.tree depth to from }
    {
        if from == to {
            return true;
        }
        if depth == 0 {
            return false;
        }
        for (key, id) in self.entries.iter() {
            if key.0 == from && self.reaches(depth - 1, to, id.get()) {
                return true;
            }
        }
        false
    }

    fn is_below(&self, above: u64, below: u64) -> bool
        ensures { result ≡ is_below self.now.tree above below }
    {
        self.reaches(self.nodes.len(), below, above)
    }

    /// Whether a directory would come to lie in itself, or below.
    fn goes_below(&self, id: InodeId, part: &NodePart, dir: u64) -> bool
        ensures { result ≡ goes_below self.now.tree id part.now dir }
    {
        match part {
            NodePart::Dir { .. } => self.is_below(id.get(), dir),
            NodePart::File { .. } => false,
            NodePart::Link { .. } => false,
        }
    }

    /// A directory in the place of a node.
    fn plan_dir_over(&self, request: &Request, shift: Shift, old: InodeId, part: &NodePart) -> Plan
        requires apart { shift.from ≢ shift.to }
        requires taken { IsSome (get self.now.tree.entries shift.to) }
        requires there { IsSome (get self.now.tree.nodes old) }
        ensures { IsPlanOfEffect self.now.tree request.now.server request.now.stamp
            (dir_over self.now.tree shift.from shift.to shift.id old part.now) result }
    {
        match part {
            NodePart::Dir { .. } => {
                if self.is_empty_dir(old.get()) {
                    return Plan::Replace(shift, old, Fate::Goes);
                }
                Plan::Refuse(Code::NotEmpty)
            }
            NodePart::File { .. } => Plan::Refuse(Code::NotDir),
            NodePart::Link { .. } => Plan::Refuse(Code::NotDir),
        }
    }

    /// A file or link in the place of a node.
    fn plan_other_over(&self, request: &Request, shift: Shift, old: InodeId, node: &Node) -> Plan
        requires apart { shift.from ≢ shift.to }
        requires taken { get self.now.tree.entries shift.to ≡ Some old }
        requires there { get self.now.tree.nodes old ≡ Some node.now }
        ensures { IsPlanOfEffect self.now.tree request.now.server request.now.stamp
            (other_over self.now.tree request.now.stamp shift.from shift.to shift.id old node.now
            node.now.part) result }
    {
        if let NodePart::Dir { .. } = &node.part {
            return Plan::Refuse(Code::IsDir);
        }
        let last = self.count_to(old) == 1;
        Plan::Replace(shift, old, fate_of(last, &node.part))
    }

    /// A node of this kind in the place of another.
    fn plan_move_over(&self, request: &Request, shift: Shift, part: &NodePart, old: InodeId) -> Plan
        requires apart { shift.from ≢ shift.to }
        requires taken { get self.now.tree.entries shift.to ≡ Some old }
        ensures { IsPlanOfEffect self.now.tree request.now.server request.now.stamp
            (if_there (get self.now.tree.nodes old)
            (move_over self.now.tree request.now.stamp shift.from shift.to shift.id old part.now)) result }
    {
        let Some(node) = self.node(old.get()) else {
            return Plan::Refuse(Code::NotFound);
        };
        match part {
            NodePart::Dir { .. } => self.plan_dir_over(request, shift, old, &node.part),
            NodePart::File { .. } => self.plan_other_over(request, shift, old, node),
            NodePart::Link { .. } => self.plan_other_over(request, shift, old, node),
        }
    }

    /// A node of this kind to a place where an entry stands.
    fn plan_move_taken(
        &self,
        request: &Request,
        shift: Shift,
        part: &NodePart,
        old: InodeId,
    ) -> Plan
        requires from { get self.now.tree.entries shift.from ≡ Some shift.id }
        requires taken { get self.now.tree.entries shift.to ≡ Some old }
        ensures { IsPlanOfEffect self.now.tree request.now.server request.now.stamp
            (move_to self.now.tree request.now.stamp shift.from shift.to shift.id part.now (Some old)) result }
    {
        if old.get() == shift.id.get() {
            return Plan::Keep;
        }
        if self.goes_below(shift.id, part, shift.to.0) {
            return Plan::Refuse(Code::IntoItself);
        }
        self.plan_move_over(request, shift, part, old)
    }

    /// A node of this kind to a place, by what stands there.
    fn plan_move_to(&self, request: &Request, shift: Shift, part: &NodePart) -> Plan
        requires { get self.now.tree.entries shift.from ≡ Some shift.id }
        ensures { IsPlanOfEffect self.now.tree request.now.server request.now.stamp
            (move_to self.now.tree request.now.stamp shift.from shift.to shift.id part.now
            (get self.now.tree.entries shift.to)) result }
    {
        if let Some(old) = self.entry(&shift.to) {
            return self.plan_move_taken(request, shift, part, old);
        }
        if self.goes_below(shift.id, part, shift.to.0) {
            return Plan::Refuse(Code::IntoItself);
        }
        Plan::Move(shift)
    }

    /// The same, where the place lies in a directory.
    fn plan_move_under(&self, request: &Request, shift: Shift, part: &NodePart) -> Plan
        requires { get self.now.tree.entries shift.from ≡ Some shift.id }
        ensures { IsPlanOfEffect self.now.tree request.now.server request.now.stamp
            (move_under self.now.tree request.now.stamp shift.from shift.to shift.id part.now
            (get self.now.tree.nodes shift.to.0)) result }
    {
        let Some(parent) = self.node(shift.to.0) else {
            return Plan::Refuse(Code::NotDir);
        };
        match &parent.part {
            NodePart::Dir { .. } => self.plan_move_to(request, shift, part),
            NodePart::File { .. } => Plan::Refuse(Code::NotDir),
            NodePart::Link { .. } => Plan::Refuse(Code::NotDir),
        }
    }

    fn plan_move_at(
        &self,
        request: &Request,
        from: (u64, Name),
        id: InodeId,
        part: &NodePart,
        to: Walked,
    ) -> Plan
        requires { get self.now.tree.entries from ≡ Some id }
        ensures { IsPlanOfEffect self.now.tree request.now.server request.now.stamp
            (move_at self.now.tree request.now.stamp from id part.now to) result }
    {
        match to {
            Walked::At(_, _) => Plan::Refuse(Code::IsRoot),
            Walked::NoName(_) => Plan::Refuse(Code::IsRoot),
            Walked::Stopped(code) => Plan::Refuse(code),
            Walked::AtParent(dir, name) => {
                let to = (dir.get(), name);
                self.plan_move_under(request, Shift { from, to, id }, part)
            }
        }
    }

    fn plan_move_entry(&self, request: &Request, from: (u64, Name), to: Walked) -> Plan
        ensures { IsPlanOfEffect self.now.tree request.now.server request.now.stamp
            (move_entry self.now.tree request.now.stamp from to (get self.now.tree.entries from)) result }
    {
        let Some(id) = self.entry(&from) else {
            return Plan::Refuse(Code::NotFound);
        };
        let Some(node) = self.node(id.get()) else {
            return Plan::Refuse(Code::NotFound);
        };
        self.plan_move_at(request, from, id, &node.part, to)
    }

    fn plan_rename_at(&self, request: &Request, from: Walked, to: Walked) -> Plan
        ensures { IsPlanOfEffect self.now.tree request.now.server request.now.stamp
            (rename_at self.now.tree request.now.stamp from to) result }
    {
        match from {
            Walked::At(_, _) => Plan::Refuse(Code::IsRoot),
            Walked::NoName(_) => Plan::Refuse(Code::IsRoot),
            Walked::Stopped(code) => Plan::Refuse(code),
            Walked::AtParent(dir, name) => self.plan_move_entry(request, (dir.get(), name), to),
        }
    }

    /// An entry to another place.
    pub(crate) fn plan_rename(
        &self,
        alloc: Global,
        request: &Request,
        from: &Place,
        to: &Place,
    ) -> Result<Plan, Memory>
        ensures { IfOk result
            (IsPlanOfEffect self.now.tree request.now.server request.now.stamp
            (rename self.now.tree request.now.stamp from.now to.now)) }
    {
        let source = match from.path(alloc)? {
            Ok(path) => path,
            Err(code) => return Ok(Plan::Refuse(code)),
        };
        let path = match to.path(alloc)? {
            Ok(path) => path,
            Err(code) => return Ok(Plan::Refuse(code)),
        };
        if source.names.is_empty() || path.names.is_empty() {
            return Ok(Plan::Refuse(Code::IsRoot));
        }
        let found = self.resolve(alloc, from.base, &source, WalkEnd::Parent)?;
        let walked = self.resolve(alloc, to.base, &path, WalkEnd::Parent)?;
        Ok(self.plan_rename_at(request, found, walked))
    }
}
