ghost use Rattle.std.specs.Prelude.{◌≡◌, ◌<◌, IfOk};
ghost use Rattle.std.specs.FinMap.{get};
ghost use Rattle.tree_model.specs.Creating.{admits_given, unless_there, add_child, make_at, make, symlink};
ghost use Rattle.tree_model.specs.Making.{IsPlanOfEffect};

use crate::new_node::NewNode;
use crate::node::{Node, NodePart};
use crate::plan::{Child, Plan};
use crate::tree::Tree;
use crate::walk::{WalkEnd, Walked};
use crate::walking::path_of;
use fs_base::limits::SERVERS;
use fs_base::{Code, Config, DefaultLayout, InodeId, Limit, Memory, Name, Place, Request, Text};
use std::alloc::Global;

/// Whether a call may give this default layout: none, or one that the configuration admits.
pub fn is_layout(config: &Config, given: Option<DefaultLayout>) -> bool
    ensures { result ≡ admits_given config.now given }
{
    match given {
        None => true,
        Some(layout) => config.admits(layout),
    }
}

impl Tree {
    /// A new node under this name, where nothing stands there.
    fn plan_child(&self, request: &Request, new: NewNode, key: (u64, Name)) -> Plan
        requires { request.now.server < SERVERS }
        ensures { IsPlanOfEffect self.now.tree request.now.server request.now.stamp
            (unless_there (get self.now.tree.entries key) (add_child self.now.config self.now.tree request.now.server request.now.stamp new key.0 key.1 (get self.now.tree.nodes key.0)))
            result }
    {
        if self.entry(&key).is_some() {
            return Plan::Refuse(Code::Exists);
        }
        let Some(parent) = self.node(key.0) else {
            return Plan::Refuse(Code::NotDir);
        };
        let NodePart::Dir { layout } = &parent.part else {
            return Plan::Refuse(Code::NotDir);
        };
        let number = self.next_number(request.server);
        if number == u32::MAX {
            return Plan::Refuse(Code::AtLimit(Limit::Inodes));
        }
        let id = InodeId::new(16 * u64::from(number) + u64::from(request.server));
        let part = new.part.at(&self.config, id, new.layout.unwrap_or(*layout));
        let node = Node::new(new.mode, request.stamp, part);
        Plan::Add(Child {
            key,
            number,
            id,
            node,
        })
    }

    fn plan_at(&self, request: &Request, new: NewNode, walked: Walked) -> Plan
        requires { request.now.server < SERVERS }
        ensures { IsPlanOfEffect self.now.tree request.now.server request.now.stamp
            (make_at self.now.config self.now.tree request.now.server request.now.stamp new walked) result }
    {
        match walked {
            Walked::At(_, _) => Plan::Refuse(Code::Exists),
            Walked::NoName(_) => Plan::Refuse(Code::Exists),
            Walked::Stopped(code) => Plan::Refuse(code),
            Walked::AtParent(dir, name) => self.plan_child(request, new, (dir.get(), name)),
        }
    }

    /// A directory or a file.
    pub(crate) fn plan_make(
        &self,
        alloc: Global,
        request: &Request,
        place: &Place,
        new: NewNode,
    ) -> Result<Plan, Memory>
        requires { request.now.server < SERVERS }
        ensures { IfOk result
            (IsPlanOfEffect self.now.tree request.now.server request.now.stamp
            (make self.now.config self.now.tree request.now.server request.now.stamp new place.now)) }
    {
        let path = match place.path(alloc)? {
            Ok(path) => path,
            Err(code) => return Ok(Plan::Refuse(code)),
        };
        if !is_layout(&self.config, new.layout) {
            return Ok(Plan::Refuse(Code::BadLayout));
        }
        let walked = self.resolve(alloc, place.base, &path, WalkEnd::Parent)?;
        Ok(self.plan_at(request, new, walked))
    }

    pub(crate) fn plan_symlink(
        &self,
        alloc: Global,
        request: &Request,
        place: &Place,
        target: &Text,
    ) -> Result<Plan, Memory>
        requires { request.now.server < SERVERS }
        ensures { IfOk result
            (IsPlanOfEffect self.now.tree request.now.server request.now.stamp
            (symlink self.now.config self.now.tree request.now.server request.now.stamp place.now target.now)) }
    {
        let path = match place.path(alloc)? {
            Ok(path) => path,
            Err(code) => return Ok(Plan::Refuse(code)),
        };
        if let Err(code) = path_of(alloc, target)? {
            return Ok(Plan::Refuse(code));
        }
        let walked = self.resolve(alloc, place.base, &path, WalkEnd::Parent)?;
        let new = NewNode::link(target.try_clone()?);
        Ok(self.plan_at(request, new, walked))
    }
}
