ghost use Rattle.std.specs.Prelude.{◌≡◌, IsSome, IfOk};
ghost use Rattle.std.specs.Option.{option_map};
ghost use Rattle.std.specs.FinMap.{get};
ghost use Rattle.tree_model.specs.Attributes.{changed, touched};
ghost use Rattle.tree_model.specs.Finding.{setattr, setattr_at};
ghost use Rattle.tree_model.specs.Making.{IsPlanOfEffect};
ghost use Rattle.tree_model.specs.Maps.{set};
ghost use Rattle.tree_model.specs.Sessions.{hinted};

use crate::maps::ByNumber;
use crate::node::{Node, NodePart};
use crate::plan::Plan;
use crate::tree::Tree;
use crate::walk::{WalkEnd, Walked};
use fs_base::{Changes, Code, DefaultLayout, Memory, Place, Request};
use std::alloc::Global;

/// Stands in a map while the node there is changed.
fn spare_node() -> Node {
    let layout = DefaultLayout {
        chunk: 1,
        stripe: 1,
    };
    Node::new(0, 0, NodePart::Dir { layout })
}

/// Changes the node of an id in its place. It takes no memory.
#[tactic(auto, using(crate::proofs::Undo::over_by_id, crate::proofs::Undo::there_by_id))]
pub(crate) fn change_node(nodes: &mut ByNumber<Node>, id: u64, changes: Changes, stamp: u64)
    requires { IsSome (get nodes.old id) }
    ensures { nodes.new ≡ set nodes.old id (option_map (changed changes stamp) (get nodes.old id)) }
{
    let node = nodes.replace(id, spare_node());
    nodes.replace(id, node.changed(changes, stamp));
}

/// Gives the node of an id the stamp as its change time. It takes no memory.
#[tactic(auto, using(crate::proofs::Undo::over_by_id, crate::proofs::Undo::there_by_id))]
pub(crate) fn touch_node(nodes: &mut ByNumber<Node>, id: u64, stamp: u64)
    requires { IsSome (get nodes.old id) }
    ensures { nodes.new ≡ set nodes.old id (option_map (touched stamp) (get nodes.old id)) }
{
    let node = nodes.replace(id, spare_node());
    nodes.replace(id, node.touched(stamp));
}

/// Gives the file of an id another hint. It takes no memory.
#[tactic(auto, using(crate::proofs::Undo::over_by_id, crate::proofs::Undo::there_by_id))]
pub(crate) fn hint_node(nodes: &mut ByNumber<Node>, id: u64, hint: u16)
    requires { IsSome (get nodes.old id) }
    ensures { nodes.new ≡ set nodes.old id (option_map (hinted hint) (get nodes.old id)) }
{
    let node = nodes.replace(id, spare_node());
    nodes.replace(id, node.hinted(hint));
}

impl Tree {
    fn plan_change(&self, request: &Request, changes: Changes, walked: Walked) -> Plan
        ensures { IsPlanOfEffect self.now.tree request.now.server request.now.stamp
            (setattr_at self.now.tree request.now.stamp changes walked) result }
    {
        match walked {
            Walked::At(id, _) => match self.node(id.get()) {
                Some(_) => Plan::Change(id.get(), changes),
                None => Plan::Refuse(Code::NotFound),
            },
            Walked::Stopped(code) => Plan::Refuse(code),
            Walked::AtParent(_, _) => Plan::Refuse(Code::NotDir),
            Walked::NoName(_) => Plan::Refuse(Code::NotDir),
        }
    }

    pub(crate) fn plan_setattr(
        &self,
        alloc: Global,
        request: &Request,
        place: &Place,
        changes: Changes,
    ) -> Result<Plan, Memory>
        ensures { IfOk result
            (IsPlanOfEffect self.now.tree request.now.server request.now.stamp
            (setattr self.now.tree request.now.stamp place.now changes)) }
    {
        match place.path(alloc)? {
            Ok(path) => {
                let walked = self.resolve(alloc, place.base, &path, WalkEnd::Follow)?;
                Ok(self.plan_change(request, changes, walked))
            }
            Err(code) => Ok(Plan::Refuse(code)),
        }
    }
}
