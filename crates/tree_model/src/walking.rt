ghost use Rattle.std.specs.Prelude.{◌≡◌, ◌+◌, ◌≤◌, IfOk, MatchOption, if◌then◌else◌};
ghost use Rattle.fs_base.specs.Paths.{path_of};
ghost use Rattle.tree_model.specs.Walk.{resolve};
ghost use Rattle.tree_model.specs.Walking.{end_from, IsMove, IsFollowed};

use crate::names::Names;
use crate::node::NodePart;
use crate::tree::Tree;
use crate::walk::{WalkEnd, Walked};
use fs_base::limits::LINKS_FOLLOWED;
use fs_base::{Code, InodeId, Kind, Memory, Path, PathError, Text};
use std::alloc::Global;

/// A walk under way: where it stands, the names that are left, and how many links it may still follow.
#[derive(Drop)]
pub struct Walk {
    pub end: WalkEnd,
    pub links: u8,
    pub here: InodeId,
    pub rest: Names,
}

/// What one name of a walk comes to.
#[derive(Drop)]
pub enum Move {
    Stop(Walked),
    Down,
    Followed,
}

/// The path that a text stands for, as that of a link, or why it is none.
pub fn path_of(alloc: Global, target: &Text) -> Result<Result<Path, Code>, Memory>
    ensures { IfOk result (λ path. path ≡ path_of target.now) }
{
    match Path::read(alloc, target.as_slice()) {
        Ok(path) => Ok(Ok(path)),
        Err(PathError::BadPath) => Ok(Err(Code::BadPath)),
        Err(PathError::BadName) => Ok(Err(Code::BadName)),
        Err(PathError::Memory) => Err(Memory),
    }
}

/// Where a path starts.
fn start_of(path: &Path, here: InodeId) -> InodeId
    ensures { result ≡ (if path.now.absolute then 0 else here) }
{
    if path.absolute { InodeId::root() } else { here }
}

impl Tree {
    /// One name on.
    fn step(&self, alloc: Global, walk: &mut Walk) -> Result<Move, Memory>
        ensures { IfOk result (λ m. IsMove self.now.tree walk.old walk.new m) }
    {
        let Some(name) = walk.rest.pop() else {
            return Ok(Move::Stop(walk.end.at(walk.here)));
        };
        if walk.end.is_last_of_parent(&walk.rest) {
            return Ok(Move::Stop(Walked::AtParent(walk.here, name)));
        }
        let key = (walk.here.get(), name);
        let Some(id) = self.entry(&key) else {
            return Ok(Move::Stop(Walked::Stopped(Code::NotFound)));
        };
        let Some(node) = self.node(id.get()) else {
            return Ok(Move::Stop(Walked::Stopped(Code::NotFound)));
        };
        match &node.part {
            NodePart::Dir { .. } => {
                walk.here = id;
                Ok(Move::Down)
            }
            NodePart::File { .. } => Ok(Move::Stop(Walked::at_file(id, &walk.rest))),
            NodePart::Link { target } => self.follow(alloc, walk, id, target),
        }
    }

    /// Behind a link, if it is to be followed.
    fn follow(
        &self,
        alloc: Global,
        walk: &mut Walk,
        id: InodeId,
        target: &Text,
    ) -> Result<Move, Memory>
        ensures { IfOk result (λ m. IsFollowed self.now.tree walk.old id target.now walk.new m) }
    {
        if walk.end.is_last_unfollowed(&walk.rest) {
            return Ok(Move::Stop(Walked::At(id, Kind::Link)));
        }
        if walk.links == 0 {
            return Ok(Move::Stop(Walked::Stopped(Code::LinkLoop)));
        }
        let path = match path_of(alloc, target)? {
            Ok(path) => path,
            Err(code) => return Ok(Move::Stop(Walked::Stopped(code))),
        };
        walk.links -= 1;
        walk.here = start_of(&path, walk.here);
        walk.rest.push_all(alloc, &path.names)?;
        Ok(Move::Followed)
    }

    /// The names until the end, or until a link is followed.
    fn run(&self, alloc: Global, walk: &mut Walk) -> Result<Option<Walked>, Memory>
        ensures { IfOk result
            (λ o. MatchOption o
            ((end_from self.now.tree walk.old ≡ end_from self.now.tree walk.new)
            × (walk.new.links + 1 ≡ walk.old.links)) (λ walked. end_from self.now.tree walk.old ≡ walked)) }
    {
        loop {
            match self.step(alloc, walk)? {
                Move::Stop(walked) => return Ok(Some(walked)),
                Move::Down => {}
                Move::Followed => return Ok(None),
            }
        }
    }

    /// From a directory on.
    fn go(&self, alloc: Global, walk: &mut Walk) -> Result<Walked, Memory>
        requires { walk.old.links ≤ LINKS_FOLLOWED }
        ensures { IfOk result (λ walked. end_from self.now.tree walk.old ≡ walked) }
    {
        for followed in 0..11u8 {
            if let Some(walked) = self.run(alloc, walk)? {
                return Ok(walked);
            }
        }
        unreachable!()
    }

    /// Where a path leads from a base, which counts only where the path isn't absolute. It isn't looked at
    /// where a
    /// last name is wanted and the path has none.
    ///
    /// At most ten links are followed.
    #[tactic(auto, using(crate::proofs::WalkLaws::from_here, crate::proofs::WalkLaws::from_a_base))]
    pub fn resolve(
        &self,
        alloc: Global,
        base: InodeId,
        path: &Path,
        end: WalkEnd,
    ) -> Result<Walked, Memory>
        ensures { IfOk result (λ walked. walked ≡ resolve self.now.tree base path.now end) }
    {
        let mut rest = Names::new(alloc);
        rest.push_all(alloc, &path.names)?;
        let here = start_of(path, base);
        if end.looks_at_base(here, &rest) {
            let Some(node) = self.node(here.get()) else {
                return Ok(Walked::Stopped(Code::NotFound));
            };
            let NodePart::Dir { .. } = &node.part else {
                return Ok(Walked::Stopped(Code::NotDir));
            };
        }
        let mut walk = Walk {
            end,
            links: 10,
            here,
            rest,
        };
        self.go(alloc, &mut walk)
    }
}
