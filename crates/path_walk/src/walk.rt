ghost use Rattle.std.specs.Prelude.{◌≡◌, ◌≢◌, ◌+◌, false, true, Err, drop, IfOk, OnOk, OnErr, IfErr, IfSome, MatchOption, if◌then◌else◌};
ghost use Rattle.fs_base.specs.Paths.{path_of};
ghost use Rattle.tree_model.specs.Tree.{Tree};
ghost use Rattle.tree_model.specs.Walk.{at_file, is_last_of_parent, is_last_unfollowed, travel};
ghost use Rattle.path_walk.specs.Walks.{IsStart, trip_of, KeepsTrip, IsWalkStep, IsEnd, IsWalkMove, IsAtLink, IsFollowStep, walk_refusal};
ghost use Rattle.path_walk.specs.declared.walk.WalkError.TheVariants as errors;

use fs_base::limits::LINKS_FOLLOWED;
use fs_base::{Code, InodeId, Kind, Memory, Name, Path, PathError, Place, Text};
use inode_record::InodePart;
use std::alloc::Global;
use thiserror::Error;
use tree_model::{Names, WalkEnd, path_of};
use txn_task::{Ask, Txn, Want, want_dent, want_inode};

/// Where a walk has come: an ask, its end, or why it goes no further.
#[derive(Debug, Drop)]
pub enum WalkStep {
    /// A key that has to be read first.
    Ask(Ask),
    /// At a node.
    At(InodeId, Kind),
    /// At a directory, before the last name, which isn't looked up.
    Parent(InodeId, Name),
    /// At a directory, where a last name was wanted and there is none.
    NoName(InodeId),
    /// No further, and why.
    Refused(Code),
}

/// Why no walk begins.
#[derive(Clone, Copy, Debug, PartialEq, Eq, Error)]
pub enum WalkError {
    #[error("not a path")]
    BadPath,
    #[error("a component is no name")]
    BadName,
    #[error("out of memory")]
    Memory,
}

impl From<Memory> for WalkError {
    ghost from_gives = { λ _ e. e ≡ errors.Memory };

    fn from(_e: Memory) -> WalkError {
        WalkError::Memory
    }
}

/// A walk under way.
#[derive(Debug, Drop)]
pub struct Walk {
    pub end: WalkEnd,
    /// Whether `here` is a base that has still to be looked at.
    pub at_base: bool,
    /// How many links may still be followed: 10 at the start.
    pub links: u8,
    /// The directory where it stands.
    pub here: InodeId,
    /// The names that are left.
    pub rest: Names,
    /// Whether memory ran out on the way.
    pub failed: bool,
}

/// What one name of a walk comes to.
#[derive(Drop)]
enum Move {
    Stop(WalkStep),
    Down,
    Followed,
}

/// Whether a walk ends before its next name.
fn stops_at_parent(end: WalkEnd, rest: &Names) -> bool
    ensures { result ≡ is_last_of_parent end (drop 1 rest.now) }
{
    match end {
        WalkEnd::Parent => rest.is_last(),
        WalkEnd::Follow => false,
        WalkEnd::NoFollow => false,
    }
}

/// Whether a walk ends at its next name where a link stands there.
fn stops_at_link(end: WalkEnd, rest: &Names) -> bool
    ensures { result ≡ is_last_unfollowed end (drop 1 rest.now) }
{
    match end {
        WalkEnd::NoFollow => rest.is_last(),
        WalkEnd::Follow => false,
        WalkEnd::Parent => false,
    }
}

/// What a walk comes to where its next name leads to a file.
fn at_file(id: InodeId, rest: &Names) -> WalkStep
    ensures { IsEnd result (at_file id (drop 1 rest.now)) }
{
    if rest.is_last() {
        WalkStep::At(id, Kind::File)
    } else {
        WalkStep::Refused(Code::NotDir)
    }
}

/// Where a path starts.
fn start_of(path: &Path, here: InodeId) -> InodeId
    ensures { result ≡ (if path.now.absolute then 0 else here) }
{
    if path.absolute { InodeId::root() } else { here }
}

impl Walk {
    /// A walk of the place's path. The base counts only where the path isn't absolute.
    ///
    /// `BadPath` and `BadName` come exactly where the text reads as no path, by its first fault.
    pub fn new(alloc: Global, place: &Place, end: WalkEnd) -> Result<Walk, WalkError>
        ensures trip { IfOk result (λ walk. IsStart walk place.now end) }
        ensures refused { IfErr result (λ e. IfSome (walk_refusal e) (λ code. path_of place.now.text ≡ Err code)) }
    {
        match Path::read(alloc, place.text.as_slice()) {
            Ok(path) => Ok(Walk::on(alloc, &path, place.base, end)?),
            Err(PathError::BadPath) => Err(WalkError::BadPath),
            Err(PathError::BadName) => Err(WalkError::BadName),
            Err(PathError::Memory) => Err(WalkError::Memory),
        }
    }

    /// A walk of a path.
    fn on(alloc: Global, path: &Path, base: InodeId, end: WalkEnd) -> Result<Walk, Memory>
        ensures { IfOk result (λ walk. (T : Tree) → trip_of walk T ≡ travel T base path.now end) }
    {
        let mut rest = Names::new(alloc);
        rest.push_all(alloc, &path.names)?;
        let here = start_of(path, base);
        Ok(Walk {
            end,
            at_base: end.looks_at_base(here, &rest),
            links: LINKS_FOLLOWED,
            here,
            rest,
            failed: false,
        })
    }

    /// On with what has been read. Where nothing more was read it gives the same answer again.
    ///
    /// At most ten links are followed. Once memory ran out the answer is want of memory from then on.
    pub fn next(&mut self, alloc: Global, txn: &Txn) -> Result<WalkStep, Memory>
        ensures keeps { OnOk result (KeepsTrip (trip_of self.old) (trip_of self.new) txn.now.reads) }
        ensures step { IfOk result (λ s. IsWalkStep s self.new txn.now.reads) }
        ensures alive { OnOk result ((self.old.failed ≡ false) × (self.new.failed ≡ false)) }
        ensures err { OnErr result (self.new.failed ≡ true) }
    {
        if self.failed {
            return Err(Memory);
        }
        let step = self.go_on(alloc, txn);
        self.failed = step.is_err();
        step
    }

    /// Past the base, name by name, until an ask or the end.
    fn go_on(&mut self, alloc: Global, txn: &Txn) -> Result<WalkStep, Memory>
        ensures keeps { OnOk result (KeepsTrip (trip_of self.old) (trip_of self.new) txn.now.reads) }
        ensures step { IfOk result (λ s. IsWalkStep s self.new txn.now.reads) }
    {
        if let Some(step) = self.look_at_base(alloc, txn)? {
            return Ok(step);
        }
        loop {
            if let Some(step) = self.run(alloc, txn)? {
                return Ok(step);
            }
        }
    }

    /// The base, where it has still to be looked at.
    #[tactic(auto, using(crate::proofs::WalkLaws::keeps_self))]
    fn look_at_base(&mut self, alloc: Global, txn: &Txn) -> Result<Option<WalkStep>, Memory>
        ensures keeps { OnOk result (KeepsTrip (trip_of self.old) (trip_of self.new) txn.now.reads) }
        ensures step { IfOk result
            (λ o. MatchOption o (self.new.at_base ≡ false) (λ s. IsWalkStep s self.new txn.now.reads)) }
    {
        if !self.at_base {
            return Ok(None);
        }
        match want_inode(alloc, txn, self.here)? {
            Want::Ask(key) => Ok(Some(WalkStep::Ask(Ask::Get(key)))),
            Want::Absent => Ok(Some(WalkStep::Refused(Code::NotFound))),
            Want::There(row) => match &row.part {
                InodePart::Dir { .. } => {
                    self.at_base = false;
                    Ok(None)
                }
                _ => Ok(Some(WalkStep::Refused(Code::NotDir))),
            },
        }
    }

    /// The names until an ask, the end, a refusal or a link that was followed.
    fn run(&mut self, alloc: Global, txn: &Txn) -> Result<Option<WalkStep>, Memory>
        requires { self.old.at_base ≡ false }
        ensures base { self.new.at_base ≡ false }
        ensures keeps { OnOk result (KeepsTrip (trip_of self.old) (trip_of self.new) txn.now.reads) }
        ensures stop { IfOk result
            (λ o. MatchOption o (self.new.links + 1 ≡ self.old.links)
            (λ s. IsWalkStep s self.new txn.now.reads)) }
    {
        loop {
            match self.step(alloc, txn)? {
                Move::Stop(step) => return Ok(Some(step)),
                Move::Down => {}
                Move::Followed => return Ok(None),
            }
        }
    }

    /// One name on.
    #[tactic(auto, using(crate::proofs::WalkLaws::keeps_self))]
    fn step(&mut self, alloc: Global, txn: &Txn) -> Result<Move, Memory>
        requires { self.old.at_base ≡ false }
        ensures base { self.new.at_base ≡ false }
        ensures keeps { OnOk result (KeepsTrip (trip_of self.old) (trip_of self.new) txn.now.reads) }
        ensures moved { IfOk result (λ m. IsWalkMove m self.old self.new txn.now.reads) }
    {
        let Some(name) = self.rest.first() else {
            return match self.end {
                WalkEnd::Parent => Ok(Move::Stop(WalkStep::NoName(self.here))),
                WalkEnd::Follow => Ok(Move::Stop(WalkStep::At(self.here, Kind::Dir))),
                WalkEnd::NoFollow => Ok(Move::Stop(WalkStep::At(self.here, Kind::Dir))),
            };
        };
        if stops_at_parent(self.end, &self.rest) {
            return Ok(Move::Stop(WalkStep::Parent(self.here, name.try_clone(alloc)?)));
        }
        match want_dent(alloc, txn, self.here, name)? {
            Want::Ask(key) => Ok(Move::Stop(WalkStep::Ask(Ask::Get(key)))),
            Want::Absent => Ok(Move::Stop(WalkStep::Refused(Code::NotFound))),
            Want::There(entry) => match entry.kind {
                Kind::Dir => {
                    self.here = entry.inode;
                    self.rest.skip();
                    Ok(Move::Down)
                }
                Kind::File => Ok(Move::Stop(at_file(entry.inode, &self.rest))),
                Kind::Link => {
                    if stops_at_link(self.end, &self.rest) {
                        return Ok(Move::Stop(WalkStep::At(entry.inode, Kind::Link)));
                    }
                    self.link(alloc, txn, entry.inode)
                }
            },
        }
    }

    /// At the entry of a link that is to be followed.
    #[tactic(auto, using(crate::proofs::WalkLaws::keeps_self))]
    fn link(&mut self, alloc: Global, txn: &Txn, id: InodeId) -> Result<Move, Memory>
        requires base { self.old.at_base ≡ false }
        requires link { IsAtLink self.old txn.now.reads id }
        ensures base { self.new.at_base ≡ false }
        ensures keeps { OnOk result (KeepsTrip (trip_of self.old) (trip_of self.new) txn.now.reads) }
        ensures moved { IfOk result (λ m. IsWalkMove m self.old self.new txn.now.reads) }
    {
        if self.links == 0 {
            return Ok(Move::Stop(WalkStep::Refused(Code::LinkLoop)));
        }
        match want_inode(alloc, txn, id)? {
            Want::Ask(key) => Ok(Move::Stop(WalkStep::Ask(Ask::Get(key)))),
            Want::Absent => Ok(Move::Stop(WalkStep::Refused(Code::NotFound))),
            Want::There(row) => match &row.part {
                InodePart::Link { target } => self.follow(alloc, target),
                _ => Ok(Move::Stop(WalkStep::Refused(Code::NotFound))),
            },
        }
    }

    /// Behind a link, on its target.
    fn follow(&mut self, alloc: Global, target: &Text) -> Result<Move, Memory>
        requires { self.old.links ≢ 0 }
        ensures base { self.new.at_base ≡ self.old.at_base }
        ensures moved { IfOk result (λ m. IsFollowStep m self.old self.new target.now) }
    {
        let path = match path_of(alloc, target)? {
            Ok(path) => path,
            Err(code) => return Ok(Move::Stop(WalkStep::Refused(code))),
        };
        self.links -= 1;
        self.here = start_of(&path, self.here);
        self.rest.skip();
        self.rest.push_all(alloc, &path.names)?;
        Ok(Move::Followed)
    }
}
