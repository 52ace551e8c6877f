ghost use Rattle.std.specs.Prelude.{◌≡◌};
ghost use Rattle.tree_model.specs.Finding.{found_of};
ghost use Rattle.tree_model.specs.Walk.{ends_at, at_file, is_last_of_parent, is_last_unfollowed, lacks_name, looks_at_base};

use crate::names::Names;
use fs_base::{Code, InodeId, Kind, Name, Reply};

/// What a call wants of a walk: the node at its end, or the directory that holds the last name.
#[derive(Clone, Copy, Debug, PartialEq, Eq)]
pub enum WalkEnd {
    /// The node that the path leads to.
    Follow,
    /// The node that the last name leads to, also where it is a link.
    NoFollow,
    /// The directory that the last name is in. The last name itself isn't looked up.
    Parent,
}

/// What a walk comes to.
#[derive(Debug, Drop)]
pub enum Walked {
    /// At a node.
    At(InodeId, Kind),
    /// At a directory, before the last name.
    AtParent(InodeId, Name),
    /// At a directory, where a last name was wanted and there is none.
    NoName(InodeId),
    /// No further, and why.
    Stopped(Code),
}

impl WalkEnd {
    /// What a walk comes to that has no names left.
    pub fn at(self, here: InodeId) -> Walked
        ensures { result ≡ ends_at self here }
    {
        match self {
            WalkEnd::Follow => Walked::At(here, Kind::Dir),
            WalkEnd::NoFollow => Walked::At(here, Kind::Dir),
            WalkEnd::Parent => Walked::NoName(here),
        }
    }

    /// Whether a last name is wanted, and these names have none.
    fn lacks_name(self, names: &Names) -> bool
        ensures { result ≡ lacks_name self names.now }
    {
        match self {
            WalkEnd::Follow => false,
            WalkEnd::NoFollow => false,
            WalkEnd::Parent => names.is_empty(),
        }
    }

    /// Whether a walk of these names that starts here looks at the node here before anything else.
    pub fn looks_at_base(self, here: InodeId, names: &Names) -> bool
        ensures { result ≡ looks_at_base here self names.now }
    {
        !(here.get() == 0 || self.lacks_name(names))
    }

    /// Whether a walk ends before a name, with these names behind it.
    pub fn is_last_of_parent(self, rest: &Names) -> bool
        ensures { result ≡ is_last_of_parent self rest.now }
    {
        match self {
            WalkEnd::Follow => false,
            WalkEnd::NoFollow => false,
            WalkEnd::Parent => rest.is_empty(),
        }
    }

    /// Whether a walk ends at a link that it doesn't follow, with these names behind it.
    pub fn is_last_unfollowed(self, rest: &Names) -> bool
        ensures { result ≡ is_last_unfollowed self rest.now }
    {
        match self {
            WalkEnd::Follow => false,
            WalkEnd::NoFollow => rest.is_empty(),
            WalkEnd::Parent => false,
        }
    }
}

impl Walked {
    /// What a walk comes to at a file, with these names behind it.
    pub(crate) fn at_file(id: InodeId, rest: &Names) -> Walked
        ensures { result ≡ at_file id rest.now }
    {
        if rest.is_empty() {
            Walked::At(id, Kind::File)
        } else {
            Walked::Stopped(Code::NotDir)
        }
    }

    /// The reply to a lookup whose walk came to this.
    pub fn found(self) -> Reply
        ensures { result ≡ found_of self }
    {
        match self {
            Walked::At(id, kind) => Reply::Found(id, kind),
            Walked::Stopped(code) => Reply::Refused(code),
            Walked::AtParent(_, _) => Reply::Refused(Code::NotDir),
            Walked::NoName(_) => Reply::Refused(Code::NotDir),
        }
    }
}
