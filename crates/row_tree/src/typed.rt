ghost use Rattle.std.specs.Prelude.{◌≡◌};
ghost use Rattle.tree_model.specs.Tree.{next_at};
ghost use Rattle.row_tree.specs.TypedRows.{kind_of, parent_of, parent_at};
ghost use Rattle.row_tree.specs.Deciding.{is_kind, has_kind, is_given};

use fs_base::Kind;
use inode_record::{InodePart, InodeRow};
use row_records::{DentRow, GcRow, KeptRow};
use std::marker::Model;
use tree_model::{ByClient, ByName, ByNumber, BySession};

/// The rows of a tree as typed values, a map for each form of key.
#[derive(Drop)]
pub struct TypedRows {
    /// By id.
    pub(crate) inodes: ByNumber<InodeRow>,
    /// By directory and name.
    pub(crate) dents: ByName<DentRow>,
    /// The write sessions, with the stamp of each open.
    pub(crate) sessions: BySession<u64>,
    /// By client.
    pub(crate) kept: ByClient<KeptRow>,
    /// By id, the files that are being deleted.
    pub(crate) doomed: ByNumber<GcRow>,
    /// By server, its next number.
    pub(crate) next: ByNumber<u32>,
}

impl Model for TypedRows {
    ghost use Rattle.row_tree.specs.TypedRows as typed;
    ghost use Rattle.std.specs.Coded.{codes};
    ghost use Rattle.std.specs.FinMap as map;
    ghost use Rattle.inode_record.specs.contracts.inode.InodeRow as inode_row;
    ghost use Rattle.row_records.specs.contracts.rows.DentRow as dent_row;
    ghost use Rattle.row_records.specs.contracts.rows.KeptRow as kept_row;
    ghost use Rattle.row_records.specs.contracts.rows.GcRow as gc_row;

    ghost Value = { typed.TypedRows };

    ghost coded = { Prim.hlevel (codes, map.code, inode_row.the_row.coded, dent_row.the_row.coded, kept_row.the_row.coded, gc_row.the_row.coded) };

    ghost view = { λ t. record {
      inodes = t.inodes;
      dents = t.dents;
      sessions = t.sessions;
      kept = t.kept;
      doomed = t.doomed;
      next = t.next;
    } };
}

impl TypedRows {
    pub(crate) fn has_kind(&self, id: u64, kind: Kind) -> bool
        ensures { result ≡ has_kind self.now id kind }
    {
        match self.inodes.get(id) {
            Some(row) => is_kind(kind_of(&row.part), kind),
            None => false,
        }
    }

    /// The parent that a directory's row names.
    pub(crate) fn parent_at(&self, id: u64) -> Option<u64>
        ensures { result ≡ parent_at self.now id }
    {
        match self.inodes.get(id) {
            Some(row) => parent_of(&row.part),
            None => None,
        }
    }

    fn next_at(&self, server: u64) -> u64
        ensures { result ≡ next_at self.now.next server }
    {
        match self.next.get(server) {
            Some(next) => u64::from(*next),
            None => 1,
        }
    }

    pub(crate) fn is_given(&self, id: u64) -> bool
        ensures { result ≡ is_given self.now id }
    {
        1 <= id / 16 && id / 16 < self.next_at(id % 16)
    }
}

pub(crate) fn is_kind(a: Kind, b: Kind) -> bool
    ensures { result ≡ is_kind a b }
{
    match (a, b) {
        (Kind::Dir, Kind::Dir) => true,
        (Kind::File, Kind::File) => true,
        (Kind::Link, Kind::Link) => true,
        _ => false,
    }
}

pub(crate) fn kind_of(part: &InodePart) -> Kind
    ensures { result ≡ kind_of part.now }
{
    match part {
        InodePart::Dir { .. } => Kind::Dir,
        InodePart::File { .. } => Kind::File,
        InodePart::Link { .. } => Kind::Link,
    }
}

fn parent_of(part: &InodePart) -> Option<u64>
    ensures { result ≡ parent_of part.now }
{
    match part {
        InodePart::Dir { parent, .. } => Some(parent.get()),
        InodePart::File { .. } => None,
        InodePart::Link { .. } => None,
    }
}
