ghost use Rattle.std.specs.Prelude.{◌≡◌, ◌==◌};
ghost use Rattle.std.specs.FinMap.{get};
ghost use Rattle.row_tree.specs.TypedRows.{parent_at};
ghost use Rattle.row_tree.specs.Deciding.{some_passes, names_root, is_root_row, is_waiting, counts_fit, is_file_layout, is_used, fits_config, is_dir_inside, is_entry, is_unlinked_file, is_doomed, number_test};

use crate::typed::{TypedRows, is_kind, kind_of};
use fs_base::limits::SERVERS;
use fs_base::{Config, DefaultLayout, Kind, Layout};
use inode_record::{InodePart, InodeRow};
use row_records::{DentRow, GcRow};

fn names_root(part: &InodePart) -> bool
    ensures { result ≡ names_root part.now }
{
    match part {
        InodePart::Dir { parent, .. } => parent.get() == 0,
        InodePart::File { .. } => false,
        InodePart::Link { .. } => false,
    }
}

pub(crate) fn is_root_row(row: &InodeRow) -> bool
    ensures { result ≡ is_root_row row.now }
{
    names_root(&row.part) && row.links == 1
}

fn is_waiting(row: &GcRow) -> bool
    ensures { result ≡ is_waiting row.now }
{
    match row {
        GcRow::Waiting => true,
        GcRow::Purged { .. } => false,
    }
}

fn is_unlinked_file(row: &InodeRow) -> bool
    ensures { result ≡ is_unlinked_file row.now }
{
    is_kind(kind_of(&row.part), Kind::File) && row.links == 0
}

fn is_layout(config: &Config, id: u64, layout: &Layout) -> bool
    ensures { result ≡ is_file_layout config.now id layout.now }
{
    let given = DefaultLayout {
        chunk: layout.chunk,
        stripe: layout.stripe,
    };
    config.admits(given)
        && (u64::from(layout.start) == id % u64::from(config.chains()) && layout.mix == id)
}

fn is_used(config: &Config, id: u64, layout: &Layout, hint: u16) -> bool
    ensures { result ≡ is_used config.now id layout.now hint }
{
    is_layout(config, id, layout) && (1 <= hint && hint <= layout.stripe)
}

pub(crate) fn fits_config(config: &Config, id: u64, part: &InodePart) -> bool
    ensures { result ≡ fits_config config.now id part.now }
{
    match part {
        InodePart::Dir { chunk, stripe, .. } => config.admits(DefaultLayout {
            chunk: *chunk,
            stripe: *stripe,
        }),
        InodePart::File { layout, hint, .. } => is_used(config, id, layout, *hint),
        InodePart::Link { .. } => true,
    }
}

pub(crate) fn is_number(server: u64, next: u32) -> bool
    ensures { result ≡ number_test server next }
{
    1 <= next && server < u64::from(SERVERS)
}

impl TypedRows {
    fn is_deleted(&self, id: u64) -> bool
        ensures { result ≡ some_passes is_waiting (get self.now.doomed id) }
    {
        match self.doomed.get(id) {
            Some(row) => is_waiting(row),
            None => false,
        }
    }

    /// Whether an inode of the kind may have so many entries.
    pub(crate) fn counts_fit(&self, id: u64, kind: Kind, links: u32) -> bool
        ensures { result ≡ counts_fit self.now id kind links }
    {
        match kind {
            Kind::Dir => links == 1,
            Kind::Link => 1 <= links,
            Kind::File => !(links == 0) || self.is_deleted(id),
        }
    }

    fn is_child(&self, id: u64, dir: u64) -> bool
        ensures { result ≡ some_passes (λ parent. parent == dir) (parent_at self.now id) }
    {
        match self.parent_at(id) {
            Some(parent) => parent == dir,
            None => false,
        }
    }

    fn is_inside(&self, dir: u64, e: &DentRow) -> bool
        ensures { result ≡ is_dir_inside self.now dir e.now }
    {
        !is_kind(e.kind, Kind::Dir) || self.is_child(e.inode.get(), dir)
    }

    pub(crate) fn is_entry(&self, dir: u64, e: &DentRow) -> bool
        ensures { result ≡ is_entry self.now dir e.now }
    {
        let id = e.inode.get();
        self.has_kind(dir, Kind::Dir)
            && (self.has_kind(id, e.kind) && (!(id == 0) && self.is_inside(dir, e)))
    }

    fn has_unlinked_file(&self, id: u64) -> bool
        ensures { result ≡ some_passes is_unlinked_file (get self.now.inodes id) }
    {
        match self.inodes.get(id) {
            Some(row) => is_unlinked_file(row),
            None => false,
        }
    }

    pub(crate) fn is_doomed(&self, config: &Config, id: u64, row: &GcRow) -> bool
        ensures { result ≡ is_doomed config.now self.now id row.now }
    {
        match row {
            GcRow::Waiting => self.has_unlinked_file(id),
            GcRow::Purged { layout, hint } => {
                !self.inodes.get(id).is_some() && is_used(config, id, layout, *hint)
            }
        }
    }
}
