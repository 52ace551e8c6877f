ghost use Rattle.std.specs.Prelude.{◌≡◌, ◌↔◌, IsTrue, IfOk};
ghost use Rattle.std.specs.FinMap.{len};
ghost use Rattle.row_tree.specs.WellFormed.{IsWellFormed};
ghost use Rattle.row_tree.specs.Deciding.{AreCounts, root_test, is_linked, linked_test, fits_test, climbs, leads_test, entry_test, doomed_test, session_test, numbers_test, rows_test};

use crate::clauses::{fits_config, is_number, is_root_row};
use crate::counting::count_at;
use crate::typed::{TypedRows, is_kind, kind_of};
use fs_base::{Config, Kind, Memory};
use inode_record::InodeRow;
use std::alloc::Global;
use tree_model::ByNumber;

impl TypedRows {
    /// Whether the rows are those of a tree: each link count is the number of entries, each directory
    /// leads up to the root, and so on.
    pub(crate) fn is_well_formed(&self, alloc: Global, config: &Config) -> Result<bool, Memory>
        ensures { IfOk result (λ yes. IsTrue yes ↔ IsWellFormed config.now self.now) }
    {
        let counts = self.count_links(alloc)?;
        Ok(self.passes(config, &counts))
    }

    fn passes(&self, config: &Config, counts: &ByNumber<u64>) -> bool
        requires { AreCounts self.now counts.now }
        ensures { result ≡ rows_test config.now self.now }
    {
        self.has_root()
            && (self.are_linked(counts)
                && (self.fit(config)
                    && (self.lead_up()
                        && (self.have_entries()
                            && (self.are_doomed(config)
                                && (self.have_sessions() && self.have_numbers()))))))
    }

    fn has_root(&self) -> bool
        ensures { result ≡ root_test self.now }
    {
        match self.inodes.get(0) {
            Some(row) => is_root_row(row),
            None => false,
        }
    }

    fn is_linked(&self, counts: &ByNumber<u64>, id: u64, row: &InodeRow) -> bool
        requires { AreCounts self.now counts.now }
        ensures { result ≡ is_linked self.now id row.now }
    {
        self.is_given(id)
            && (u64::from(row.links) == count_at(counts, id)
                && self.counts_fit(id, kind_of(&row.part), row.links))
    }

    fn are_linked(&self, counts: &ByNumber<u64>) -> bool
        requires { AreCounts self.now counts.now }
        ensures { result ≡ linked_test self.now }
    {
        for (id, row) in self.inodes.iter() {
            if !(*id == 0 || self.is_linked(counts, *id, row)) {
                return false;
            }
        }
        true
    }

    fn fit(&self, config: &Config) -> bool
        ensures { result ≡ fits_test config.now self.now }
    {
        for (id, row) in self.inodes.iter() {
            if !fits_config(config, *id, &row.part) {
                return false;
            }
        }
        true
    }

    /// Whether the parents lead from the inode to the root. A way up meets no inode twice, so it takes
    /// no more steps than there are inodes.
    fn climbs(&self, id: u64) -> bool
        ensures { result ≡ climbs self.now (len self.now.inodes) id }
    {
        let mut here = id;
        let mut left = self.inodes.len();
        while left > 0 {
            if here == 0 {
                return true;
            }
            match self.parent_at(here) {
                Some(parent) => here = parent,
                None => return false,
            }
            left -= 1;
        }
        here == 0
    }

    fn lead_up(&self) -> bool
        ensures { result ≡ leads_test self.now }
    {
        for (id, row) in self.inodes.iter() {
            if !(!is_kind(kind_of(&row.part), Kind::Dir) || self.climbs(*id)) {
                return false;
            }
        }
        true
    }

    fn have_entries(&self) -> bool
        ensures { result ≡ entry_test self.now }
    {
        for (key, e) in self.dents.iter() {
            if !self.is_entry(key.0, e) {
                return false;
            }
        }
        true
    }

    fn are_doomed(&self, config: &Config) -> bool
        ensures { result ≡ doomed_test config.now self.now }
    {
        for (id, row) in self.doomed.iter() {
            if !(self.is_doomed(config, *id, row) && self.is_given(*id)) {
                return false;
            }
        }
        true
    }

    fn have_sessions(&self) -> bool
        ensures { result ≡ session_test self.now }
    {
        for (key, stamp) in self.sessions.iter() {
            let _ = stamp;
            if !self.has_kind(key.0, Kind::File) {
                return false;
            }
        }
        true
    }

    fn have_numbers(&self) -> bool
        ensures { result ≡ numbers_test self.now }
    {
        for (server, next) in self.next.iter() {
            if !is_number(*server, *next) {
                return false;
            }
        }
        true
    }
}
