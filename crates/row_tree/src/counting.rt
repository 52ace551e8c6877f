ghost use Rattle.std.specs.Prelude.{◌≡◌, ℕ, unwrap_or, IfOk};
ghost use Rattle.std.specs.FinMap.{get};
ghost use Rattle.row_tree.specs.Deciding.{AreCounts};

use crate::typed::TypedRows;
use fs_base::Memory;
use std::alloc::Global;
use tree_model::ByNumber;

/// How many entries lead to the inode, 0 where it has no count.
pub(crate) fn count_at(counts: &ByNumber<u64>, id: u64) -> u64
    ensures { result ≡ unwrap_or (get counts.now id) 0 }
{
    match counts.get(id) {
        Some(count) => *count,
        None => 0,
    }
}

impl TypedRows {
    /// How many entries lead to each inode, by one pass over the entries.
    pub(crate) fn count_links(&self, alloc: Global) -> Result<ByNumber<u64>, Memory>
        ensures { IfOk result (λ counts. AreCounts self.now counts) }
    {
        let mut counts = ByNumber::new(alloc);
        for (key, e) in self.dents.iter() {
            let _ = key;
            let id = e.inode.get();
            let count = count_at(&counts, id);
            counts.insert(id, count + 1)?;
        }
        Ok(counts)
    }
}
