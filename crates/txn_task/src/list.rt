ghost use Rattle.std.specs.Prelude.{◌≡◌, ◌∷◌, [], Some, IfOk, OnOk};
ghost use Rattle.txn_task.specs.Listing.{AddsEntries, IsEntryOf, IsNameOf, IsWantList};
ghost use Rattle.txn_task.specs.Pages.{page_rows};

use crate::messages::Ask;
use crate::pages::{page_behind, rows_of_page, want_pages};
use crate::txn::Txn;
use crate::want::found;
use conflict_sets::RangeRead;
use fs_base::{DirEntry, InodeId, Items, Memory, Row, Text};
use key_schema::{Key, KeyError, dir_range};
use row_records::DentRow;
use std::alloc::Global;

/// What is known of a directory's entries.
#[derive(Debug, Drop)]
pub enum WantList {
    /// The next page is still to be asked for.
    Ask(Ask),
    /// All of them, in the order of their names' bytes.
    All(Items<DirEntry>),
}

/// The name in the key of an entry, or none where the bytes are no such key.
fn name_in(alloc: Global, key: &[u8]) -> Result<Option<Text>, Memory>
    ensures { IfOk result (IsNameOf key.now) }
{
    match Key::read(alloc, key) {
        Ok(Key::Dent(_, name)) => Ok(Some(Text::from_slice(alloc, name.bytes())?)),
        Ok(_) => Ok(None),
        Err(KeyError::NotAKey) => Ok(None),
        Err(KeyError::Memory) => Err(Memory),
    }
}

/// The entry that a row stands for, or none where it stands for none.
fn entry_in(alloc: Global, row: &Row) -> Result<Option<DirEntry>, Memory>
    ensures { IfOk result (IsEntryOf row.now) }
{
    let Some(name) = name_in(alloc, row.key.as_slice())? else {
        return Ok(None);
    };
    match found(DentRow::read(alloc, row.value.as_slice()))? {
        None => Ok(None),
        Some(dent) => Ok(Some(DirEntry {
            name,
            inode: dent.inode,
            kind: dent.kind,
        })),
    }
}

fn add_row(alloc: Global, row: &Row, names: &mut Items<DirEntry>) -> Result<(), Memory>
    ensures { OnOk result (AddsEntries (row.now ∷ []) names.old names.new) }
{
    match entry_in(alloc, row)? {
        None => Ok(()),
        Some(entry) => names.push(entry),
    }
}

fn add_page(alloc: Global, rows: &[Row], names: &mut Items<DirEntry>) -> Result<(), Memory>
    ensures { OnOk result (AddsEntries rows.now names.old names.new) }
{
    for row in rows {
        add_row(alloc, row, names)?;
    }
    Ok(())
}

/// The entries of the pages among the ranges.
///
/// A row that stands for no entry is passed over: no store has it among a directory's rows.
fn entries_in(
    alloc: Global,
    lo: &[u8],
    hi: &[u8],
    ranges: &[RangeRead],
) -> Result<Items<DirEntry>, Memory>
    ensures { IfOk result (AddsEntries (page_rows hi.now (Some lo.now) ranges.now) []) }
{
    let mut names = Items::new(alloc);
    let mut start = Some(Text::from_slice(alloc, lo)?);
    for range in ranges {
        add_page(alloc, rows_of_page(hi, &start, range), &mut names)?;
        start = page_behind(hi, start, range)?;
    }
    Ok(names)
}

/// A directory's entries, or the page of them that is still to be asked for.
pub fn want_list(alloc: Global, txn: &Txn, dir: InodeId) -> Result<WantList, Memory>
    ensures { IfOk result (λ want. IsWantList want txn.now.reads dir) }
{
    let (lo, hi) = dir_range(dir);
    match want_pages(alloc, txn, lo.as_slice(), hi.as_slice())? {
        Some(ask) => Ok(WantList::Ask(ask)),
        None => Ok(WantList::All(entries_in(alloc, lo.as_slice(), hi.as_slice(), txn.ranges())?)),
    }
}
