//! The store's plain program, as the definitions say it: each read goes through the journal from its
//! beginning, and
//! each commit through all later entries.

ghost use Rattle.std.specs.Prelude.{◌≤◌, length};

use crate::law::{Touch, opening};
use conflict_sets::{EntryLaw, Got, ReadSet, Write, compare, first_conflict};
use fs_base::{Items, Memory, Row, Text};
use kv_store::CommitError;
use std::alloc::Global;

#[derive(Drop)]
pub struct Plain {
    opening: Items<Row>,
    pub journal: Vec<Touch>,
}

impl Plain {
    /// The store with a row `-` at the keys `a` and `b`.
    pub fn open(alloc: Global) -> Result<Plain, Memory> {
        Ok(Plain {
            opening: opening(alloc)?,
            journal: Vec::new(alloc),
        })
    }

    fn entries_to(&self, version: u64) -> &[Touch] {
        let end = self.journal.len().min(version as usize);
        &self.journal.as_slice()[..end]
    }

    pub fn get_at(&self, version: u64, key: &[u8]) -> Result<Got, Memory> {
        let mut value = value_of(self.opening.as_slice(), key);
        let mut writer = 0;
        for (place, entry) in self.entries_to(version).iter().enumerate() {
            if let Some(write) = last_write(entry.writes().writes.as_slice(), key) {
                value = write.value.as_ref();
                writer = place as u64 + 1;
            }
        }
        Ok(Got {
            value: copied(value)?,
            version: writer,
        })
    }

    pub fn range_at(
        &self,
        version: u64,
        lo: &[u8],
        hi: &[u8],
        limit: u32,
    ) -> Result<Items<Row>, Memory> {
        let alloc = *self.journal.allocator();
        let mut rows = Vec::new(alloc);
        for row in self.opening.as_slice() {
            rows.push(copied_row(row)?)?;
        }
        for entry in self.entries_to(version) {
            for write in entry.writes().writes.as_slice() {
                apply(&mut rows, write)?;
            }
        }
        between(alloc, rows.as_slice(), lo, hi, limit)
    }

    /// Why a commit that read this at `snapshot` is refused, if it is.
    pub fn refusal(&self, snapshot: u64, reads: &ReadSet) -> Result<Option<CommitError>, Memory> {
        for (place, entry) in self.journal.as_slice().iter().enumerate() {
            if place as u64 >= snapshot {
                if let Some(key) = held_key(reads, entry)? {
                    return Ok(Some(CommitError::Conflict(place as u64 + 1, key)));
                }
            }
        }
        if self.journal.len() == 200_000 {
            return Ok(Some(CommitError::Full));
        }
        Ok(None)
    }
}

fn value_of<'a>(rows: &'a [Row], key: &[u8]) -> Option<&'a Text> {
    for row in rows {
        if compare(key, row.key.as_slice()).is_eq() {
            return Some(&row.value);
        }
    }
    None
}

fn last_write<'a>(writes: &'a [Write], key: &[u8]) -> Option<&'a Write> {
    let mut found = None;
    for write in writes {
        if compare(key, write.key.as_slice()).is_eq() {
            found = Some(write);
        }
    }
    found
}

fn copied(value: Option<&Text>) -> Result<Option<Text>, Memory> {
    match value {
        None => Ok(None),
        Some(text) => Ok(Some(text.try_clone()?)),
    }
}

fn copied_row(row: &Row) -> Result<Row, Memory> {
    Ok(Row {
        key: row.key.try_clone()?,
        value: row.value.try_clone()?,
    })
}

fn apply(rows: &mut Vec<Row>, write: &Write) -> Result<(), Memory> {
    let place = place_of(rows.as_slice(), write.key.as_slice());
    if place < rows.len() && has_key_at(rows.as_slice(), place, write.key.as_slice()) {
        rows.remove(place);
    }
    if let Some(value) = &write.value {
        let row = Row {
            key: write.key.try_clone()?,
            value: value.try_clone()?,
        };
        rows.insert(place, row)?;
    }
    Ok(())
}

/// The place of the first row whose key isn't below this one.
fn place_of(rows: &[Row], key: &[u8]) -> usize
    ensures { result ≤ length rows.now }
{
    for (place, row) in rows.iter().enumerate() {
        if compare(key, row.key.as_slice()).is_le() {
            return place;
        }
    }
    rows.len()
}

fn has_key_at(rows: &[Row], place: usize, key: &[u8]) -> bool {
    match rows.get(place) {
        None => false,
        Some(row) => compare(key, row.key.as_slice()).is_eq(),
    }
}

/// The first `limit` rows from `lo` up to, and without, `hi`.
fn between(
    alloc: Global,
    rows: &[Row],
    lo: &[u8],
    hi: &[u8],
    limit: u32,
) -> Result<Items<Row>, Memory> {
    let mut found = Vec::new(alloc);
    for row in rows {
        let key = row.key.as_slice();
        let is_inside = compare(key, lo).is_ge() && compare(key, hi).is_lt();
        if is_inside && found.len() < limit as usize {
            found.push(copied_row(row)?)?;
        }
    }
    Ok(Items::from_vec(found))
}

/// The first written key that the reads hold.
fn held_key(reads: &ReadSet, entry: &Touch) -> Result<Option<Text>, Memory> {
    let writes = entry.writes();
    match first_conflict(reads, writes) {
        None => Ok(None),
        Some(place) => Ok(Some(writes.writes.as_slice()[place].key.try_clone()?)),
    }
}
