ghost use Rattle.std.specs.Prelude.{◌≡◌, OnOk, OnErr, slice_get};
ghost use Rattle.txn_task.specs.Writes.{set_write};
ghost use Rattle.txn_task.specs.Transactions.{IsWritePlace, has_key};

use conflict_sets::{Write, compare};
use fs_base::Memory;

/// The place of the first write whose key isn't below this one.
fn place_of(writes: &[Write], key: &[u8]) -> usize
    ensures { IsWritePlace writes.now key.now result }
{
    for (place, write) in writes.iter().enumerate() {
        if compare(key, write.key.as_slice()).is_le() {
            return place;
        }
    }
    writes.len()
}

fn has_key_at(writes: &[Write], place: usize, key: &[u8]) -> bool
    ensures { result ≡ has_key (slice_get writes.now place) key.now }
{
    match writes.get(place) {
        None => false,
        Some(write) => compare(key, write.key.as_slice()).is_eq(),
    }
}

/// Sets the write of a key, in its place.
pub(crate) fn set_in(writes: &mut Vec<Write>, write: Write) -> Result<(), Memory>
    ensures ok { OnOk result (writes.new.items ≡ set_write write.key write.value writes.old.items) }
    ensures err { OnErr result (writes.new.items ≡ writes.old.items) }
{
    let place = place_of(writes.as_slice(), write.key.as_slice());
    if has_key_at(writes.as_slice(), place, write.key.as_slice()) {
        writes[place] = write;
        return Ok(());
    }
    writes.insert(place, write)?;
    Ok(())
}
