//! One attempt, by asks and answers. The bytes are worked out from the tables of the formats.

use conflict_sets::{Got, ReadSet, Write, WriteSet};
use fs_base::{InodeId, Items, Memory, Text};
use key_schema::{Key, dir_range};
use std::alloc::Global;
use std::test::Fail;
use txn_task::{Answer, Ask, Txn, Want, WantFirst, want_alloc, want_inode, want_range};

/// The number 6 of a server, as it stands in the store.
const NEXT: &[u8] = b"\x01\x06\0\0\0\0\0\0\0";

/// A server's next number was asked for and answered.
fn with_number(alloc: Global) -> Result<Txn, Memory> {
    let value = Text::from_slice(alloc, NEXT)?;
    let mut txn = Txn::new(alloc);
    txn.begin(alloc, 7);
    let got = Got {
        value: Some(value),
        version: 3,
    };
    txn.note(alloc, &Ask::Get(Key::Alloc(0)), &Answer::Got(got))?;
    Ok(txn)
}

/// The root's first entry was asked for, and there is none.
fn note_no_entry(alloc: Global, txn: &mut Txn) -> Result<(), Memory> {
    let (lo, hi) = dir_range(InodeId::root());
    let lo = Text::from_slice(alloc, lo.as_slice())?;
    let hi = Text::from_slice(alloc, hi.as_slice())?;
    let limit = 1;
    txn.note(
        alloc,
        &Ask::Range { lo, hi, limit },
        &Answer::Rows(Items::new(alloc)),
    )
}

fn puts(alloc: Global, txn: &mut Txn) -> Result<(), Memory> {
    let root = Key::Inode(InodeId::root());
    txn.put(alloc, &root, Some(Vec::from_slice(alloc, b"a")?))?;
    txn.put(alloc, &Key::Alloc(0), None)?;
    txn.put(alloc, &root, Some(Vec::from_slice(alloc, b"b")?))
}

fn is_write(write: &Write, key: &[u8], value: Option<&[u8]>) -> bool {
    write.key.as_slice() == key && write.value.as_ref().map(Text::as_slice) == value
}

fn are_written(writes: &WriteSet) -> bool {
    match writes.writes.as_slice() {
        [a, b] => {
            is_write(a, b"ALOC\0", None) && is_write(b, b"INOD\0\0\0\0\0\0\0\0", Some(b"b"))
        }
        _ => false,
    }
}

fn were_read(reads: &ReadSet) -> bool {
    match (reads.keys.as_slice(), reads.ranges.as_slice()) {
        ([key], [range]) => key.key.as_slice() == b"ALOC\0".as_slice() && range.limit == 1,
        _ => false,
    }
}

#[test]
fn an_attempt_keeps_what_it_is_answered(rt: HostRuntime) -> Result<(), Fail> {
    let alloc = rt.alloc();
    let mut txn = Txn::new(alloc);
    assert!(rt; matches!(want_alloc(alloc, &txn, 0)?, Want::Ask(Key::Alloc(0))));
    txn = with_number(alloc)?;
    assert!(rt; txn.snapshot() == 7);
    assert!(rt; matches!(want_alloc(alloc, &txn, 0)?, Want::There(6)));
    assert!(rt; txn.written_by(b"ALOC\0") == Some(3));
    assert!(rt; txn.written_by(b"ALOC\x01") == None);
    assert!(rt; matches!(want_inode(alloc, &txn, InodeId::root())?, Want::Ask(_)));
    assert!(rt;
        matches!(
            want_range(alloc, &txn, InodeId::root())?,
            WantFirst::Ask(Ask::Range { limit: 1, .. })
        )
    );
    note_no_entry(alloc, &mut txn)?;
    assert!(rt; matches!(want_range(alloc, &txn, InodeId::root())?, WantFirst::Empty));
    puts(alloc, &mut txn)?;
    let (reads, writes) = txn.into_sets();
    assert!(rt; were_read(&reads));
    assert!(rt; are_written(&writes));
    Ok(())
}
