use fs_base::{InodeId, Memory, Place, Text};
use key_schema::Key;
use path_walk::{Walk, WalkStep};
use std::alloc::Global;
use std::test::Fail;
use tree_model::WalkEnd;
use txn_task::{Ask, Txn};

fn first(bytes: &[u8]) -> u8 {
    match bytes {
        [first, ..] => *first,
        _ => 0,
    }
}

/// The name whose entry a walk asks for.
fn asks(alloc: Global, walk: &mut Walk, txn: &Txn) -> Result<Option<u8>, Memory> {
    match walk.next(alloc, txn)? {
        WalkStep::Ask(Ask::Get(Key::Dent(_, name))) => Ok(Some(first(name.bytes()))),
        _ => Ok(None),
    }
}

/// Nothing is read in between.
#[test]
fn the_same_is_asked_again(rt: HostRuntime) -> Result<(), Fail> {
    let alloc = rt.alloc();
    let txn = Txn::new(alloc);
    let place = Place {
        base: InodeId::root(),
        text: Text::from_slice(alloc, b"d")?,
    };
    let mut walk = Walk::new(alloc, &place, WalkEnd::Follow)?;
    assert!(rt; asks(alloc, &mut walk, &txn)? == Some(b'd'));
    assert!(rt; asks(alloc, &mut walk, &txn)? == Some(b'd'));
    Ok(())
}
