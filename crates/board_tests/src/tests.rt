use crate::{Entry, Numbers, add_number, copy_of, two_threads};
use hist_board::Board;
use std::test::Fail;

#[test]
fn two_passes_add_in_order(rt: HostRuntime) -> Result<(), Fail> {
    let mut objects = Vec::new(rt.alloc());
    objects.push(Numbers {
        items: Vec::new(rt.alloc()),
    })?;
    let (board, mut first) = Board::new(rt.alloc(), objects)?;
    add_number(&rt, &board, &mut first, 7)?;
    let mut second = first.split(&board);
    add_number(&rt, &board, &mut second, 8)?;
    assert!(rt; first.seen(0) == 1 && second.seen(0) == 2);
    first.join(&board, second);
    assert!(rt; first.seen(0) == 2);
    let copy = copy_of(&board, &mut first);
    assert!(rt; copy.seen(0) == 2);
    let objects = board.close(&rt, rt.alloc(), first)?;
    assert!(rt; objects.len() == 1);
    assert!(rt; objects[0].items.as_slice() == [7, 8].as_slice());
    Ok(())
}

#[test]
fn two_threads_add_each_entry_once(rt: HostRuntime) -> Result<(), Fail> {
    let (logs, all) = two_threads(&rt, rt.alloc())?;
    assert!(rt; all && logs.len() == 1 && logs[0].items.len() == 1000);
    // Each client's entries stand in their order, so 0 to 499 once each.
    let mut next = [0u64; 2];
    for entry in logs[0].items.as_slice() {
        let Entry { client, number } = *entry;
        assert!(rt; client < 2);
        let client = client as usize;
        assert!(rt; number == next[client]);
        next[client] = number.wrapping_add(1);
    }
    assert!(rt; next == [500, 500]);
    Ok(())
}
