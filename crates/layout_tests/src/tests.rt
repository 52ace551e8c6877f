ghost use Rattle.std.specs.Prelude.{◌≡◌};

use chunk_layout::{Piece, PieceError, chain_of, extent_of, pieces, places};
use fs_base::{Config, InodeId, Layout};
use rendezvous::{owner, score};
use std::process::Abort;
use std::test::Fail;

fn piece(index: u64, offset: u32, len: u32) -> Piece
    ensures { result ≡ record { index = index; offset = offset; len = len } }
{
    Piece { index, offset, len }
}

/// A layout with this chunk, whatever its places.
fn of_chunk(chunk: u32) -> Layout
    ensures { result.chunk ≡ chunk }
{
    Layout {
        chunk,
        stripe: 1,
        start: 0,
        mix: 0,
    }
}

/// 4 nodes and 8 chains; inode 35 begins at chain 35 mod 8 = 3, so its chains are 3, 4, 5, 6. Place 3 changes with
/// (35 + 21) mod 4 = 0, place 2 with (35 + 14) mod 3 = 1, place 1 with (35 + 7) mod 2 = 0.
#[test]
fn places_of_inode_35(rt: HostRuntime) -> Result<(), Fail> {
    let alloc = rt.alloc();
    let config = Config::new(1, 4, 8, 16, 4).expect(&rt, "a configuration");
    let layout = Layout::new(&config, InodeId::new(35), 16, 4).expect(&rt, "a layout");
    assert_eq!(rt; (layout.start, layout.mix), (3, 35));
    let chains = places(alloc, &config, &layout)?;
    assert!(rt; chains.as_slice() == [5, 6, 4, 3].as_slice());
    assert_eq!(rt; chain_of(chains.as_slice(), 6), 4);
    Ok(())
}

/// Bytes 30 to 70, in chunks of 16.
#[test]
fn pieces_of_a_range(rt: HostRuntime) {
    let alloc = rt.alloc();
    let layout = of_chunk(16);
    let cut = pieces(alloc, &layout, 30, 40).expect(&rt, "pieces");
    let expected = [
        piece(1, 14, 2),
        piece(2, 0, 16),
        piece(3, 0, 16),
        piece(4, 0, 6),
    ];
    assert!(rt; cut.as_slice() == expected.as_slice());
    assert_eq!(rt; extent_of(&layout, &expected[3]), (64, 70));
}

#[test]
fn ranges_that_are_too_long(rt: HostRuntime) {
    let alloc = rt.alloc();
    let far = pieces(alloc, &of_chunk(16), 1_099_511_627_776, 1);
    assert!(rt; matches!(far, Err(PieceError::TooLong)));
    let last = pieces(alloc, &of_chunk(16), 1_099_511_627_775, 1);
    assert!(rt; matches!(last, Ok(_)));
    let many = pieces(alloc, &of_chunk(1), 0, 65_537);
    assert!(rt; matches!(many, Err(PieceError::TooLong)));
    let enough = pieces(alloc, &of_chunk(1), 0, 65_536);
    assert!(rt; matches!(enough, Ok(_)));
}

#[test]
fn owners_of_inodes_16_and_17(rt: HostRuntime) {
    let inode = InodeId::new(16);
    assert_eq!(rt;
        [score(inode, 0), score(inode, 1), score(inode, 2)],
        [4503, 46_771, 39_878]
    );
    assert_eq!(rt; owner(inode, &[0, 1, 2]), 1);
    assert_eq!(rt; owner(inode, &[0, 2]), 2);
    let next = InodeId::new(17);
    assert_eq!(rt; [score(next, 0), score(next, 1)], [43_710, 6413]);
    assert_eq!(rt; owner(next, &[0, 1]), 0);
}
