ghost use Rattle.std.specs.Prelude.{◌≡◌, ◌<◌, ◌^◌, ◌∷◌};
ghost use Rattle.std.specs.Int.{w64, to_le_bytes};
ghost use Rattle.key_schema.specs.Ranges.{HoldsExactly, IsDentOf, IsSessionOf, dir_prefix, raised, session_prefix};

use fs_base::InodeId;
use fs_base::limits::INODE_IDS;

/// Four letters and an id, and the same with the last byte raised by one.
///
/// The last byte of an id below 2^36 is 0, so it can rise.
fn range_of(letters: (u8, u8, u8, u8), id: u64) -> ([u8; 12], [u8; 12])
    requires { id < INODE_IDS }
    ensures { result
        ≡ (
          letters.0 ∷ letters.1 ∷ letters.2 ∷ letters.3
              ∷ to_le_bytes w64 id,
          raised (letters.0 ∷ letters.1 ∷ letters.2 ∷ letters.3 ∷ to_le_bytes w64 id),
        ) }
{
    let (a, b, c, d) = letters;
    let [e, f, g, h, i, j, k, l] = id.to_le_bytes();
    (
        [a, b, c, d, e, f, g, h, i, j, k, l],
        [a, b, c, d, e, f, g, h, i, j, k, l + 1],
    )
}

/// The range of a directory's entries: from the first key on, and below the second.
pub fn dir_range(id: InodeId) -> ([u8; 12], [u8; 12])
    ensures value { result ≡ (dir_prefix id, raised (dir_prefix id)) }
    ensures holds { HoldsExactly result.0 result.1 (IsDentOf id) }
{
    range_of((b'D', b'E', b'N', b'T'), id.get())
}

/// The range of an inode's write sessions: from the first key on, and below the second.
pub fn session_range(id: InodeId) -> ([u8; 12], [u8; 12])
    ensures value { result ≡ (session_prefix id, raised (session_prefix id)) }
    ensures holds { HoldsExactly result.0 result.1 (IsSessionOf id) }
{
    range_of((b'S', b'E', b'S', b'S'), id.get())
}
