ghost use Rattle.std.specs.Prelude.{◌≡◌};
ghost use Rattle.conflict_sets.specs.Keys.{key_cmp};

use std::cmp::Ordering;

/// The order of keys: by bytes, the first that differs decides, and a key comes before its extensions.
pub fn compare(a: &[u8], b: &[u8]) -> Ordering
    ensures { result ≡ key_cmp a.now b.now }
{
    a.cmp(b)
}
