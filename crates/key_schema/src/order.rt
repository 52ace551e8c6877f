ghost use Rattle.std.specs.Prelude.{◌≡◌, ◌++◌, Some, refl};
ghost use Rattle.std.specs.Int.{w64, w128, to_be_bytes, to_le_bytes};
ghost use Rattle.std.specs.Ordering.{eq_by_cmp, nat_cmp};
ghost use Rattle.std.specs.Cmp.{eq_by_cmp_equiv, on_total, partial_equiv_from_equiv, partial_order_from_total};
ghost use Rattle.std.specs.Cmp.Lexicographic.{slice_cmp, nat_list_cmp_total};
ghost use Rattle.key_schema.specs.Keys.{body, letters, spelled_key};
ghost use Rattle.key_schema.specs.Ranges.{key_order};

use crate::key::Key;
use fs_base::InodeId;
use std::cmp::Ordering;

impl Key {
    /// The four letters that tell the form.
    pub(crate) fn letters(&self) -> [u8; 4]
        ensures { result ≡ letters self.now }
    {
        match self {
            Key::Alloc(_) => *b"ALOC",
            Key::Dent(_, _) => *b"DENT",
            Key::Gc(_) => *b"GCOL",
            Key::Idem(_) => *b"IDEM",
            Key::Inode(_) => *b"INOD",
            Key::Session(_, _, _) => *b"SESS",
        }
    }

    /// The order of what follows the letters, where these are the same.
    #[tactic(auto, using(crate::proofs::Orders::after_id))]
    fn cmp_body(&self, other: &Key) -> Ordering
        ensures { letters self.now ≡ letters other.now
            → result ≡ slice_cmp nat_cmp (body self.now) (body other.now) }
    {
        match (self, other) {
            (Key::Alloc(a), Key::Alloc(b)) => [*a].cmp(&[*b]),
            (Key::Dent(a, m), Key::Dent(b, n)) => cmp_ids(*a, *b).then(m.bytes().cmp(n.bytes())),
            (Key::Gc(a), Key::Gc(b)) => cmp_ids(*a, *b),
            (Key::Idem(a), Key::Idem(b)) => a.0.to_be_bytes().cmp(&b.0.to_be_bytes()),
            (Key::Inode(a), Key::Inode(b)) => cmp_ids(*a, *b),
            (Key::Session(a, c, m), Key::Session(b, d, n)) => {
                cmp_ids(*a, *b).then(cmp_holders(c.0, *m, d.0, *n))
            }
            _ => Ordering::Equal,
        }
    }
}

/// The order of two ids' bytes, least significant first.
fn cmp_ids(a: InodeId, b: InodeId) -> Ordering
    ensures { result ≡ slice_cmp nat_cmp (to_le_bytes w64 a) (to_le_bytes w64 b) }
{
    a.get().to_le_bytes().cmp(&b.get().to_le_bytes())
}

/// The order of two clients, and of their sessions' numbers where it is one client.
#[tactic(auto, using(crate::proofs::Orders::after_client))]
fn cmp_holders(a: u128, m: u64, b: u128, n: u64) -> Ordering
    ensures { result
        ≡ slice_cmp nat_cmp (to_be_bytes w128 a ++ to_be_bytes w64 m)
        (to_be_bytes w128 b ++ to_be_bytes w64 n) }
{
    let clients = a.to_be_bytes().cmp(&b.to_be_bytes());
    clients.then(m.to_be_bytes().cmp(&n.to_be_bytes()))
}

impl PartialEq for Key {
    ghost eq = { eq_by_cmp key_order };

    ghost laws = { partial_equiv_from_equiv (eq_by_cmp_equiv (on_total spelled_key nat_list_cmp_total)) };

    fn eq(&self, other: &Key) -> bool {
        self.cmp(other).is_eq()
    }
}

impl Eq for Key {
    ghost laws = { eq_by_cmp_equiv (on_total spelled_key nat_list_cmp_total) };
}

impl PartialOrd for Key {
    ghost partial_cmp = { λ a b. Some (key_order a b) };

    ghost laws = { partial_order_from_total (on_total spelled_key nat_list_cmp_total) };

    fn partial_cmp(&self, other: &Key) -> Option<Ordering> {
        Some(self.cmp(other))
    }
}

/// Keys are ordered as their bytes. That is worked out from their parts, without writing them.
impl Ord for Key {
    ghost cmp = { key_order };

    ghost total = { on_total spelled_key nat_list_cmp_total };

    ghost matches_partial_cmp = { λ a b. refl };

    ghost matches_eq = { λ a b. refl };

    #[tactic(auto, using(crate::proofs::Orders::by_letters))]
    fn cmp(&self, other: &Key) -> Ordering {
        let letters = self.letters().cmp(&other.letters());
        letters.then(self.cmp_body(other))
    }
}
