ghost use Rattle.std.specs.Prelude.{◌≡◌, ◌<◌, ◌↔◌, IsSome, IfSome};

use crate::limits::INODE_IDS;
use std::marker::Model;

/// The number of an inode, below 2^36.
#[derive(Clone, Copy, Debug, PartialEq, Eq)]
pub struct InodeId {
    value: u64,
}

impl Model for InodeId {
    ghost use Rattle.std.specs.Prelude.{ℕ, ◌<◌};
    ghost use Rattle.fs_base.specs.declared.limits.TheConstants.{INODE_IDS};

    ghost Value = { ℕ };

    ghost view = { λ i. i.value };

    ghost invariant = { λ i. i.value < INODE_IDS };

    ghost inverse = { λ n. record { value = n } };
}

impl InodeId {
    /// The root directory of every tree, 0.
    pub fn root() -> InodeId
        ensures { result ≡ 0 }
    {
        InodeId { value: 0 }
    }

    /// For a number that is known to be below 2^36.
    pub fn new(value: u64) -> InodeId
        requires { value < INODE_IDS }
        ensures { result ≡ value }
    {
        InodeId { value }
    }

    /// `None` exactly where the number isn't below 2^36.
    pub fn read(value: u64) -> Option<InodeId>
        ensures some { IsSome result ↔ (value < INODE_IDS) }
        ensures value { IfSome result (λ i. i ≡ value) }
    {
        if value < INODE_IDS {
            Some(InodeId { value })
        } else {
            None
        }
    }

    /// The number.
    pub fn get(self) -> u64
        ensures value { result ≡ self }
        ensures bound { self < INODE_IDS }
    {
        self.value
    }
}

/// A client's UUID (RFC 9562) as a number, the first byte the most significant.
#[derive(Clone, Copy, Debug, PartialEq, Eq)]
pub struct ClientId(pub u128);
