ghost use Rattle.std.specs.Prelude.{◌≡◌};
ghost use Rattle.fs_base.specs.Config.{layout_given};

use crate::config::Config;
use crate::ids::InodeId;

/// A directory's default for the files made in it: chunk size in bytes, and number of chains to stripe over.
///
/// A call may name any numbers; `BadLayout` is the answer where they are out of range.
#[derive(Clone, Copy, Debug, PartialEq, Eq)]
pub struct DefaultLayout {
    pub chunk: u32,
    pub stripe: u16,
}

/// How a file lies on the replica chains: chunk size in bytes, number of chains, and the numbers that
/// choose the chains and their order.
///
/// The 3FS Design Notes give a file a chunk size, a range of the chain table and a number for
/// shuffling; how the last two come from the inode id is this project's own.
#[derive(Clone, Copy, Debug, PartialEq, Eq)]
pub struct Layout {
    pub chunk: u32,
    pub stripe: u16,
    /// The first chain, below the number of chains.
    pub start: u16,
    /// The number for shuffling.
    pub mix: u64,
}

impl Layout {
    /// The layout of a new file; `None` exactly where the configuration doesn't admit the chunk and stripe.
    pub fn new(config: &Config, id: InodeId, chunk: u32, stripe: u16) -> Option<Layout>
        ensures { result ≡ layout_given config.now id (record { chunk = chunk; stripe = stripe }) }
    {
        if config.admits(DefaultLayout { chunk, stripe }) {
            Some(Layout {
                chunk,
                stripe,
                start: (id.get() % u64::from(config.chains())) as u16,
                mix: id.get(),
            })
        } else {
            None
        }
    }
}
