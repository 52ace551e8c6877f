//! How a file lies on the replica chains, and how a range of its bytes is cut into pieces.
#![tactic(auto)]

mod cutting;
mod striping;

pub use cutting::{Piece, PieceError, extent_of, pieces};
pub use striping::{chain_of, places};
