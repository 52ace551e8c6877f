ghost use Rattle.std.specs.Prelude.{◌≡◌, ◌≤◌, ◌<◌, ◌+◌, ◌*◌, ◌^◌, length, IfOk, Err};
ghost use Rattle.chunk_layout.specs.Pieces.{ArePieces, IsPiece, IsTooLong};
ghost use Rattle.chunk_layout.specs.declared.cutting.PieceError.TheVariants as errors;

use fs_base::limits::{FILE_BYTES, PIECES};
use fs_base::{Items, Layout, Memory};
use std::alloc::Global;

/// The part of a range of bytes that lies in one chunk.
#[derive(Clone, Copy, Debug, PartialEq, Eq)]
pub struct Piece {
    /// The chunk, from 0.
    pub index: u64,
    /// Where it begins in the chunk, in bytes.
    pub offset: u32,
    /// Its length in bytes, at least 1.
    pub len: u32,
}

/// Why a range isn't cut.
#[derive(Clone, Copy, Debug, PartialEq, Eq)]
pub enum PieceError {
    /// It passes byte 1,099,511,627,776, or there would be more than 65,536 pieces.
    TooLong,
    Memory,
}

impl From<Memory> for PieceError {
    ghost from_gives = { λ _ e. e ≡ errors.Memory };

    fn from(_e: Memory) -> PieceError {
        PieceError::Memory
    }
}

/// The pieces of `len` bytes from `offset` on, in order, one for each chunk that is touched.
pub fn pieces(
    alloc: Global,
    layout: &Layout,
    offset: u64,
    len: u64,
) -> Result<Items<Piece>, PieceError>
    requires chunk { 1 ≤ layout.now.chunk }
    requires some { 1 ≤ len }
    requires fits { offset + len < 2 ^ 64 }
    ensures cover { IfOk result (ArePieces layout.now.chunk (offset + len) offset (offset + len)) }
    ensures short { IfOk result (λ pieces. (offset + len ≤ FILE_BYTES) × (length pieces ≤ PIECES)) }
    ensures long { result ≡ Err errors.TooLong → IsTooLong layout.now.chunk offset (offset + len) }
{
    let end = offset + len;
    if end > FILE_BYTES {
        return Err(PieceError::TooLong);
    }
    let mut pieces = Items::new(alloc);
    let mut at = offset;
    while at < end {
        if pieces.len() == PIECES {
            return Err(PieceError::TooLong);
        }
        let piece = piece_at(layout.chunk, at, end);
        pieces.push(piece)?;
        at += u64::from(piece.len);
    }
    Ok(pieces)
}

/// The piece that begins at this byte of a range that ends at `end`.
fn piece_at(chunk: u32, at: u64, end: u64) -> Piece
    requires chunk { 1 ≤ chunk }
    requires before { at < end }
    ensures piece { IsPiece chunk end at result }
    ensures within { at + result.len ≤ end }
{
    let offset = at % u64::from(chunk);
    let room = u64::from(chunk) - offset;
    Piece {
        index: at / u64::from(chunk),
        offset: offset as u32,
        len: room.min(end - at) as u32,
    }
}

/// The first byte of a piece in its file, and the byte behind its last.
pub fn extent_of(layout: &Layout, piece: &Piece) -> (u64, u64)
    requires { piece.now.index * layout.now.chunk + piece.now.offset + piece.now.len < 2 ^ 64 }
    ensures from { result.0 ≡ piece.now.index * layout.now.chunk + piece.now.offset }
    ensures to { result.1 ≡ piece.now.index * layout.now.chunk + piece.now.offset + piece.now.len }
{
    let from = piece.index * u64::from(layout.chunk) + u64::from(piece.offset);
    (from, from + u64::from(piece.len))
}
