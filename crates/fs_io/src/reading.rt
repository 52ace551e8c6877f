ghost use Rattle.std.specs.Prelude.{◌≡◌, ◌≤◌, IfOk, Err};
ghost use Rattle.fs_io.specs.Reading.{ReadsToEnd, PassesLimit, StopsWithin, TellsFault};

use crate::traits::Source;
use std::alloc::Global;
use thiserror::Error;

/// Why a source was not read to its end.
#[derive(Clone, Copy, Debug, PartialEq, Eq, Error)]
pub enum ReadAllError {
    /// The source failed.
    #[error("the input could not be read")]
    ReadFault,
    /// More bytes came than the limit.
    #[error("the input is too long")]
    TooLong,
    /// There is no memory for the bytes.
    #[error("out of memory")]
    Memory,
}

/// Reads to the end of input, up to a limit in bytes. It returns also where the input never ends, since each
/// read brings it nearer to the limit. What came before an error is dropped.
///
/// The limit is tested before what came is kept, so that want of memory can't hide too long an input.
pub fn read_all<S: Source>(
    alloc: Global,
    source: &mut S,
    limit: u64,
) -> Result<Vec<u8>, ReadAllError>
    ensures later { S.faults source.old ≤ S.faults source.new }
    ensures whole { IfOk result
        (λ v. ReadsToEnd (S.left source.old) (S.left source.new) v.items limit) }

    // A fault is told exactly where the count rose.
    ensures fault { TellsFault (S.faults source.old) (S.faults source.new) result }

    // `TooLong` comes exactly where more bytes came than the limit.
    ensures long { result ≡ Err ReadAllError.TooLong
        → PassesLimit (S.left source.old) (S.left source.new) limit }
    ensures fault_within { result ≡ Err ReadAllError.ReadFault
        → StopsWithin (S.left source.old) (S.left source.new) limit }
    ensures memory_within { result ≡ Err ReadAllError.Memory
        → StopsWithin (S.left source.old) (S.left source.new) limit }
{
    let mut bytes = Vec::new(alloc);
    let mut piece = [0u8; 4096];
    loop {
        let Ok(count) = source.take(&mut piece) else {
            return Err(ReadAllError::ReadFault);
        };
        if count == 0 {
            return Ok(bytes);
        }
        if count as u64 > limit - bytes.len() as u64 {
            return Err(ReadAllError::TooLong);
        }
        if bytes.extend_from_slice(&piece[..count]).is_err() {
            return Err(ReadAllError::Memory);
        }
    }
}
