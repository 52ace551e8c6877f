ghost use Rattle.std.specs.Prelude.{◌≡◌, ◌≤◌, ◌<◌, take, length, OnOk, IfErr, OnErr};
ghost use Rattle.std.specs.Io.KnownBytes.{Appends};
ghost use Rattle.fs_io.specs.Causes.{Rose};

use crate::traits::Sink;

/// Writes all the bytes, by as many calls of `put` as that takes, and needs no memory of its own. An
/// `Err` says how many bytes went out before a call failed.
pub fn write_all<K: Sink>(sink: &mut K, bytes: &[u8]) -> Result<(), u64>
    ensures later { K.faults sink.old ≤ K.faults sink.new }

    // All bytes went out, or a call failed and exactly the first n went out.
    ensures whole { OnOk result (Appends (K.written sink.old) (K.written sink.new) bytes.now) }
    ensures fault { OnErr result (Rose (K.faults sink.old) (K.faults sink.new)) }
    ensures quiet { OnOk result (K.faults sink.new ≡ K.faults sink.old) }
    ensures within { IfErr result (λ n. n < length bytes.now) }
    ensures prefix { IfErr result
        (λ n. Appends (K.written sink.old) (K.written sink.new) (take n bytes.now)) }
{
    let mut at = 0;
    while at < bytes.len() {
        match sink.put(&bytes[at..]) {
            Ok(count) => at += count,
            Err(_) => return Err(at as u64),
        }
    }
    Ok(())
}
