ghost use Rattle.std.specs.Prelude.{◌≡◌, ◌≤◌, ◌<◌, ◌++◌, [], Some, IsOk, OnOk, min, length, take, drop};
ghost use Rattle.std.specs.Io.{ReadsAtMost};
ghost use Rattle.std.specs.Io.KnownBytes.{ReadConsumes};
ghost use Rattle.fs_io.specs.Causes.{HasIoCause};
ghost use Rattle.fs_io.specs.InMemory.{take_answer, after_take, into_after_take};

use crate::traits::{Source, SourceFailed};
use std::marker::Model;

/// A source over memory, which gives at most a piece a call and fails at the calls that it is told.
#[derive(Drop)]
pub struct MemSource {
    bytes: Vec<u8>,
    at: usize,
    piece: u32,
    failing: Vec<u64>,
    calls: u64,
    faults: u64,
}

impl Model for MemSource {
    ghost use Rattle.std.specs.Prelude.{◌≤◌, drop, vec_len};
    ghost use Rattle.fs_io.specs.InMemory.{MemoryInput};

    ghost Value = { MemoryInput };

    ghost view = { λ s. record {
      left = drop s.at s.bytes.items;
      piece = s.piece;
      failing = s.failing.items;
      calls = s.calls;
      faults = s.faults;
    } };

    ghost invariant = { λ s. (s.at ≤ vec_len s.bytes) × (1 ≤ s.piece) };
}

impl MemSource {
    /// A source of these bytes, of which one call gives at most `piece`. `failing` lists the calls
    /// that fail: the first call is call 1.
    pub fn new(bytes: Vec<u8>, piece: u32, failing: Vec<u64>) -> MemSource
        requires { 1 ≤ piece }
        ensures { result ≡ record {
          left = bytes.items;
          piece = piece;
          failing = failing.items;
          calls = 0;
          faults = 0;
        } }
    {
        MemSource {
            bytes,
            at: 0,
            piece,
            failing,
            calls: 0,
            faults: 0,
        }
    }
}

impl Source for MemSource {
    ghost left = { λ s. Some s.left };

    ghost faults = { λ s. s.faults };

    fn take(&mut self, into: &mut [u8]) -> Result<usize, SourceFailed>
        ensures bound { ReadsAtMost result into.new }
        ensures bytes { ReadConsumes (Some self.old.left) (Some self.new.left) result into.new }
        ensures cause { HasIoCause self.old.faults self.new.faults result }
        ensures quiet { OnOk result (self.new.faults ≡ self.old.faults) }

        // What it gives, what it leaves, and what stands in the slice then.
        ensures answer { result ≡ take_answer self.old (length into.old) }
        ensures state { self.new ≡ after_take self.old (length into.old) }
        ensures filled { into.new ≡ into_after_take self.old into.old }

        // With no calls listed it never fails.
        ensures unlisted { self.old.failing ≡ [] → IsOk result }
    {
        self.calls = self.calls.saturating_add(1);
        if self.failing.contains(&self.calls) {
            self.faults = self.faults.saturating_add(1);
            return Err(SourceFailed);
        }
        let start = self.at;
        let count = copy_front(&self.bytes[start..], into, self.piece);
        self.at += count;
        Ok(count)
    }
}

/// Copies as many bytes as there are, as fit, and as a piece has.
fn copy_front(bytes: &[u8], into: &mut [u8], piece: u32) -> usize
    requires { 1 ≤ piece }
    ensures count { result ≡ min (min (length bytes.now) (length into.old)) piece }
    ensures end { result ≡ 0 → 0 < length into.old → bytes.now ≡ [] }
    ensures filled { into.new ≡ take result bytes.now ++ drop result into.old }
    ensures copied { take result into.new ≡ take result bytes.now }
{
    let count = bytes.len().min(into.len()).min(piece as usize);
    into[..count].copy_from_slice(&bytes[..count]);
    count
}
