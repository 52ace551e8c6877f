ghost use Rattle.std.specs.Prelude.{◌≡◌, ◌+◌, ◌<◌, ◌≤◌, [], Some, Ok, IfOk, IsOk, OnOk, length};
ghost use Rattle.std.specs.Io.{WritesAtMost};
ghost use Rattle.std.specs.Io.KnownBytes.{WriteAppends};
ghost use Rattle.fs_io.specs.Causes.{HasIoCause};
ghost use Rattle.fs_io.specs.InMemory.{put_answer, after_put};

use crate::traits::{Sink, SinkFailed};
use fs_base::Memory;
use std::alloc::Global;
use std::marker::Model;

/// A sink over memory with a fixed room, which fails at the calls that it is told.
#[derive(Drop)]
pub struct MemSink {
    bytes: Vec<u8>,
    room: u32,
    failing: Vec<u64>,
    calls: u64,
    faults: u64,
}

impl Model for MemSink {
    ghost use Rattle.std.specs.Prelude.{◌≤◌, vec_len, vec_capacity};
    ghost use Rattle.fs_io.specs.InMemory.{MemoryOutput};

    ghost Value = { MemoryOutput };

    ghost view = { λ s. record {
      written = s.bytes.items;
      room = s.room;
      failing = s.failing.items;
      calls = s.calls;
      faults = s.faults;
    } };

    ghost invariant = { λ s. (vec_len s.bytes ≤ s.room) × (s.room ≤ vec_capacity s.bytes) };
}

impl MemSink {
    /// A sink for at most `room` bytes, whose memory is taken here, and none later. `failing` lists
    /// the calls that fail: the first call is call 1.
    pub fn new(alloc: Global, room: u32, failing: Vec<u64>) -> Result<MemSink, Memory>
        ensures empty { IfOk result (λ sink. sink ≡ record {
          written = [];
          room = room;
          failing = failing.items;
          calls = 0;
          faults = 0;
        }) }
        ensures succeeds { room ≡ 0 → IsOk result }
    {
        Ok(MemSink {
            bytes: Vec::with_capacity(alloc, room as usize)?,
            room,
            failing,
            calls: 0,
            faults: 0,
        })
    }

    /// The bytes that were written.
    pub fn bytes(&self) -> &[u8]
        ensures { result.now ≡ self.now.written }
    {
        self.bytes.as_slice()
    }
}

impl Sink for MemSink {
    ghost written = { λ s. Some s.written };

    ghost faults = { λ s. s.faults };

    fn put(&mut self, bytes: &[u8]) -> Result<usize, SinkFailed>
        ensures bound { WritesAtMost result bytes.now }
        ensures some { IfOk result (λ n. 0 < length bytes.now → 0 < n) }
        ensures bytes { WriteAppends (Some self.old.written) (Some self.new.written) result bytes.now }
        ensures cause { HasIoCause self.old.faults self.new.faults result }
        ensures quiet { OnOk result (self.new.faults ≡ self.old.faults) }

        // How much it takes, and what it holds then.
        ensures answer { result ≡ put_answer self.old bytes.now }
        ensures state { self.new ≡ after_put self.old bytes.now }

        // With no calls listed it takes each piece whole that there is room for.
        ensures unlisted { self.old.failing ≡ []
            → length self.old.written + length bytes.now ≤ self.old.room
            → result ≡ Ok (length bytes.now) }
    {
        self.calls = self.calls.saturating_add(1);
        let free = self.room as usize - self.bytes.len();
        let is_full = !bytes.is_empty() && free == 0;
        if self.failing.contains(&self.calls) || is_full {
            self.faults = self.faults.saturating_add(1);
            return Err(SinkFailed);
        }
        let count = free.min(bytes.len());
        let Ok(()) = self.bytes.extend_from_slice(&bytes[..count]) else {
            unreachable!()
        };
        Ok(count)
    }
}
