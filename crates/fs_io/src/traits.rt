ghost use Rattle.std.specs.Prelude.{◌≡◌, ◌<◌, ℕ, List, Option, length, IfOk, OnOk};
ghost use Rattle.std.specs.Io.{ReadsAtMost, WritesAtMost};
ghost use Rattle.std.specs.Io.KnownBytes.{ReadConsumes, WriteAppends};
ghost use Rattle.fs_io.specs.Causes.{HasIoCause};

/// A read that failed. It took nothing.
#[derive(Clone, Copy, Debug, PartialEq, Eq)]
pub struct SourceFailed;

/// A write that failed. It wrote nothing.
#[derive(Clone, Copy, Debug, PartialEq, Eq)]
pub struct SinkFailed;

/// Where bytes come from.
pub trait Source {
    /// The bytes that are still to come, where the source tells them.
    ghost left: { Self → Option (List ℕ) };

    /// How many takes failed, up to a greatest count at which it stands.
    ghost faults: { Self → ℕ };

    /// Takes the next bytes to the front of the slice, and returns how many: none only at the end
    /// of input or into an empty slice.
    fn take(&mut self, into: &mut [u8]) -> Result<usize, SourceFailed>
        ensures bound { ReadsAtMost result into.new }
        ensures bytes { ReadConsumes (left self.old) (left self.new) result into.new }
        ensures cause { HasIoCause (faults self.old) (faults self.new) result }
        ensures quiet { OnOk result (faults self.new ≡ faults self.old) };
}

/// Where bytes go.
pub trait Sink {
    /// The bytes that were written, where the sink tells them.
    ghost written: { Self → Option (List ℕ) };

    /// How many puts failed, up to a greatest count at which it stands.
    ghost faults: { Self → ℕ };

    /// Takes some of the first bytes, at least one where there is one, and returns how many.
    fn put(&mut self, bytes: &[u8]) -> Result<usize, SinkFailed>
        ensures bound { WritesAtMost result bytes.now }
        ensures some { IfOk result (λ n. 0 < length bytes.now → 0 < n) }
        ensures bytes { WriteAppends (written self.old) (written self.new) result bytes.now }
        ensures cause { HasIoCause (faults self.old) (faults self.new) result }
        ensures quiet { OnOk result (faults self.new ≡ faults self.old) };
}
