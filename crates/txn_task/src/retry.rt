ghost use Rattle.std.specs.Prelude.{◌≡◌, ◌≤◌, ◌∷◌, ◌++◌, [], length, nat_lt, IfOk, OnOk, OnErr};

use crate::copies::copy_conflicts;
use fs_base::limits::ATTEMPTS;
use fs_base::{Items, Memory};
use key_schema::Key;
use std::alloc::Global;
use std::marker::Model;

/// How many attempts a request may make, 1 to 64, and the conflicts that it met.
#[derive(Debug, Drop)]
pub struct Retry {
    attempts: u8,
    conflicts: Items<(u64, Key)>,
}

impl Model for Retry {
    ghost use Rattle.std.specs.Prelude.{◌≤◌};
    ghost use Rattle.fs_base.specs.declared.limits.TheConstants.{ATTEMPTS};
    ghost use Rattle.txn_task.specs.Tries.{Tries};

    ghost Value = { Tries };

    ghost view = { λ r. record { attempts = r.attempts; conflicts = r.conflicts } };

    ghost invariant = { λ r. (1 ≤ r.attempts) × (r.attempts ≤ ATTEMPTS) };
}

impl Retry {
    /// No conflict was met yet.
    pub fn new(alloc: Global, attempts: u8) -> Retry
        requires from { 1 ≤ attempts }
        requires to { attempts ≤ ATTEMPTS }
        ensures { result ≡ record { attempts = attempts; conflicts = [] } }
    {
        Retry {
            attempts,
            conflicts: Items::new(alloc),
        }
    }

    /// Records the conflict of an attempt. The answer: whether there may be another attempt.
    ///
    /// Without memory for it nothing is recorded.
    pub fn again(&mut self, version: u64, key: Key) -> Result<bool, Memory>
        ensures ok { OnOk result
            (self.new ≡ record self.old { conflicts = self.old.conflicts ++ (version, key) ∷ [] }) }
        ensures more { IfOk result (λ more. more ≡ nat_lt (length self.new.conflicts) self.new.attempts) }
        ensures err { OnErr result (self.new ≡ self.old) }
    {
        self.conflicts.push((version, key))?;
        Ok(self.conflicts.len() < usize::from(self.attempts))
    }

    /// A copy of the conflicts, in the order of the attempts.
    pub fn conflicts(&self, alloc: Global) -> Result<Items<(u64, Key)>, Memory>
        ensures { IfOk result (λ copies. copies ≡ self.now.conflicts) }
    {
        copy_conflicts(alloc, self.conflicts.as_slice())
    }
}
