//! What clients keep to together.

ghost use Rattle.std.specs.Prelude.{◌≡◌, ◌≤◌, length, All, IsTrue};
ghost use Rattle.client_core.specs.Plans.{ops_in, AreDistinct};
ghost use Rattle.scenario.specs.Scenario.{are_distinct, has_id};

use client_core::Script;
use fs_base::ClientId;
use fs_base::limits::{CLIENTS, OPERATIONS};

fn has_id(id: ClientId, scripts: &[Script]) -> bool
    ensures { result ≡ has_id id scripts.now }
{
    for script in scripts {
        if script.id.0 == id.0 {
            return true;
        }
    }
    false
}

/// Whether no two clients have the same id.
pub fn are_distinct(scripts: &[Script]) -> bool
    ensures value { result ≡ are_distinct scripts.now }
    ensures distinct { IsTrue result → AreDistinct scripts.now }
{
    for (i, script) in scripts.iter().enumerate() {
        if has_id(script.id, &scripts[i + 1..]) {
            return false;
        }
    }
    true
}

/// How many operations the clients have together.
pub fn ops_in(scripts: &[Script]) -> usize
    requires few { length scripts.now ≤ CLIENTS }
    requires short { All (λ script. length script.ops ≤ OPERATIONS) scripts.now }
    ensures { result ≡ ops_in scripts.now }
{
    let mut count = 0;
    for script in scripts {
        count += script.ops.len();
    }
    count
}
