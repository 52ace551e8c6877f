//! A look into one key's chain of versions.

ghost use Rattle.std.specs.Prelude.{◌≡◌, ◌<◌, ◌≤◌, ◌+◌, length, IfOk};

use fs_base::Memory;
use kv_store::{Steps, VersionChain};
use std::alloc::Global;
use std::marker::Brand;
use std::sync::ledger::{Blank, Ledger};

/// The chain of the versions 2, 5 and 9.
fn chain(alloc: Global) -> Result<VersionChain, Memory>
    ensures { IfOk result (λ chain. length chain ≡ 3) }
{
    let mut chain = VersionChain::new(alloc);
    chain.push(2, None)?;
    chain.push(5, None)?;
    chain.push(9, None)?;
    Ok(chain)
}

/// In a chain of three versions it takes two steps at most.
fn at<L: Ledger>(chain: &VersionChain, version: u64, steps: &mut Steps<L>) -> Option<u64>
    requires { length chain.now ≡ 3 }
    ensures { steps.new ≤ steps.old + 2 }
{
    chain.at(version, steps)
}

fn look_in<L: Ledger>(chain: &VersionChain, version: u64, blank: Blank) -> Option<u64>
    requires name { blank.name ≡ L.name }
    requires parts { blank.parts ≡ L.parts }
    requires some { 0 < blank.parts }
    requires three { length chain.now ≡ 3 }
{
    let mut steps = Steps::<L>::new(blank);
    at(chain, version, &mut steps)
}

/// The greatest of these versions that is at most this one.
pub fn look(alloc: Global, version: u64) -> Result<Option<u64>, Memory> {
    let chain = chain(alloc)?;
    Ok(look_in::<Brand>(&chain, version, Blank::new(1)))
}
