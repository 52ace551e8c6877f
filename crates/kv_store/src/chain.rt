ghost use Rattle.std.specs.Prelude.{◌≡◌, ◌+◌, ◌-◌, ◌*◌, ◌^◌, ◌<◌, ◌≤◌, [], ◌∷◌, ◌++◌, length, take, OnOk, OnErr, Some};
ghost use Rattle.std.specs.Option.{option_map, option_copied};
ghost use Rattle.kv_store.specs.Chains.{AreBelow, AreOutside, AreVersionsRising, IsSplit, up_to, last_of};

use crate::steps::Steps;
use fs_base::{Memory, Text};
use std::alloc::Global;
use std::marker::{Brand, Model};
use std::sync::ledger::{Blank, Ledger};

/// A version that wrote a key, with the value that it gave it. `None`: it took the value away.
#[derive(Debug, Drop)]
pub struct Version {
    pub version: u64,
    pub value: Option<Text>,
}

/// The versions that wrote one key, oldest first.
#[derive(Drop)]
pub struct VersionChain {
    versions: Vec<Version>,
}

impl Model for VersionChain {
    ghost use Rattle.std.specs.Prelude.{List};
    ghost use Rattle.kv_store.specs.declared.chain.Version.{Version};
    ghost use Rattle.kv_store.specs.Chains.{AreVersionsRising};

    ghost Value = { List Version };

    ghost view = { λ s. s.versions.items };

    ghost invariant = { λ s. AreVersionsRising s.versions.items };
}

impl VersionChain {
    /// No version. It takes memory as it grows.
    pub fn new(alloc: Global) -> VersionChain
        ensures { result ≡ [] }
    {
        VersionChain {
            versions: Vec::new(alloc),
        }
    }

    /// Adds a version above all others.
    pub fn push(&mut self, version: u64, value: Option<Text>) -> Result<(), Memory>
        requires { AreBelow version self.old }
        ensures ok { OnOk result (self.new ≡ self.old ++ record { version = version; value = value } ∷ []) }
        ensures err { OnErr result (self.new ≡ self.old) }
    {
        self.versions.push(Version { version, value })?;
        Ok(())
    }

    /// The greatest version that is at most this one. It halves what is left to look at with each step.
    pub fn at<L: Ledger>(&self, version: u64, steps: &mut Steps<L>) -> Option<u64>
        ensures value { result ≡ option_map (λ last. last.version) (last_of (up_to version self.now)) }
        ensures cost { 2 ^ (steps.new - steps.old) ≤ 2 * length self.now + 1 }
        ensures counts { steps.old ≤ steps.new }
    {
        let versions = self.versions.as_slice();
        let place = place_of(versions, version, steps);
        number(in_front(versions, place))
    }

    /// The last version that is at most this one, with its value.
    pub fn seen(&self, version: u64) -> Option<&Version>
        ensures { option_copied result ≡ last_of (up_to version self.now) }
    {
        let versions = self.versions.as_slice();
        let place = place_in(versions, version);
        in_front(versions, place)
    }

    /// The first version after this one where it comes before `until`, and else `until`.
    pub fn first_after(&self, version: u64, until: u64) -> u64
        requires { version < until }
        ensures outside { AreOutside version result self.now }
        ensures later { version < result }
        ensures until { result ≤ until }
    {
        let versions = self.versions.as_slice();
        let place = place_in(versions, version);
        if place == versions.len() {
            return until;
        }
        versions[place].version.min(until)
    }

    /// Takes out the versions after this one.
    pub fn cut(&mut self, version: u64)
        ensures { self.new ≡ up_to version self.old }
    {
        let place = place_in(self.versions.as_slice(), version);
        self.versions.truncate(place);
    }
}

/// The version in front of a place.
fn in_front(versions: &[Version], place: usize) -> Option<&Version>
    requires { place ≤ length versions.now }
    ensures { option_copied result ≡ last_of (take place versions.now) }
{
    versions[..place].last()
}

fn number(last: Option<&Version>) -> Option<u64>
    ensures { result ≡ option_map (λ last. last.version) (option_copied last.entry) }
{
    match last {
        None => None,
        Some(last) => Some(last.version),
    }
}

/// The number of versions that are at most this one, where nobody counts.
fn place_in(versions: &[Version], version: u64) -> usize
    requires { AreVersionsRising versions.now }
    ensures { IsSplit versions.now version result }
{
    uncounted::<Brand>(versions, version, Blank::new(1))
}

fn uncounted<L: Ledger>(versions: &[Version], version: u64, blank: Blank) -> usize
    requires name { blank.name ≡ L.name }
    requires parts { blank.parts ≡ L.parts }
    requires some { 0 < blank.parts }
    requires rising { AreVersionsRising versions.now }
    ensures { IsSplit versions.now version result }
{
    let mut steps = Steps::<L>::new(blank);
    place_of(versions, version, &mut steps)
}

/// The number of versions that are at most this one.
fn place_of<L: Ledger>(versions: &[Version], version: u64, steps: &mut Steps<L>) -> usize
    requires { AreVersionsRising versions.now }
    ensures split { IsSplit versions.now version result }
    ensures cost { 2 ^ (steps.new - steps.old) ≤ 2 * length versions.now + 1 }
    ensures counts { steps.old ≤ steps.new }
{
    let mut low = 0;
    let mut high = versions.len();
    while low < high {
        steps.tick();
        let middle = low + (high - low) / 2;
        if versions[middle].version <= version {
            low = middle + 1;
        } else {
            high = middle;
        }
    }
    low
}
