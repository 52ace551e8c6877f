ghost use Rattle.std.specs.Prelude.{◌≡◌, ◌+◌, ◌<◌, ℕ, List, ◌++◌, IsSome, IfOk, OnOk, OnErr, None};
ghost use Rattle.std.specs.Option.{option_copied};
ghost use Rattle.std.specs.Map.{lookup};
ghost use Rattle.std.specs.Ordering.{is_eq};
ghost use Rattle.conflict_sets.specs.Keys.{key_cmp};
ghost use Rattle.conflict_sets.specs.Rows.{IsAscending, value_at_key};
ghost use Rattle.conflict_sets.specs.Writes.{AreAscending};
ghost use Rattle.kv_store.specs.Journal.{written_value};
ghost use Rattle.kv_store.specs.Chains.{AreBelow, up_to, last_of};
ghost use Rattle.kv_store.specs.Versions.{opening_version, written_version, chain_at, with_version, cut_where, cut_written};

use crate::chain::{Version, VersionChain};
use crate::read::copied;
use conflict_sets::{Write, WriteSet};
use fs_base::limits::JOURNAL_ENTRIES;
use fs_base::{Memory, Row, Text};
use std::alloc::Global;
use std::collections::BTreeMap;

/// The versions of each key, by the order of keys.
///
/// A key whose value was taken away has a chain too, since older versions are still read. Ranges pass it
/// over.
pub type Chains = BTreeMap<Text, VersionChain>;

/// The last version of a key that is at most this one.
pub fn seen<'a>(chains: &'a Chains, key: &Text, version: u64) -> Option<&'a Version>
    ensures { option_copied result ≡ last_of (up_to version (chain_at chains.now.entries key.now)) }
{
    match chains.get(key) {
        None => None,
        Some(chain) => chain.seen(version),
    }
}

/// The chains of opening rows, which are of version 0.
pub fn opening_chains(alloc: Global, rows: &[Row]) -> Result<Chains, Memory>
    requires { IsAscending rows.now }
    ensures { IfOk result
        (λ chains. (key : List ℕ) → chain_at chains.entries key ≡ opening_version (value_at_key rows.now key)) }
{
    let mut chains = BTreeMap::new(alloc);
    for row in rows {
        add(alloc, &mut chains, 0, &row.key, Some(&row.value))?;
    }
    Ok(chains)
}

/// Gives a key a version above all that it has.
fn add(
    alloc: Global,
    chains: &mut Chains,
    version: u64,
    key: &Text,
    value: Option<&Text>,
) -> Result<(), Memory>
    requires { AreBelow version (chain_at chains.old.entries key.now) }
    ensures ok { OnOk result
        ((other : List ℕ)
        → chain_at chains.new.entries other
        ≡ with_version (is_eq (key_cmp other key.now)) version (option_copied value.entry)
        (chain_at chains.old.entries other)) }
    ensures err { OnErr result
        ((other : List ℕ) → chain_at chains.new.entries other ≡ chain_at chains.old.entries other) }
{
    let value = copied(value)?;
    if chains.contains_key(key) {
        extend(chains, version, key, value)
    } else {
        begin(alloc, chains, version, key, value)
    }
}

fn extend(chains: &mut Chains, version: u64, key: &Text, value: Option<Text>) -> Result<(), Memory>
    requires there { IsSome (lookup (λ other. is_eq (key_cmp key.now other)) chains.old.entries) }
    requires below { AreBelow version (chain_at chains.old.entries key.now) }
    ensures ok { OnOk result
        ((other : List ℕ)
        → chain_at chains.new.entries other
        ≡ with_version (is_eq (key_cmp other key.now)) version value (chain_at chains.old.entries other)) }
    ensures err { OnErr result
        ((other : List ℕ) → chain_at chains.new.entries other ≡ chain_at chains.old.entries other) }
{
    match chains.get_mut(key) {
        None => Ok(()),
        Some(chain) => {
            chain.push(version, value)?;
            Ok(())
        }
    }
}

fn begin(
    alloc: Global,
    chains: &mut Chains,
    version: u64,
    key: &Text,
    value: Option<Text>,
) -> Result<(), Memory>
    requires { lookup (λ other. is_eq (key_cmp key.now other)) chains.old.entries ≡ None }
    ensures ok { OnOk result
        ((other : List ℕ)
        → chain_at chains.new.entries other
        ≡ with_version (is_eq (key_cmp other key.now)) version value (chain_at chains.old.entries other)) }
    ensures err { OnErr result (chains.new.entries ≡ chains.old.entries) }
{
    let key = key.try_clone()?;
    let mut chain = VersionChain::new(alloc);
    chain.push(version, value)?;
    chains.insert(key, chain)?;
    Ok(())
}

/// Gives each written key the version after the front; without memory for it no key has one.
pub fn add_all(
    alloc: Global,
    chains: &mut Chains,
    front: u64,
    writes: &WriteSet,
) -> Result<(), Memory>
    requires few { front < JOURNAL_ENTRIES }
    requires below { (key : List ℕ) → AreBelow (front + 1) (chain_at chains.old.entries key) }
    ensures ok { OnOk result
        ((key : List ℕ)
        → chain_at chains.new.entries key ≡ chain_at chains.old.entries key
        ++ written_version (written_value writes.now.writes key) (front + 1)) }
    ensures err { OnErr result
        ((key : List ℕ) → chain_at chains.new.entries key ≡ chain_at chains.old.entries key) }
{
    let pushed = push_all(alloc, chains, front, writes.writes.as_slice());
    if pushed.is_err() {
        take_back(chains, front, writes.writes.as_slice());
    }
    pushed
}

fn push_all(alloc: Global, chains: &mut Chains, front: u64, writes: &[Write]) -> Result<(), Memory>
    requires few { front < JOURNAL_ENTRIES }
    requires ascending { AreAscending writes.now }
    requires below { (key : List ℕ) → AreBelow (front + 1) (chain_at chains.old.entries key) }
    ensures ok { OnOk result
        ((key : List ℕ)
        → chain_at chains.new.entries key ≡ chain_at chains.old.entries key
        ++ written_version (written_value writes.now key) (front + 1)) }
    ensures err { OnErr result
        ((key : List ℕ)
        → cut_written (written_value writes.now key) front (chain_at chains.new.entries key)
        ≡ chain_at chains.old.entries key) }
{
    for write in writes {
        add(alloc, chains, front + 1, &write.key, write.value.as_ref())?;
    }
    Ok(())
}

/// Takes out what comes after the front at these keys. It takes no memory, so a commit that runs out of
/// memory among its keys needs no copy of the chains.
fn take_back(chains: &mut Chains, front: u64, writes: &[Write])
    ensures { (key : List ℕ)
        → chain_at chains.new.entries key
        ≡ cut_written (written_value writes.now key) front (chain_at chains.old.entries key) }
{
    for write in writes {
        cut_at(chains, front, &write.key);
    }
}

fn cut_at(chains: &mut Chains, front: u64, key: &Text)
    ensures { (other : List ℕ)
        → chain_at chains.new.entries other
        ≡ cut_where (is_eq (key_cmp other key.now)) front (chain_at chains.old.entries other) }
{
    match chains.get_mut(key) {
        None => {}
        Some(chain) => chain.cut(front),
    }
}
