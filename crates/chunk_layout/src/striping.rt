ghost use Rattle.std.specs.Prelude.{◌≡◌, ◌≢◌, ◌≤◌, ◌<◌, ◌-◌, ◌%◌, [], length, All, AllPairs, slice_index, IfOk};
ghost use Rattle.chunk_layout.specs.Striping.{chains_of, in_turn, shuffled, IsLayoutOf, IsInBounds};

use fs_base::limits::{CHAINS, INODE_IDS};
use fs_base::{Config, Layout, Memory};
use std::alloc::Global;

/// The chain of each place of a file, from place 0 on: different chains, as many as the stripe.
pub fn places(alloc: Global, config: &Config, layout: &Layout) -> Result<Vec<u16>, Memory>
    requires layout { IsLayoutOf config.now layout.now }
    ensures value { IfOk result (λ chains. chains.items ≡ chains_of config.now layout.now) }
    ensures size { IfOk result (λ chains. length chains.items ≡ layout.now.stripe) }
    ensures within { IfOk result (λ chains. All (λ chain. chain < config.now.chains) chains.items) }
    ensures distinct { IfOk result (λ chains. AllPairs (λ one other. one ≢ other) chains.items) }
{
    known(config, layout);
    let chains = chains_in_turn(alloc, config, layout)?;
    Ok(shuffle(chains, layout.mix))
}

/// The bounds of a layout that a configuration gives. It does nothing.
fn known(config: &Config, layout: &Layout)
    requires { IsLayoutOf config.now layout.now }
    ensures { IsInBounds config.now layout.now }
{
    let _chains = config.chains();
}

/// As many chains as the stripe, one after another from the start.
fn chains_in_turn(alloc: Global, config: &Config, layout: &Layout) -> Result<Vec<u16>, Memory>
    requires { IsLayoutOf config.now layout.now }
    ensures { IfOk result (λ chains. chains.items ≡ in_turn config.now layout.now) }
{
    known(config, layout);
    let mut chains = Vec::new(alloc);
    for place in 0..layout.stripe {
        chains.push((layout.start + place) % config.chains())?;
    }
    Ok(chains)
}

/// From the last place down to the second, each changes places with one at or before it.
fn shuffle(mut chains: Vec<u16>, mix: u64) -> Vec<u16>
    requires some { 1 ≤ length chains.items }
    requires few { length chains.items ≤ CHAINS }
    requires mix { mix < INODE_IDS }
    ensures { result.items ≡ shuffled mix (length chains.items - 1) chains.items }
{
    for done in 1..chains.len() {
        let place = chains.len() - done;
        let other = (mix + 7 * place as u64) % (place as u64 + 1);
        chains.swap(place, other as usize);
    }
    chains
}

/// The chain of a chunk: chunks go round the places.
pub fn chain_of(places: &[u16], index: u64) -> u16
    requires { places.now ≢ [] }
    ensures { result ≡ slice_index places.now (index % length places.now) }
{
    places[(index % places.len() as u64) as usize]
}
