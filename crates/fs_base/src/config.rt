ghost use Rattle.std.specs.Prelude.{◌≡◌, ◌≤◌, ◌↔◌, IsSome, IfSome};
ghost use Rattle.fs_base.specs.Config.{IsConfig, default_settings, admits};

use crate::layout::DefaultLayout;
use crate::limits::{CHAINS, CHUNK_BYTES, NODES, SERVERS};
use std::marker::Model;

/// The numbers of servers, storage nodes and replica chains, and the root's default layout.
///
/// Servers and nodes are 1 to 16, chains 1 to 256, the chunk 1 to 4,194,304 bytes, the stripe 1 to the
/// chains.
#[derive(Clone, Copy, Debug, PartialEq, Eq)]
pub struct Config {
    servers: u8,
    nodes: u8,
    chains: u16,
    chunk: u32,
    stripe: u16,
}

impl Model for Config {
    ghost use Rattle.fs_base.specs.Config.{Settings, IsConfig};

    ghost Value = { Settings };

    ghost view = { λ c. record {
      servers = c.servers;
      nodes = c.nodes;
      chains = c.chains;
      chunk = c.chunk;
      stripe = c.stripe;
    } };

    ghost invariant = { λ c. IsConfig c.servers c.nodes c.chains c.chunk c.stripe };

    ghost inverse = { λ v. record {
      servers = v.servers;
      nodes = v.nodes;
      chains = v.chains;
      chunk = v.chunk;
      stripe = v.stripe;
    } };
}

impl Config {
    /// `None` exactly where a number is out of its range.
    pub fn new(servers: u8, nodes: u8, chains: u16, chunk: u32, stripe: u16) -> Option<Config>
        ensures some { IsSome result ↔ IsConfig servers nodes chains chunk stripe }
        ensures value { IfSome result (λ c. c ≡ record {
          servers = servers;
          nodes = nodes;
          chains = chains;
          chunk = chunk;
          stripe = stripe;
        }) }
    {
        if 1 <= servers
            && servers <= SERVERS
            && 1 <= nodes
            && nodes <= NODES
            && 1 <= chains
            && chains <= CHAINS
            && 1 <= chunk
            && chunk <= CHUNK_BYTES
            && 1 <= stripe
            && stripe <= chains
        {
            Some(Config {
                servers,
                nodes,
                chains,
                chunk,
                stripe,
            })
        } else {
            None
        }
    }

    /// One server, node and chain, and chunks of 1 MiB.
    pub fn single() -> Config
        ensures { result ≡ default_settings }
    {
        Config {
            servers: 1,
            nodes: 1,
            chains: 1,
            chunk: 1_048_576,
            stripe: 1,
        }
    }

    pub fn servers(&self) -> u8
        ensures value { result ≡ self.now.servers }
        ensures from { 1 ≤ result }
        ensures to { result ≤ SERVERS }
    {
        self.servers
    }

    pub fn nodes(&self) -> u8
        ensures value { result ≡ self.now.nodes }
        ensures from { 1 ≤ result }
        ensures to { result ≤ NODES }
    {
        self.nodes
    }

    pub fn chains(&self) -> u16
        ensures value { result ≡ self.now.chains }
        ensures from { 1 ≤ result }
        ensures to { result ≤ CHAINS }
    {
        self.chains
    }

    pub fn chunk(&self) -> u32
        ensures value { result ≡ self.now.chunk }
        ensures from { 1 ≤ result }
        ensures to { result ≤ CHUNK_BYTES }
    {
        self.chunk
    }

    pub fn stripe(&self) -> u16
        ensures value { result ≡ self.now.stripe }
        ensures from { 1 ≤ result }
        ensures to { result ≤ self.now.chains }
    {
        self.stripe
    }

    /// Whether a directory may have this default: else `BadLayout`.
    pub fn admits(&self, layout: DefaultLayout) -> bool
        ensures { result ≡ admits self.now layout }
    {
        (1 <= layout.chunk && layout.chunk <= CHUNK_BYTES)
            && (1 <= layout.stripe && layout.stripe <= self.chains)
    }
}
