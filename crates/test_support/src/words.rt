use anyhow::{Result, bail};
use fs_base::{Config, Text};
use std::alloc::Global;

/// The words of a line.
pub fn split<'a>(alloc: Global, line: &'a str) -> Result<Vec<&'a str>> {
    let words = line.split_whitespace().collect(alloc)?;
    Ok(words)
}

/// Bytes in hexadecimal; a digit that is none, and an odd number of them, are refused.
pub fn bytes_of(alloc: Global, word: &str) -> Result<Text> {
    let bytes = hex::decode(alloc, word)?;
    Ok(Text::from_vec(bytes))
}

/// A number, or `-` for none.
pub fn given(word: &str) -> Result<Option<u64>> {
    if word == "-" {
        return Ok(None);
    }
    let number = word.parse::<u64>()?;
    Ok(Some(number))
}

/// Servers, nodes, chains, and the root's chunk and stripe.
pub fn config_of(words: &[&str]) -> Result<Config> {
    let [servers, nodes, chains, chunk, stripe] = words else {
        bail!("a configuration has five numbers");
    };
    let servers = servers.parse::<u8>()?;
    let nodes = nodes.parse::<u8>()?;
    let chains = chains.parse::<u16>()?;
    let chunk = chunk.parse::<u32>()?;
    let stripe = stripe.parse::<u16>()?;
    match Config::new(servers, nodes, chains, chunk, stripe) {
        Some(config) => Ok(config),
        None => bail!("a number of the configuration is out of its range"),
    }
}
