use anyhow::{Result, bail};
use fs_base::{ClientId, Reply, Request};
use std::alloc::Global;
use test_support::{call_of, config_of};
use tree_model::{Tree, is_told};

/// The new tree of a configuration in words.
pub fn planted(alloc: Global, words: &[&str]) -> Result<Tree> {
    let config = config_of(words)?;
    let tree = Tree::new(alloc, config)?;
    Ok(tree)
}

/// A request of server 0: client, number, stamp, and the call in words.
fn request_of(alloc: Global, words: &[&str]) -> Result<Request> {
    let [client, number, stamp, call @ ..] = words else {
        bail!("a request has a client, a number and a stamp");
    };
    let client = ClientId(client.parse::<u128>()?);
    let number = number.parse::<u64>()?;
    let stamp = stamp.parse::<u64>()?;
    let call = call_of(alloc, call)?;
    Ok(Request {
        server: 0,
        client,
        number,
        stamp,
        call,
    })
}

fn answer(alloc: Global, tree: &mut Tree, request: &Request) -> Result<Reply> {
    if request.server >= 16 || !is_told(&request.call) {
        bail!("the call isn't told");
    }
    let reply = tree.apply(alloc, request, None)?;
    Ok(reply)
}

/// What the plain tree answers a request in words.
pub fn told(alloc: Global, tree: &mut Tree, words: &[&str]) -> Result<String> {
    let request = request_of(alloc, words)?;
    let reply = answer(alloc, tree, &request)?;
    Ok(format!(in alloc; " = {reply:?}")?)
}
