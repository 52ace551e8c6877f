//! Bytes, rows and the plain tree: reads a list of cases, and writes what comes of each.
//!
//! A line is one of these, or a remark behind `#`:
//! - `key`, `inode`, `dent`, `session`, `kept`, `alloc`, `gc`, `call` or `reply`, and bytes in hexadecimal: what they
//!   read as, or where they don't. Where writing it again gives other bytes, these are written behind it.
//! - `range ID`: from where and up to where the keys of an inode's entries and of its sessions are.
//! - `config` and its five numbers: of the rows that follow.
//! - `base EDIT..`: changes the rows that the cases begin with. An edit is `KEY=VALUE` or `-KEY`.
//! - `tree EDIT..`: whether these rows, so changed, are those of a tree.
//! - `list KEY=VALUE..`: the same of rows in the given order.
//! - `opening`: the rows of a new store, and what stands at the path `/` of their tree.
//! - `plain` and the five numbers of a configuration: a new plain tree.
//! - `apply CLIENT NUMBER STAMP CALL`: the call in words, and what the plain tree answers; the tree goes on from there.
#![tactic(auto)]

mod plain;
mod spelled;
mod trees;

use anyhow::Result;
use fs_base::Config;
use std::alloc::Global;
use std::io;
use test_support::{Bench, split, tell_all};
use tree_model::Tree;
use trees::Forest;

/// What the lines before have set.
#[derive(Drop)]
struct Cases {
    forest: Forest,
    tree: Tree,
}

fn set_tree(tree: &mut Tree, new: Tree) {
    *tree = new;
}

fn told(alloc: Global, cases: &mut Cases, kind: &str, rest: &str) -> Result<String> {
    match kind {
        "config" | "base" | "tree" | "list" | "opening" => {
            let words = split(alloc, rest)?;
            trees::told(alloc, &mut cases.forest, kind, words.as_slice())
        }
        "plain" => {
            let words = split(alloc, rest)?;
            let tree = plain::planted(alloc, words.as_slice())?;
            set_tree(&mut cases.tree, tree);
            Ok(String::new(alloc))
        }
        "apply" => {
            let words = split(alloc, rest)?;
            plain::told(alloc, &mut cases.tree, words.as_slice())
        }
        "range" => spelled::ranges(alloc, rest),
        _ => spelled::told(alloc, kind, rest),
    }
}

impl Bench for Cases {
    fn tell(&mut self, alloc: Global, line: &str, out: &mut String) -> Result<()> {
        let (kind, rest) = line.split_once(' ').unwrap_or((line, ""));
        let told = told(alloc, self, kind, rest)?;
        writeln!(out, "{line}{told}")?;
        Ok(())
    }
}

fn main(rt: HostRuntime) -> Result<()> {
    let lines = io::read_to_string(rt.alloc(), rt.reader())?;
    let mut cases = Cases {
        forest: Forest::new(rt.alloc()),
        tree: Tree::new(rt.alloc(), Config::single())?,
    };
    let mut out = String::new(rt.alloc());
    let told = tell_all(rt.alloc(), &mut cases, lines.as_str(), &mut out);
    rt.print(out.as_str())?;
    told
}
