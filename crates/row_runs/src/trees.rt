use anyhow::{Result, bail};
use fs_base::{Config, InodeId, Items, Memory, Path, Row};
use row_tree::{TreeError, opening_rows, read_tree};
use std::alloc::Global;
use std::collections::BTreeMap;
use test_support::{Rows, config_of, edit, listed, row_of};
use tree_model::{WalkEnd, Walked};

/// What the lines before have set of rows.
#[derive(Drop)]
pub struct Forest {
    config: Config,
    /// The rows that each case begins with.
    base: Rows,
}

impl Forest {
    pub fn new(alloc: Global) -> Forest {
        Forest {
            config: Config::single(),
            base: BTreeMap::new(alloc),
        }
    }
}

/// Whether rows are a tree's.
fn verdict(alloc: Global, config: &Config, rows: &[Row]) -> Result<String> {
    match read_tree(alloc, rows, config) {
        Ok(_tree) => Ok(format!(in alloc; " is a tree")?),
        Err(TreeError::BadRows) => Ok(format!(in alloc; " is none")?),
        Err(TreeError::Memory) => bail!(Memory),
    }
}

/// The base, changed.
fn edited(alloc: Global, base: &Rows, edits: &[&str]) -> Result<Items<Row>> {
    let mut rows = BTreeMap::new(alloc);
    for (key, value) in base {
        rows.insert(key.try_clone()?, value.try_clone()?)?;
    }
    edit(alloc, &mut rows, edits)?;
    let list = listed(alloc, &rows)?;
    Ok(list)
}

fn given(alloc: Global, words: &[&str]) -> Result<Items<Row>> {
    let mut rows = Items::new(alloc);
    for word in words {
        rows.push(row_of(alloc, word)?)?;
    }
    Ok(rows)
}

/// Adds a row's bytes to a text.
fn tell_row(alloc: Global, row: &Row, out: &mut String) -> Result<()> {
    let key = hex::encode(alloc, row.key.as_slice())?;
    let value = hex::encode(alloc, row.value.as_slice())?;
    write!(out, " {key}={value}")?;
    Ok(())
}

/// What stands at the path `/` of the rows' tree.
fn at_root(alloc: Global, config: &Config, rows: &[Row]) -> Result<Walked> {
    let tree = read_tree(alloc, rows, config)?;
    let path = Path::read(alloc, b"/")?;
    let walked = tree.resolve(alloc, InodeId::root(), &path, WalkEnd::Follow)?;
    Ok(walked)
}

fn opening(alloc: Global, config: &Config) -> Result<String> {
    let rows = opening_rows(alloc, config)?;
    let walked = at_root(alloc, config, rows.as_slice())?;
    let mut out = String::from_str(alloc, " =")?;
    for row in rows.as_slice() {
        tell_row(alloc, row, &mut out)?;
    }
    write!(out, ", {walked:?}")?;
    Ok(out)
}

/// What a line about rows comes to.
pub fn told(alloc: Global, forest: &mut Forest, kind: &str, words: &[&str]) -> Result<String> {
    match kind {
        "config" => {
            forest.config = config_of(words)?;
            Ok(String::new(alloc))
        }
        "base" => {
            edit(alloc, &mut forest.base, words)?;
            Ok(String::new(alloc))
        }
        "tree" => {
            let rows = edited(alloc, &forest.base, words)?;
            verdict(alloc, &forest.config, rows.as_slice())
        }
        "list" => {
            let rows = given(alloc, words)?;
            verdict(alloc, &forest.config, rows.as_slice())
        }
        "opening" => opening(alloc, &forest.config),
        _ => bail!("no such line about rows"),
    }
}
