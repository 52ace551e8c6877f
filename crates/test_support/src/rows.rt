use crate::words::bytes_of;
use anyhow::{Context, Result};
use fs_base::{Items, Memory, Row, Text};
use std::alloc::Global;
use std::collections::BTreeMap;

/// Rows, in the order of their keys.
pub type Rows = BTreeMap<Text, Text>;

/// A row, `KEY=VALUE` in hexadecimal.
pub fn row_of(alloc: Global, word: &str) -> Result<Row> {
    let (key, value) = word.split_once('=').context("a row is KEY=VALUE")?;
    let key = bytes_of(alloc, key)?;
    let value = bytes_of(alloc, value)?;
    Ok(Row { key, value })
}

/// Puts rows in (`KEY=VALUE`), or takes them out (`-KEY`).
pub fn edit(alloc: Global, rows: &mut Rows, words: &[&str]) -> Result<()> {
    for word in words {
        match word.strip_prefix('-') {
            Some(key) => {
                let key = bytes_of(alloc, key)?;
                rows.remove(&key).context("no such row to take out")?;
            }
            None => {
                let row = row_of(alloc, word)?;
                rows.insert(row.key, row.value)?;
            }
        }
    }
    Ok(())
}

/// Copies of the rows, in their order.
pub fn listed(alloc: Global, rows: &Rows) -> Result<Items<Row>, Memory> {
    let mut list = Items::new(alloc);
    for (key, value) in rows {
        list.push(Row {
            key: key.try_clone()?,
            value: value.try_clone()?,
        })?;
    }
    Ok(list)
}
