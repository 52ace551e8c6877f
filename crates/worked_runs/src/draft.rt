//! Records in words.

use anyhow::{Context, Result, bail};
use fs_base::{Call, Config, Items, Reply};
use key_schema::Key;
use row_records::{call_read, reply_read};
use run_record::{Listed, Record, Summary, text_of};
use std::alloc::Global;
use std::mem;
use txn_task::Receipt;

/// What the lines so far have listed.
#[derive(Drop)]
struct Draft {
    receipts: Items<Listed>,
    summary: Summary,
    conflicts: Items<(u64, Key)>,
    gone: Items<(u8, u32)>,
}

fn number(word: &str) -> Result<Option<u64>> {
    if word == "-" {
        return Ok(None);
    }
    Ok(Some(word.parse::<u64>()?))
}

fn server(word: &str) -> Result<Option<u8>> {
    if word == "-" {
        return Ok(None);
    }
    Ok(Some(word.parse::<u8>()?))
}

/// The numbers of a receipt.
#[derive(Clone, Copy)]
struct Numbers {
    op: u16,
    number: Option<u64>,
    server: Option<u8>,
    committed: bool,
    version: u64,
}

fn read_numbers(words: &[&str]) -> Result<Numbers> {
    let [op, number, server, mark, version] = words else {
        bail!("a receipt has eight words");
    };
    Ok(Numbers {
        op: op.parse::<u16>()?,
        number: self::number(number)?,
        server: self::server(server)?,
        committed: *mark == "commit",
        version: version.parse::<u64>()?,
    })
}

/// A call with its stamp.
fn call(alloc: Global, word: &str) -> Result<(u64, Call)> {
    let bytes = hex::decode(alloc, word)?;
    Ok(call_read(alloc, bytes.as_slice())?)
}

fn reply(alloc: Global, word: &str) -> Result<Reply> {
    let bytes = hex::decode(alloc, word)?;
    Ok(reply_read(alloc, bytes.as_slice())?)
}

/// A receipt that went through nothing.
fn receipt(alloc: Global, words: &[&str]) -> Result<Receipt> {
    let [front @ .., call, reply] = words else {
        bail!("a receipt has eight words");
    };
    let numbers = read_numbers(front)?;
    let (stamp, call) = self::call(alloc, call)?;
    let reply = self::reply(alloc, reply)?;
    Ok(Receipt {
        op: numbers.op,
        number: numbers.number,
        server: numbers.server,
        stamp,
        call,
        reply,
        committed: numbers.committed,
        version: numbers.version,
        conflicts: Items::new(alloc),
        gone: Items::new(alloc),
    })
}

fn summary(words: &[&str]) -> Result<Summary> {
    let [ops, commits, conflicts, stops, waiting] = words else {
        bail!("there are five counts");
    };
    Ok(Summary {
        ops: ops.parse::<u64>()?,
        commits: commits.parse::<u64>()?,
        conflicts: conflicts.parse::<u64>()?,
        stops: stops.parse::<u64>()?,
        waiting: waiting.parse::<u64>()?,
    })
}

impl Draft {
    fn new(alloc: Global) -> Draft {
        Draft {
            receipts: Items::new(alloc),
            summary: Summary {
                ops: 0,
                commits: 0,
                conflicts: 0,
                stops: 0,
                waiting: 0,
            },
            conflicts: Items::new(alloc),
            gone: Items::new(alloc),
        }
    }

    /// The receipt takes what its request went through.
    fn push(&mut self, alloc: Global, client: u16, receipt: Receipt) -> Result<()> {
        let mut receipt = receipt;
        receipt.conflicts = mem::replace(&mut self.conflicts, Items::new(alloc));
        receipt.gone = mem::replace(&mut self.gone, Items::new(alloc));
        let text = text_of(alloc, &receipt.call, &receipt.reply)?;
        self.receipts.push(Listed {
            client,
            fronts: Items::new(alloc),
            receipt,
            text,
        })?;
        Ok(())
    }

    fn read_conflict(&mut self, alloc: Global, words: &[&str]) -> Result<()> {
        let [version, key] = words else {
            bail!("a conflict has a version and a key");
        };
        let bytes = hex::decode(alloc, *key)?;
        let key = Key::read(alloc, bytes.as_slice())?;
        self.conflicts.push((version.parse::<u64>()?, key))?;
        Ok(())
    }

    fn read_stop(&mut self, words: &[&str]) -> Result<()> {
        let [server, stop] = words else {
            bail!("a stop has a server and a number");
        };
        self.gone
            .push((server.parse::<u8>()?, stop.parse::<u32>()?))?;
        Ok(())
    }

    fn read_receipt(&mut self, alloc: Global, words: &[&str]) -> Result<()> {
        let Some((client, words)) = words.split_first() else {
            bail!("no client");
        };
        let receipt = receipt(alloc, words)?;
        self.push(alloc, client.parse::<u16>()?, receipt)
    }

    fn read_line(&mut self, alloc: Global, line: &str) -> Result<()> {
        let words: Vec<&str> = line.split(' ').collect(alloc)?;
        let Some((kind, words)) = words.as_slice().split_first() else {
            return Ok(());
        };
        match *kind {
            "conflict" => self.read_conflict(alloc, words),
            "gone" => self.read_stop(words),
            "receipt" => self.read_receipt(alloc, words),
            "end" => {
                self.summary = summary(words)?;
                Ok(())
            }
            "#" => Ok(()),
            _ => bail!("no such line"),
        }
    }

    /// The record under the defaults.
    fn into_record(self, alloc: Global) -> Record {
        Record {
            config: Config::single(),
            clients: Items::new(alloc),
            receipts: self.receipts,
            entries: Items::new(alloc),
            summary: self.summary,
        }
    }
}

/// The record that lines list.
pub fn read(alloc: Global, lines: &str) -> Result<Record> {
    let mut draft = Draft::new(alloc);
    for line in lines.lines() {
        draft
            .read_line(alloc, line)
            .context(format_args!("at {line}"))?;
    }
    Ok(draft.into_record(alloc))
}
