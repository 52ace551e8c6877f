ghost use Rattle.std.specs.Prelude.{◌≡◌, ◌++◌, ◌∷◌, [], string_bytes, OnOk, IfOk};
ghost use Rattle.std.specs.List.{flat_map};
ghost use Rattle.run_record.specs.Replies.{conflict_line, conflict_lines, end_line, gone_line, header_line, mark_word, receipt_front, receipt_lines, receipt_words, replies_text, source_words};
ghost use Rattle.run_record.specs.Words.{number_word, spaced};

use crate::hex::push_hex;
use crate::run::{Listed, Record, Summary};
use fs_base::{Config, Memory};
use key_schema::Key;
use std::alloc::{AllocError, Global};
use std::fmt::Write;
use txn_task::Receipt;

/// The text of the replies: the configuration, each receipt, and the counts, a line each.
pub fn write_replies(alloc: Global, run: &Record) -> Result<Vec<u8>, Memory>
    ensures { IfOk result (λ bytes. bytes.items ≡ replies_text run.now) }
{
    let mut out = header(alloc, &run.config)?;
    push_receipts(&mut out, alloc, run.receipts.as_slice())?;
    let end = end(alloc, &run.summary)?;
    out.extend_from_slice(end.as_slice())?;
    Ok(out)
}

fn header(alloc: Global, config: &Config) -> Result<Vec<u8>, AllocError>
    ensures { IfOk result (λ bytes. bytes.items ≡ header_line config.now) }
{
    let mut line = String::new(alloc);
    push_header(&mut line, config)?;
    Ok(line.into_bytes())
}

fn push_header(out: &mut String, config: &Config) -> Result<(), AllocError>
    ensures { OnOk result (string_bytes out.new ≡ string_bytes out.old ++ header_line config.now) }
{
    let servers = config.servers();
    let nodes = config.nodes();
    let chains = config.chains();
    let chunk = config.chunk();
    let stripe = config.stripe();
    writeln!(
        out,
        "fs3 1 servers={servers} nodes={nodes} chains={chains} chunk={chunk} stripe={stripe}"
    )
}

fn push_receipts(out: &mut Vec<u8>, alloc: Global, receipts: &[Listed]) -> Result<(), Memory>
    ensures { OnOk result (out.new.items ≡ out.old.items ++ flat_map receipt_lines receipts.now) }
{
    for listed in receipts {
        push_receipt(out, alloc, listed)?;
    }
    Ok(())
}

/// What the request went through, and then its reply.
fn push_receipt(out: &mut Vec<u8>, alloc: Global, listed: &Listed) -> Result<(), Memory>
    ensures { OnOk result (out.new.items ≡ out.old.items ++ receipt_lines listed.now) }
{
    let front = front_of(alloc, listed.client, &listed.receipt)?;
    out.extend_from_slice(front.as_slice())?;
    out.extend_from_slice(listed.text.as_slice())?;
    out.push(b'\n')?;
    Ok(())
}

/// A receipt's lines up to the text of its reply, whose bytes need not be characters.
fn front_of(alloc: Global, client: u16, receipt: &Receipt) -> Result<Vec<u8>, Memory>
    ensures { IfOk result (λ bytes. bytes.items ≡ receipt_front client receipt.now) }
{
    let mut front = String::new(alloc);
    push_gone(&mut front, client, receipt)?;
    push_conflicts(&mut front, alloc, client, receipt)?;
    push_receipt_words(&mut front, client, receipt)?;
    Ok(front.into_bytes())
}

fn push_gone(out: &mut String, client: u16, receipt: &Receipt) -> Result<(), AllocError>
    ensures { OnOk result
        (string_bytes out.new ≡ string_bytes out.old
        ++ flat_map (gone_line client receipt.now) receipt.now.gone) }
{
    for stop in receipt.gone.as_slice() {
        push_gone_line(out, client, receipt, stop)?;
    }
    Ok(())
}

fn push_gone_line(
    out: &mut String,
    client: u16,
    receipt: &Receipt,
    stop: &(u8, u32),
) -> Result<(), AllocError>
    ensures { OnOk result
        (string_bytes out.new ≡ string_bytes out.old ++ gone_line client receipt.now stop.now) }
{
    let (server, place) = *stop;
    out.push_str("gone ")?;
    push_source(out, client, receipt)?;
    writeln!(out, "{server} {place}")
}

fn push_conflicts(
    out: &mut String,
    alloc: Global,
    client: u16,
    receipt: &Receipt,
) -> Result<(), Memory>
    ensures { OnOk result
        (string_bytes out.new ≡ string_bytes out.old
        ++ conflict_lines client receipt.now 1 receipt.now.conflicts) }
{
    for (place, pair) in receipt.conflicts.as_slice().iter().enumerate() {
        push_conflict(out, alloc, client, receipt, place + 1, pair)?;
    }
    Ok(())
}

fn push_conflict(
    out: &mut String,
    alloc: Global,
    client: u16,
    receipt: &Receipt,
    attempt: usize,
    pair: &(u64, Key),
) -> Result<(), Memory>
    ensures { OnOk result
        (string_bytes out.new ≡ string_bytes out.old ++ conflict_line client receipt.now attempt pair.now) }
{
    let version = pair.0;
    let key = pair.1.write(alloc)?;
    out.push_str("conflict ")?;
    push_source(out, client, receipt)?;
    write!(out, "{attempt} {version} ")?;
    push_hex(out, key.as_slice())?;
    out.push_str("\n")?;
    Ok(())
}

/// The client, the operation's place and the request's number, a space after each.
fn push_source(out: &mut String, client: u16, receipt: &Receipt) -> Result<(), AllocError>
    ensures { OnOk result
        (string_bytes out.new ≡ string_bytes out.old ++ spaced (source_words client receipt.now)) }
{
    let op = receipt.op;
    write!(out, "{client} {op} ")?;
    push_number(out, receipt.number)
}

fn push_receipt_words(out: &mut String, client: u16, receipt: &Receipt) -> Result<(), AllocError>
    ensures { OnOk result
        (string_bytes out.new ≡ string_bytes out.old ++ spaced (receipt_words client receipt.now)) }
{
    let mark = mark_word(receipt.committed);
    let version = receipt.version;
    out.push_str("reply ")?;
    push_source(out, client, receipt)?;
    push_number(out, receipt.server.map(u64::from))?;
    write!(out, "{mark} {version} ")
}

/// A number or `-`, and a space.
fn push_number(out: &mut String, number: Option<u64>) -> Result<(), AllocError>
    ensures { OnOk result (string_bytes out.new ≡ string_bytes out.old ++ spaced (number_word number ∷ [])) }
{
    match number {
        Some(number) => write!(out, "{number} "),
        None => out.push_str("- "),
    }
}

fn mark_word(committed: bool) -> &'static str
    ensures { result.now ≡ mark_word committed }
{
    if committed { "commit" } else { "seen" }
}

fn end(alloc: Global, summary: &Summary) -> Result<Vec<u8>, AllocError>
    ensures { IfOk result (λ bytes. bytes.items ≡ end_line summary.now) }
{
    let mut line = String::new(alloc);
    push_end(&mut line, summary)?;
    Ok(line.into_bytes())
}

fn push_end(out: &mut String, summary: &Summary) -> Result<(), AllocError>
    ensures { OnOk result (string_bytes out.new ≡ string_bytes out.old ++ end_line summary.now) }
{
    let ops = summary.ops;
    let commits = summary.commits;
    let conflicts = summary.conflicts;
    let stops = summary.stops;
    let waiting = summary.waiting;
    writeln!(
        out,
        "end ops={ops} commits={commits} conflicts={conflicts} stops={stops} waiting={waiting}"
    )
}
