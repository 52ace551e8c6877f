ghost use Rattle.std.specs.Prelude.{◌≡◌, ◌++◌, ◌∷◌, [], codes, decimal, string_bytes, OnOk};
ghost use Rattle.run_record.specs.Hex.{hex_word};
ghost use Rattle.run_record.specs.ReplyText.{attribute_words, code_words, data_word, doomed_word, entry_word, file_words, flag, kind_word, limit_word, listed_words, phase_word, reply_words};
ghost use Rattle.run_record.specs.Words.{joined, setting};

use crate::hex::push_hex;
use fs_base::{
    Attributes, Code, DataRun, DeletionPhase, DirEntry, DoomedInode, FileInfo, InodeId, Kind,
    Limit, Reply,
};
use std::alloc::AllocError;
use std::fmt::Write;

/// The words of a reply.
pub fn push_reply(out: &mut String, reply: &Reply) -> Result<(), AllocError>
    ensures { OnOk result (string_bytes out.new ≡ string_bytes out.old ++ joined (reply_words reply.now)) }
{
    match reply {
        Reply::Made(id) => push_made(out, id),
        Reply::Done => out.push_str("done"),
        Reply::Found(id, kind) => push_found(out, id, *kind),
        Reply::Attr(attributes) => push_attributes(out, attributes),
        Reply::Names(entries) => push_entries(out, entries.as_slice()),
        Reply::Target(path) => push_target(out, path.as_slice()),
        Reply::File(info) => push_file(out, info),
        Reply::Hint(places) => push_setting(out, "hint=", u64::from(*places)),
        Reply::Reported { adopted, length } => push_reported(out, *adopted, *length),
        Reply::Settled(length) => push_setting(out, "length=", *length),
        Reply::Cut { length, truncs } => push_cut(out, *length, *truncs),
        Reply::Doomed(inodes) => push_doomed(out, inodes.as_slice()),
        Reply::Pruned(sessions) => push_setting(out, "pruned=", *sessions),
        Reply::Wrote { bytes, pieces } => push_wrote(out, *bytes, *pieces),
        Reply::Data(runs) => push_data(out, runs.as_slice()),
        Reply::Swept(files) => push_setting(out, "reaped=", *files),
        Reply::Refused(code) => push_code(out, *code),
    }
}

fn push_made(out: &mut String, id: &InodeId) -> Result<(), AllocError>
    ensures { OnOk result
        (string_bytes out.new ≡ string_bytes out.old ++ joined (codes "made" ∷ decimal id.now ∷ [])) }
{
    let id = id.get();
    write!(out, "made {id}")
}

fn push_found(out: &mut String, id: &InodeId, kind: Kind) -> Result<(), AllocError>
    ensures { OnOk result
        (string_bytes out.new ≡ string_bytes out.old
        ++ joined (codes "found" ∷ decimal id.now ∷ kind_word kind ∷ [])) }
{
    let id = id.get();
    let kind = kind_word(kind);
    write!(out, "found {id} {kind}")
}

fn kind_word(kind: Kind) -> &'static str
    ensures { result.now ≡ kind_word kind }
{
    match kind {
        Kind::Dir => "dir",
        Kind::File => "file",
        Kind::Link => "link",
    }
}

fn push_attributes(out: &mut String, attributes: &Attributes) -> Result<(), AllocError>
    ensures { OnOk result
        (string_bytes out.new ≡ string_bytes out.old ++ joined (attribute_words attributes.now)) }
{
    let id = attributes.inode.get();
    let kind = kind_word(attributes.kind);
    let mode = attributes.mode;
    let uid = attributes.owner;
    let gid = attributes.group;
    let nlink = attributes.links;
    let atime = attributes.atime;
    let mtime = attributes.mtime;
    let ctime = attributes.ctime;
    let length = attributes.length;
    write!(
        out,
        "attr {id} {kind} mode={mode} uid={uid} gid={gid} nlink={nlink} atime={atime} mtime={mtime} ctime={ctime} length={length}"
    )
}

fn push_entries(out: &mut String, entries: &[DirEntry]) -> Result<(), AllocError>
    ensures { OnOk result
        (string_bytes out.new ≡ string_bytes out.old
        ++ joined (listed_words (codes "names") entry_word entries.now)) }
{
    push_count(out, "names", entries.len())?;
    for entry in entries {
        push_entry(out, entry)?;
    }
    Ok(())
}

/// The name of a list, and how many it has.
fn push_count(out: &mut String, name: &str, count: usize) -> Result<(), AllocError>
    ensures { OnOk result (string_bytes out.new ≡ string_bytes out.old ++ (name.now ++ (32 ∷ decimal count))) }
{
    write!(out, "{name} {count}")
}

/// A space, and an entry.
fn push_entry(out: &mut String, entry: &DirEntry) -> Result<(), AllocError>
    ensures { OnOk result (string_bytes out.new ≡ string_bytes out.old ++ (32 ∷ entry_word entry.now)) }
{
    let id = entry.inode.get();
    let kind = kind_word(entry.kind);
    out.push_str(" ")?;
    push_hex(out, entry.name.as_slice())?;
    write!(out, ":{id}:{kind}")
}

fn push_target(out: &mut String, path: &[u8]) -> Result<(), AllocError>
    ensures { OnOk result
        (string_bytes out.new ≡ string_bytes out.old ++ joined (codes "target" ∷ hex_word path.now ∷ [])) }
{
    out.push_str("target ")?;
    push_hex(out, path)
}

fn push_file(out: &mut String, info: &FileInfo) -> Result<(), AllocError>
    ensures { OnOk result (string_bytes out.new ≡ string_bytes out.old ++ joined (file_words info.now)) }
{
    let id = info.inode.get();
    let length = info.length;
    let truncs = info.truncs;
    let hint = info.hint;
    let chunk = info.layout.chunk;
    let stripe = info.layout.stripe;
    let start = info.layout.start;
    let mix = info.layout.mix;
    write!(
        out,
        "file {id} length={length} truncs={truncs} hint={hint} chunk={chunk} stripe={stripe} start={start} mix={mix}"
    )
}

/// A name with its equals sign, and a number.
fn push_setting(out: &mut String, name: &str, number: u64) -> Result<(), AllocError>
    ensures { OnOk result
        (string_bytes out.new ≡ string_bytes out.old ++ joined (setting name.now number ∷ [])) }
{
    write!(out, "{name}{number}")
}

fn push_reported(out: &mut String, adopted: bool, length: u64) -> Result<(), AllocError>
    ensures { OnOk result
        (string_bytes out.new ≡ string_bytes out.old
        ++ joined (setting (codes "adopted=") (flag adopted) ∷ setting (codes "length=") length ∷ [])) }
{
    let adopted = flag(adopted);
    write!(out, "adopted={adopted} length={length}")
}

fn flag(holds: bool) -> u8
    ensures { result ≡ flag holds }
{
    if holds { 1 } else { 0 }
}

fn push_cut(out: &mut String, length: u64, truncs: u32) -> Result<(), AllocError>
    ensures { OnOk result
        (string_bytes out.new ≡ string_bytes out.old
        ++ joined (setting (codes "length=") length ∷ setting (codes "truncs=") truncs ∷ [])) }
{
    write!(out, "length={length} truncs={truncs}")
}

fn push_doomed(out: &mut String, inodes: &[DoomedInode]) -> Result<(), AllocError>
    ensures { OnOk result
        (string_bytes out.new ≡ string_bytes out.old ++ joined (listed_words (codes "ids") doomed_word inodes.now)) }
{
    push_count(out, "ids", inodes.len())?;
    for inode in inodes {
        push_doomed_inode(out, inode)?;
    }
    Ok(())
}

/// A space, and an inode with how far its deletion has come.
fn push_doomed_inode(out: &mut String, doomed: &DoomedInode) -> Result<(), AllocError>
    ensures { OnOk result (string_bytes out.new ≡ string_bytes out.old ++ (32 ∷ doomed_word doomed.now)) }
{
    let id = doomed.inode.get();
    let phase = phase_word(doomed.phase);
    write!(out, " {id}:{phase}")
}

fn phase_word(phase: DeletionPhase) -> &'static str
    ensures { result.now ≡ phase_word phase }
{
    match phase {
        DeletionPhase::Waiting => "waiting",
        DeletionPhase::Purged => "purged",
    }
}

fn push_wrote(out: &mut String, bytes: u64, pieces: u32) -> Result<(), AllocError>
    ensures { OnOk result
        (string_bytes out.new ≡ string_bytes out.old
        ++ joined (setting (codes "bytes=") bytes ∷ setting (codes "pieces=") pieces ∷ [])) }
{
    write!(out, "bytes={bytes} pieces={pieces}")
}

fn push_data(out: &mut String, runs: &[DataRun]) -> Result<(), AllocError>
    ensures { OnOk result
        (string_bytes out.new ≡ string_bytes out.old
        ++ joined (listed_words (codes "data") data_word runs.now)) }
{
    push_count(out, "data", runs.len())?;
    for run in runs {
        push_data_run(out, run)?;
    }
    Ok(())
}

/// A space, and where a run lies, how long it is and its value.
fn push_data_run(out: &mut String, run: &DataRun) -> Result<(), AllocError>
    ensures { OnOk result (string_bytes out.new ≡ string_bytes out.old ++ (32 ∷ data_word run.now)) }
{
    let offset = run.offset;
    let len = run.len;
    let fill = run.fill;
    write!(out, " {offset}+{len}={fill}")
}

fn push_code(out: &mut String, code: Code) -> Result<(), AllocError>
    ensures { OnOk result (string_bytes out.new ≡ string_bytes out.old ++ joined (code_words code)) }
{
    match code {
        Code::BadPath => out.push_str("BadPath"),
        Code::BadName => out.push_str("BadName"),
        Code::NotFound => out.push_str("NotFound"),
        Code::NotDir => out.push_str("NotDir"),
        Code::IsDir => out.push_str("IsDir"),
        Code::Exists => out.push_str("Exists"),
        Code::NotEmpty => out.push_str("NotEmpty"),
        Code::LinkLoop => out.push_str("LinkLoop"),
        Code::IntoItself => out.push_str("IntoItself"),
        Code::IsRoot => out.push_str("IsRoot"),
        Code::NotLink => out.push_str("NotLink"),
        Code::NoSession => out.push_str("NoSession"),
        Code::InUse => out.push_str("InUse"),
        Code::NotDoomed => out.push_str("NotDoomed"),
        Code::NotPurged => out.push_str("NotPurged"),
        Code::BadLayout => out.push_str("BadLayout"),
        Code::TooLong => out.push_str("TooLong"),
        Code::AtLimit(limit) => push_limit(out, limit),
        Code::ShortHint => out.push_str("ShortHint"),
        Code::Stale(kept) => push_stale(out, kept),
        Code::Conflict => out.push_str("Conflict"),
        Code::StoreFull => out.push_str("StoreFull"),
        Code::NodeFull { node, written } => push_node_full(out, node, written),
        Code::Removed { version, written } => push_removed(out, version, written),
    }
}

fn push_limit(out: &mut String, limit: Limit) -> Result<(), AllocError>
    ensures { OnOk result
        (string_bytes out.new ≡ string_bytes out.old ++ joined (codes "AtLimit" ∷ limit_word limit ∷ [])) }
{
    let limit = limit_word(limit);
    write!(out, "AtLimit {limit}")
}

fn limit_word(limit: Limit) -> &'static str
    ensures { result.now ≡ limit_word limit }
{
    match limit {
        Limit::Inodes => "Inodes",
        Limit::Links => "Links",
        Limit::Truncations => "Truncations",
    }
}

fn push_stale(out: &mut String, kept: u64) -> Result<(), AllocError>
    ensures { OnOk result
        (string_bytes out.new ≡ string_bytes out.old
        ++ joined (codes "Stale" ∷ setting (codes "kept=") kept ∷ [])) }
{
    write!(out, "Stale kept={kept}")
}

fn push_node_full(out: &mut String, node: u8, written: u64) -> Result<(), AllocError>
    ensures { OnOk result
        (string_bytes out.new ≡ string_bytes out.old
        ++ joined (codes "NodeFull" ∷ setting (codes "node=") node ∷ setting (codes "written=") written ∷ [])) }
{
    write!(out, "NodeFull node={node} written={written}")
}

fn push_removed(out: &mut String, version: u64, written: u64) -> Result<(), AllocError>
    ensures { OnOk result
        (string_bytes out.new ≡ string_bytes out.old
        ++ joined (codes "Removed" ∷ setting (codes "version=") version ∷ setting (codes "written=") written
        ∷ [])) }
{
    write!(out, "Removed version={version} written={written}")
}
