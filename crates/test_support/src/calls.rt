use crate::words::given;
use anyhow::{Context, Result, bail};
use fs_base::{Call, Changes, DefaultLayout, InodeId, Place, Session, Text};
use std::alloc::Global;

fn place_of(alloc: Global, base: &str, path: &str) -> Result<Place> {
    let base = InodeId::read(base.parse::<u64>()?).context("no inode has this number")?;
    let text = Text::from_slice(alloc, path.as_bytes())?;
    Ok(Place { base, text })
}

fn layout_of(words: &[&str]) -> Result<Option<DefaultLayout>> {
    match words {
        [] => Ok(None),
        [chunk, stripe] => {
            let chunk = chunk.parse::<u32>()?;
            let stripe = stripe.parse::<u16>()?;
            Ok(Some(DefaultLayout { chunk, stripe }))
        }
        _ => bail!("a layout is a chunk and a stripe"),
    }
}

/// A number of 32 bits, or `-` for none.
fn given_u32(word: &str) -> Result<Option<u32>> {
    match given(word)? {
        Some(number) => Ok(Some(u32::try_from(number)?)),
        None => Ok(None),
    }
}

fn given_u16(word: &str) -> Result<Option<u16>> {
    match given(word)? {
        Some(number) => Ok(Some(u16::try_from(number)?)),
        None => Ok(None),
    }
}

fn changes_of(words: &[&str]) -> Result<Changes> {
    let [mode, owner, group, atime, mtime] = words else {
        bail!("changes are mode, owner, group, access and modification time");
    };
    Ok(Changes {
        mode: given_u16(mode)?,
        owner: given_u32(owner)?,
        group: given_u32(group)?,
        atime: given(atime)?,
        mtime: given(mtime)?,
    })
}

fn query_of(word: &str, place: Place) -> Result<Call> {
    match word {
        "lookup" => Ok(Call::Lookup(place)),
        "stat" => Ok(Call::Stat(place)),
        "list" => Ok(Call::List(place)),
        "readlink" => Ok(Call::Readlink(place)),
        "openr" => Ok(Call::Openr(place)),
        "open" => Ok(Call::Open(place)),
        "unlink" => Ok(Call::Unlink(place)),
        "rmdir" => Ok(Call::Rmdir(place)),
        _ => bail!("no such call"),
    }
}

fn make_of(word: &str, place: Place, mode: &str, layout: &[&str]) -> Result<Call> {
    let mode = mode.parse::<u16>()?;
    let layout = layout_of(layout)?;
    if word == "mkdir" {
        return Ok(Call::Mkdir {
            place,
            mode,
            layout,
        });
    }
    Ok(Call::Create {
        place,
        mode,
        layout,
    })
}

fn session_of(inode: &str, number: &str) -> Result<Session> {
    let inode = InodeId::read(inode.parse::<u64>()?).context("no inode has this number")?;
    let number = number.parse::<u64>()?;
    Ok(Session { inode, number })
}

/// A call by a session: its name, and for `extend` a place of the layout.
fn by_session(word: &str, session: Session, more: &[&str]) -> Result<Call> {
    match (word, more) {
        ("fstat", []) => Ok(Call::Fstat(session)),
        ("extend", [place]) => {
            let place = place.parse::<u16>()?;
            Ok(Call::Extend { session, place })
        }
        _ => bail!("the call has no such words"),
    }
}

/// A call in words: its name, the number of the inode that its path starts at, the path, and what else it has. That is
/// a mode and maybe a chunk and a stripe for `mkdir` and `create`, a target for `symlink`, a second inode and path for
/// `link` and `rename`, and for `setattr` five numbers, each of which may be `-`. For `fstat` and `extend` it is
/// the name, a session's inode and number, and for `extend` a place of the layout.
pub fn call_of(alloc: Global, words: &[&str]) -> Result<Call> {
    let [word, base, path, more @ ..] = words else {
        bail!("a call has a name, an inode and a path");
    };
    if *word == "fstat" || *word == "extend" {
        return by_session(word, session_of(base, path)?, more);
    }
    let place = place_of(alloc, base, path)?;
    match (*word, more) {
        ("mkdir" | "create", [mode, layout @ ..]) => make_of(word, place, mode, layout),
        ("symlink", [target]) => {
            let target = Text::from_slice(alloc, target.as_bytes())?;
            Ok(Call::Symlink { place, target })
        }
        ("setattr", changes) => {
            let changes = changes_of(changes)?;
            Ok(Call::Setattr { place, changes })
        }
        ("link", [base, path]) => {
            let to = place_of(alloc, base, path)?;
            Ok(Call::Link { from: place, to })
        }
        ("rename", [base, path]) => {
            let to = place_of(alloc, base, path)?;
            Ok(Call::Rename { from: place, to })
        }
        (_, []) => query_of(word, place),
        _ => bail!("the call has no such words"),
    }
}
