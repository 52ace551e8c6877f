//! Identifiers, names, paths, calls and replies of the file service.
#![tactic(auto)]

mod call;
mod call_copy;
mod code;
mod config;
mod ids;
mod items;
mod kind;
mod layout;
pub mod limits;
mod memory;
mod name;
mod path;
mod reply;
mod reply_copy;
mod row;

pub use call::{Call, Changes, Place, Request, Session};
pub use code::{Code, Limit};
pub use config::Config;
pub use ids::{ClientId, InodeId};
pub use items::{Items, Text};
pub use kind::Kind;
pub use layout::{DefaultLayout, Layout};
pub use memory::Memory;
pub use name::{Name, NameError};
pub use path::{Path, PathError};
pub use reply::{Attributes, DataRun, DeletionPhase, DirEntry, DoomedInode, FileInfo, Reply};
pub use reply_copy::copy_file;
pub use row::Row;
