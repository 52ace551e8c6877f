//! What a request asks for and is answered, and what its attempt has read and would write.
#![tactic(auto)]

mod copies;
mod first;
mod list;
mod messages;
mod outcome;
mod pages;
mod puts;
mod retry;
mod sessions;
mod txn;
mod want;
mod writes;

pub use copies::{copy_key, copy_look};
pub use first::{WantFirst, want_first, want_range};
pub use list::{WantList, want_list};
pub use messages::{Answer, Ask, Asked, Entry, OpStep};
pub use outcome::{Outcome, Receipt};
pub use pages::want_pages;
pub use puts::{kind_of, put_doomed, put_entry, put_inode, put_next, remove_entry, remove_inode};
pub use retry::Retry;
pub use sessions::{put_session, want_session};
pub use txn::Txn;
pub use want::{Want, want_alloc, want_dent, want_inode, want_kept};
