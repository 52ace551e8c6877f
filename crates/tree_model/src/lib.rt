//! The plain file tree, as one thread alone would keep it, and what each call does to it.
#![tactic(auto)]

mod apply;
mod attributes;
mod finding;
mod keeping;
mod kept;
mod linking;
mod make;
mod maps;
mod moving;
mod names;
mod new_node;
mod node;
mod plan;
mod sessions;
mod setattr;
mod tree;
mod walk;
mod walking;

pub use apply::{is_query, is_told, settles};
pub use kept::{Doom, KeptReply};
pub use make::is_layout;
pub use maps::{ByClient, ByName, ByNumber, BySession};
pub use names::Names;
pub use new_node::{NewNode, NewPart, first_hint, layout_at};
pub use node::{Node, NodePart};
pub use sessions::hint_over;
pub use tree::{Tree, TreeParts};
pub use walk::{WalkEnd, Walked};
pub use walking::path_of;
