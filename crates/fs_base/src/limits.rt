//! The limits of the service, each once: the greatest number that is taken, or where it says so the first one
//! that isn't.

/// Bytes of a scenario: 16 MiB.
pub const SCENARIO_BYTES: usize = 16_777_216;
/// Clients of a plan.
pub const CLIENTS: usize = 64;
/// Operations of all clients of a plan.
pub const OPERATIONS: usize = 4_000;

/// Planned stops of a plan.
pub const STOPS: usize = 64;
/// Asks of a server, or entries that it made, after which it may stop.
pub const STOP_COUNT: u32 = 1_000_000;

/// Metadata servers of a configuration.
pub const SERVERS: u8 = 16;
/// Storage nodes of a configuration.
pub const NODES: u8 = 16;
/// Replica chains of a configuration.
pub const CHAINS: u16 = 256;
/// Bytes of a chunk: 4 MiB, as in the 3FS Design Notes.
pub const CHUNK_BYTES: u32 = 4_194_304;
/// Bytes of a file: 1 TiB.
pub const FILE_BYTES: u64 = 1_099_511_627_776;
/// Bytes that one write or read speaks of: 16 MiB.
pub const SPAN_BYTES: u64 = 16_777_216;
/// Pieces that one write or read is cut into.
pub const PIECES: usize = 65_536;

/// Bytes of a path: `PATH_MAX` of Linux, less the zero that ends it there.
pub const PATH_BYTES: usize = 4_095;
/// Bytes of a name: `NAME_MAX` of Linux.
pub const NAME_BYTES: usize = 255;
/// Bytes of any text of a call: its length takes two bytes.
pub const TEXT_BYTES: usize = 65_535;
/// Symbolic links that one walk follows.
pub const LINKS_FOLLOWED: u8 = 10;
/// Entries that lead to one node.
pub const LINK_COUNT: u32 = 65_535;

/// Inode ids are below it: a server's number of 32 bits, and 4 bits of the server.
pub const INODE_IDS: u64 = 1 << 36;
/// The number of a server's that it doesn't give: it is used up.
pub const LAST_NUMBER: u32 = 4_294_967_295;
/// Times are below it: each number up to it is a whole one in JSON too.
pub const TIMES: u64 = 1 << 53;
/// Modes are below it: the twelve permission bits of POSIX.
pub const MODES: u16 = 4_096;

/// Entries of the store's journal.
pub const JOURNAL_ENTRIES: usize = 200_000;
/// Attempts of one request, and so conflicts that it meets.
pub const ATTEMPTS: u8 = 64;
/// Rows that one ask of a range gives, where all rows of a directory are asked for.
pub const PAGE_ROWS: u32 = 128;
/// Writes and changes of length that a storage node takes.
pub const NODE_CALLS: u64 = 200_000;
/// Bytes that a storage node takes.
pub const NODE_BYTES: u64 = 33_554_432;
