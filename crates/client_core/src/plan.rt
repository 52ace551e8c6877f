use fs_base::{Changes, ClientId, Config, DefaultLayout, Items, Place, Text};

/// One operation of a client. A stamp is the client's time, below 2^53, in a unit that the clients agree on.
///
/// A mode is the twelve permission bits of POSIX, below 4,096; a text has at most 65,535 bytes. `fd` is a
/// descriptor of the client.
#[derive(Debug, Drop)]
pub enum Op {
    /// Makes a directory, with a default layout of its own or its parent's.
    Mkdir {
        stamp: u64,
        place: Place,
        mode: u16,
        layout: Option<DefaultLayout>,
    },
    /// Makes an empty file, with a chunk and stripe of its own or its directory's.
    Create {
        stamp: u64,
        place: Place,
        mode: u16,
        layout: Option<DefaultLayout>,
    },
    /// Makes a symbolic link.
    Symlink {
        stamp: u64,
        place: Place,
        target: Text,
    },
    /// Sets attributes: those that are given.
    Setattr {
        stamp: u64,
        place: Place,
        changes: Changes,
    },
    /// Makes a further entry of what stands at a place.
    Link {
        stamp: u64,
        from: Place,
        to: Place,
    },
    /// Takes an entry away that leads to no directory.
    Unlink {
        stamp: u64,
        place: Place,
    },
    /// Takes an empty directory away, with its entry.
    Rmdir {
        stamp: u64,
        place: Place,
    },
    /// Moves an entry to another place, and takes away what it replaces there.
    Rename {
        stamp: u64,
        from: Place,
        to: Place,
    },
    /// What stands at a place.
    Lookup {
        stamp: u64,
        place: Place,
    },
    /// The attributes of what stands at a place.
    Stat {
        stamp: u64,
        place: Place,
    },
    /// A directory's entries.
    List {
        stamp: u64,
        place: Place,
    },
    /// A link's target.
    Readlink {
        stamp: u64,
        place: Place,
    },
    /// Opens a file for writing.
    Open {
        stamp: u64,
        place: Place,
        fd: u8,
    },
    /// Opens a file for reading.
    Openr {
        stamp: u64,
        place: Place,
        fd: u8,
    },
    /// What a descriptor's file is like by now.
    Fstat {
        stamp: u64,
        fd: u8,
    },
}

/// What a client does, in order.
#[derive(Debug, Drop)]
pub struct Script {
    /// No two clients of a plan have the same, as they would share their kept reply; and none has the nil
    /// one.
    pub id: ClientId,
    /// The server that it sends to.
    pub home: u8,
    pub ops: Items<Op>,
}

/// The order of turns.
#[derive(Debug, Drop)]
pub enum Schedule {
    /// `k` is one turn of client k, and `100 + k` is one whole operation of client k. There are at most 64
    /// clients, so no item can be meant for both.
    Items(Items<u16>),
}

/// What a server counts up to a stop, over its whole life.
#[derive(Clone, Copy, Debug, PartialEq, Eq)]
pub enum StopAfter {
    /// Asks of the requests that it works on.
    Ask,
    /// Entries that it made.
    Commit,
}

/// A planned stop: right after the count reaches `n`, the server stops and starts again with nothing kept.
#[derive(Clone, Copy, Debug, PartialEq, Eq)]
pub struct Stop {
    pub server: u8,
    pub after: StopAfter,
    /// 1 to 1,000,000.
    pub n: u32,
}

/// What a run does.
#[derive(Debug, Drop)]
pub struct Plan {
    pub config: Config,
    /// How often a request may try to commit, 1 to 64.
    pub attempts: u8,
    /// Each client at its ordinal, 1 to 64 of them.
    pub clients: Items<Script>,
    /// At most 64, no two alike. Those of one server that are due at the same ask are one stop.
    pub stops: Items<Stop>,
    pub schedule: Schedule,
}
