ghost use Rattle.conflict_sets.specs.Writes.{AreAscending, AreAscending-prop};

use fs_base::{Items, Row, Text};

/// A key that was read, with its value then. `None`: it had none.
#[derive(Debug, Drop)]
pub struct KeyRead {
    pub key: Text,
    pub value: Option<Text>,
}

/// A half-open range of keys that was read: the first `limit` of its rows, in the order of keys.
///
/// Where the rows are as many as the limit, no more was read than up to the last of them.
#[derive(Debug, Drop)]
pub struct RangeRead {
    pub lo: Text,
    pub hi: Text,
    pub limit: u32,
    pub rows: Items<Row>,
}

/// All that a transaction read, at one version.
///
/// FoundationDB's documentation calls its keys the read conflict set.
#[derive(Debug, Drop)]
pub struct ReadSet {
    pub keys: Items<KeyRead>,
    pub ranges: Items<RangeRead>,
}

/// A key that gets a value, or loses it where the value is `None`.
#[derive(Debug, Drop)]
pub struct Write {
    pub key: Text,
    pub value: Option<Text>,
}

/// All that a transaction writes, in the order of keys, each key once.
///
/// That is part of the type, so that the key which a conflict names is the least one. Whoever makes a write
/// set proves it.
#[derive(Debug, Drop)]
pub struct WriteSet {
    pub writes: Items<Write>,
    pub ghost ascending: { AreAscending writes } by { AreAscending-prop writes },
}

/// A key's value at a version, with the version that last wrote the key: 0 where no entry has.
#[derive(Debug, Drop)]
pub struct Got {
    pub value: Option<Text>,
    pub version: u64,
}
