ghost use Rattle.std.specs.Prelude.{◌≡◌, ℕ, ◌<◌, ◌^◌, ◌==◌, length, None, Some, IsSome, IfOk, OnOk, OnErr};
ghost use Rattle.std.specs.Option.{option_copied};
ghost use Rattle.std.specs.FinMap as map;
ghost use Rattle.tree_model.specs.Maps.{set, count_where};

use fs_base::{InodeId, Memory, Name};
use std::alloc::Global;
use std::collections::BTreeMap;
use std::collections::btree_map::{IntoIter, Iter};
use std::marker::Model;

/// A map from numbers: ids of inodes, or servers.
#[derive(Drop)]
pub struct ByNumber<V> {
    pairs: BTreeMap<u64, V>,
}

impl<V> Model for ByNumber<V> {
    ghost use Rattle.std.specs.Ordering.{nat_cmp};
    ghost use Rattle.std.specs.FinMap as map;
    ghost use Rattle.std.specs.Coded.{coded_ℕ};

    ghost Value = { map.FinMap nat_cmp V };

    ghost coded = { map.code coded_ℕ V.code };

    ghost view = { λ a. map.from_entries a.pairs.entries };
}

impl<V> ByNumber<V> {
    /// A map without keys.
    pub fn new(alloc: Global) -> ByNumber<V>
        ensures { result ≡ map.empty }
    {
        ByNumber {
            pairs: BTreeMap::new(alloc),
        }
    }

    /// The value at the key.
    pub fn get(&self, key: u64) -> Option<&V>
        ensures { option_copied result ≡ map.get self.now key }
    {
        self.pairs.get(&key)
    }

    /// The keys with their values, in the order of the keys.
    pub fn iter(&self) -> Iter<'_, u64, V>
        ensures entries { result ≡ map.entries self.now }
        ensures fits { length result < 2 ^ 63 }
    {
        self.pairs.iter()
    }

    /// How many keys there are.
    pub fn len(&self) -> usize
        ensures { result ≡ map.len self.now }
    {
        self.pairs.len()
    }
}

impl<V: Drop> ByNumber<V> {
    /// Gives the key this value, and gives back the one before. Only a key without a value takes memory.
    pub fn insert(&mut self, key: u64, value: V) -> Result<Option<V>, Memory>
        ensures before { IfOk result (λ before. before ≡ map.get self.old key) }
        ensures ok { OnOk result (self.new ≡ map.insert self.old key value) }
        ensures err { OnErr result (self.new ≡ self.old) }
        ensures absent { OnErr result (map.get self.old key ≡ None) }
    {
        Ok(self.pairs.insert(key, value)?)
    }

    /// Takes the key's value away, and gives it back.
    pub fn remove(&mut self, key: u64) -> Option<V>
        ensures before { result ≡ map.get self.old key }
        ensures removed { self.new ≡ map.remove self.old key }
    {
        self.pairs.remove(&key)
    }

    /// Gives a key that has a value another one, and gives back the one before. It takes no memory.
    pub fn replace(&mut self, key: u64, value: V) -> V
        requires { IsSome (map.get self.old key) }
        ensures before { map.get self.old key ≡ Some result }
        ensures replaced { self.new ≡ map.insert self.old key value }
    {
        let Ok(Some(before)) = self.insert(key, value) else {
            unreachable!()
        };
        before
    }

    /// Gives a key that has a value this value, or none. It takes no memory.
    pub fn put_back(&mut self, key: u64, before: Option<V>)
        requires { IsSome (map.get self.old key) }
        ensures { self.new ≡ set self.old key before }
    {
        match before {
            Some(value) => {
                if self.insert(key, value).is_err() {
                    unreachable!()
                }
            }
            None => {
                self.remove(key);
            }
        }
    }

    /// The keys with their values, in the order of the keys, taken out of the map.
    pub fn into_entries(self) -> IntoIter<u64, V>
        ensures { result ≡ map.entries self }
    {
        self.pairs.into_iter()
    }
}

/// A map from entries: the number of a directory, and a name in it.
#[derive(Drop)]
pub struct ByName<V> {
    pairs: BTreeMap<(u64, Name), V>,
}

impl<V> Model for ByName<V> {
    ghost use Rattle.std.specs.Prelude.{ℕ, List};
    ghost use Rattle.std.specs.FinMap as map;
    ghost use Rattle.std.specs.Coded.{coded_ℕ, coded_list, coded×};
    ghost use Rattle.tree_model.specs.Maps.{dent_cmp};

    ghost Value = { map.FinMap dent_cmp V };

    ghost coded = { map.code (coded× coded_ℕ (coded_list coded_ℕ)) V.code };

    ghost view = { λ a. map.from_entries a.pairs.entries };
}

impl<V> ByName<V> {
    /// A map without keys.
    pub fn new(alloc: Global) -> ByName<V>
        ensures { result ≡ map.empty }
    {
        ByName {
            pairs: BTreeMap::new(alloc),
        }
    }

    /// The value at the key.
    pub fn get(&self, key: &(u64, Name)) -> Option<&V>
        ensures { option_copied result ≡ map.get self.now key.now }
    {
        self.pairs.get(key)
    }

    /// The keys with their values, in the order of the keys.
    pub fn iter(&self) -> Iter<'_, (u64, Name), V>
        ensures entries { result ≡ map.entries self.now }
        ensures fits { length result < 2 ^ 63 }
    {
        self.pairs.iter()
    }
}

impl<V: Drop> ByName<V> {
    /// Gives the key this value, and gives back the one before. Only a key without a value takes memory.
    pub fn insert(&mut self, key: (u64, Name), value: V) -> Result<Option<V>, Memory>
        ensures before { IfOk result (λ before. before ≡ map.get self.old key) }
        ensures ok { OnOk result (self.new ≡ map.insert self.old key value) }
        ensures err { OnErr result (self.new ≡ self.old) }
        ensures absent { OnErr result (map.get self.old key ≡ None) }
    {
        Ok(self.pairs.insert(key, value)?)
    }

    /// Takes the key's value away, and gives it back.
    pub fn remove(&mut self, key: &(u64, Name)) -> Option<V>
        ensures before { result ≡ map.get self.old key.now }
        ensures removed { self.new ≡ map.remove self.old key.now }
    {
        self.pairs.remove(key)
    }

    /// The keys with their values, in the order of the keys, taken out of the map.
    pub fn into_entries(self) -> IntoIter<(u64, Name), V>
        ensures { result ≡ map.entries self }
    {
        self.pairs.into_iter()
    }
}

impl ByName<InodeId> {
    /// How many entries lead to an inode.
    pub fn count_to(&self, id: InodeId) -> usize
        ensures { result ≡ count_where (λ (x : ℕ). x == id) self.now }
    {
        let mut count = 0;
        for (_key, value) in self.iter() {
            if value.get() == id.get() {
                count += 1;
            }
        }
        count
    }
}

/// A map from write sessions: the number of the inode, the client, and the number of the session.
#[derive(Drop)]
pub struct BySession<V> {
    pairs: BTreeMap<(u64, (u128, u64)), V>,
}

impl<V> Model for BySession<V> {
    ghost use Rattle.std.specs.Prelude.{ℕ};
    ghost use Rattle.std.specs.FinMap as map;
    ghost use Rattle.std.specs.Coded.{coded_ℕ, coded×};
    ghost use Rattle.tree_model.specs.Maps.{session_cmp};

    ghost Value = { map.FinMap session_cmp V };

    ghost coded = { map.code (coded× coded_ℕ (coded× coded_ℕ coded_ℕ)) V.code };

    ghost view = { λ a. map.from_entries a.pairs.entries };
}

impl<V> BySession<V> {
    /// A map without keys.
    pub fn new(alloc: Global) -> BySession<V>
        ensures { result ≡ map.empty }
    {
        BySession {
            pairs: BTreeMap::new(alloc),
        }
    }

    /// The value at the key.
    pub fn get(&self, key: (u64, (u128, u64))) -> Option<&V>
        ensures { option_copied result ≡ map.get self.now key }
    {
        self.pairs.get(&key)
    }

    /// The keys with their values, in the order of the keys.
    pub fn iter(&self) -> Iter<'_, (u64, (u128, u64)), V>
        ensures entries { result ≡ map.entries self.now }
        ensures fits { length result < 2 ^ 63 }
    {
        self.pairs.iter()
    }
}

impl<V: Drop> BySession<V> {
    /// Gives the key this value, and gives back the one before. Only a key without a value takes memory.
    pub fn insert(&mut self, key: (u64, (u128, u64)), value: V) -> Result<Option<V>, Memory>
        ensures before { IfOk result (λ before. before ≡ map.get self.old key) }
        ensures ok { OnOk result (self.new ≡ map.insert self.old key value) }
        ensures err { OnErr result (self.new ≡ self.old) }
        ensures absent { OnErr result (map.get self.old key ≡ None) }
    {
        Ok(self.pairs.insert(key, value)?)
    }

    /// Takes the key's value away, and gives it back.
    pub fn remove(&mut self, key: (u64, (u128, u64))) -> Option<V>
        ensures before { result ≡ map.get self.old key }
        ensures removed { self.new ≡ map.remove self.old key }
    {
        self.pairs.remove(&key)
    }

    /// The keys with their values, in the order of the keys, taken out of the map.
    pub fn into_entries(self) -> IntoIter<(u64, (u128, u64)), V>
        ensures { result ≡ map.entries self }
    {
        self.pairs.into_iter()
    }
}

/// A map from clients, by the numbers that their UUIDs are.
#[derive(Drop)]
pub struct ByClient<V> {
    pairs: BTreeMap<u128, V>,
}

impl<V> Model for ByClient<V> {
    ghost use Rattle.std.specs.Ordering.{nat_cmp};
    ghost use Rattle.std.specs.FinMap as map;
    ghost use Rattle.std.specs.Coded.{coded_ℕ};

    ghost Value = { map.FinMap nat_cmp V };

    ghost coded = { map.code coded_ℕ V.code };

    ghost view = { λ a. map.from_entries a.pairs.entries };
}

impl<V> ByClient<V> {
    /// A map without keys.
    pub fn new(alloc: Global) -> ByClient<V>
        ensures { result ≡ map.empty }
    {
        ByClient {
            pairs: BTreeMap::new(alloc),
        }
    }

    /// The value at the key.
    pub fn get(&self, key: u128) -> Option<&V>
        ensures { option_copied result ≡ map.get self.now key }
    {
        self.pairs.get(&key)
    }

    /// The keys with their values, in the order of the keys.
    pub fn iter(&self) -> Iter<'_, u128, V>
        ensures entries { result ≡ map.entries self.now }
        ensures fits { length result < 2 ^ 63 }
    {
        self.pairs.iter()
    }
}

impl<V: Drop> ByClient<V> {
    /// Gives the key this value, and gives back the one before. Only a key without a value takes memory.
    pub fn insert(&mut self, key: u128, value: V) -> Result<Option<V>, Memory>
        ensures before { IfOk result (λ before. before ≡ map.get self.old key) }
        ensures ok { OnOk result (self.new ≡ map.insert self.old key value) }
        ensures err { OnErr result (self.new ≡ self.old) }
        ensures absent { OnErr result (map.get self.old key ≡ None) }
    {
        Ok(self.pairs.insert(key, value)?)
    }

    /// Takes the key's value away, and gives it back.
    pub fn remove(&mut self, key: u128) -> Option<V>
        ensures before { result ≡ map.get self.old key }
        ensures removed { self.new ≡ map.remove self.old key }
    {
        self.pairs.remove(&key)
    }

    /// Gives a key that has a value this value, or none. It takes no memory.
    pub fn put_back(&mut self, key: u128, before: Option<V>)
        requires { IsSome (map.get self.old key) }
        ensures { self.new ≡ set self.old key before }
    {
        match before {
            Some(value) => {
                if self.insert(key, value).is_err() {
                    unreachable!()
                }
            }
            None => {
                self.remove(key);
            }
        }
    }

    /// The keys with their values, in the order of the keys, taken out of the map.
    pub fn into_entries(self) -> IntoIter<u128, V>
        ensures { result ≡ map.entries self }
    {
        self.pairs.into_iter()
    }
}
