ghost use Rattle.std.specs.Prelude.{◌≡◌, ◌<◌, ◌≤◌, List, ℕ, [], map, not, false, length, IfOk, OnOk, OnErr};
ghost use Rattle.std.specs.List.{list_any};
ghost use Rattle.std.specs.Str.{bytes_eq};
ghost use Rattle.cts_model.specs.Vocabulary.{number_of};
ghost use Rattle.name_set.specs.Names.{with_name};

use crate::HashKey;
use crate::name_bytes::NameBytes;
use cts_base::NoMemory;
use indexmap::IndexSet;
use std::alloc::Global;
use std::marker::Model;

/// Names, each once, that are numbered from 0 in the order in which they came: slices of what they
/// stand in.
#[derive(Drop)]
pub struct NameSet<'a> {
    names: IndexSet<NameBytes<'a>, HashKey>,
}

impl<'a> Model for NameSet<'a> {
    ghost Value = { List (List ℕ) };

    ghost view = { λ names. map (λ name. name.bytes.now) names.names.keys };

    ghost invariant = { λ names. length names.names.keys ≤ 65537 };
}

impl<'a> NameSet<'a> {
    /// No names. It takes no memory. The key is to be made of all the names that are put in.
    pub fn new(alloc: Global, key: HashKey) -> NameSet<'a>
        ensures { result ≡ [] }
    {
        NameSet {
            names: IndexSet::with_hasher(alloc, key),
        }
    }

    /// The same, with room for so many names.
    ///
    /// # Errors
    ///
    /// There is no memory for the room.
    pub fn with_room(alloc: Global, names: usize, key: HashKey) -> Result<NameSet<'a>, NoMemory>
        ensures { IfOk result (λ names. names ≡ []) }
    {
        let names = IndexSet::with_capacity_and_hasher(alloc, names, key)?;
        Ok(NameSet { names })
    }

    /// The key under which the names are hashed.
    pub fn key(&self) -> HashKey {
        *self.names.hasher()
    }

    /// How many names there are.
    pub fn len(&self) -> usize
        ensures { result ≡ length self.now }
    {
        self.names.len()
    }

    /// Whether a name has a number.
    pub fn contains(&self, name: &[u8]) -> bool
        ensures { result ≡ list_any (bytes_eq name.now) self.now }
    {
        self.names.contains(&NameBytes { bytes: name })
    }

    /// Puts a name last, if it is new, and answers whether it is. Only a new one wants memory.
    pub fn insert(&mut self, name: &'a [u8]) -> Result<bool, NoMemory>
        requires { length self.old < 65537 }
        ensures new { IfOk result (λ new. new ≡ not (list_any (bytes_eq name.now) self.old)) }
        ensures names { OnOk result (self.new ≡ with_name self.old name.now) }
        ensures err { OnErr result (list_any (bytes_eq name.now) self.old ≡ false) }
    {
        Ok(self.names.insert(NameBytes { bytes: name })?)
    }

    /// The number of a name, counted from 0.
    pub fn number_of(&self, name: &[u8]) -> Option<u32>
        ensures { result ≡ number_of self.now name.now }
    {
        let number = self.names.get_index_of(&NameBytes { bytes: name })?;
        Some(number as u32)
    }
}
