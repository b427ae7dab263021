ghost use Rattle.std.specs.Prelude.{◌≡◌, ◌≤◌, ◌<◌, ◌↔◌, ◌==◌, List, [], ◌∷◌, ◌++◌, length, take, slice_get, slice_set, OnOk, OnErr, IsNone};
ghost use Rattle.std.specs.Option.{option_copied};

use crate::NoMemory;
use std::alloc::Global;
use std::marker::Model;

/// The bytes of a name.
pub type Name = Listed<u8>;

/// A list in memory that contracts see as the plain list of its items.
#[derive(Debug, Drop)]
pub struct Listed<T> {
    items: Vec<T>,
}

impl<T> Model for Listed<T> {
    ghost Value = { List T };

    ghost view = { λ list. list.items.items };
}

impl<T> Listed<T> {
    /// The empty list. It takes no memory until the first push.
    pub fn new(alloc: Global) -> Listed<T>
        ensures { result ≡ [] }
    {
        Listed {
            items: Vec::new(alloc),
        }
    }

    /// Puts an item last.
    ///
    /// # Errors
    ///
    /// `NoMemory` where memory is refused; the item is dropped and the list unchanged then.
    pub fn push(&mut self, item: T) -> Result<(), NoMemory>
    where
        T: Drop,
        ensures ok { OnOk result (self.new ≡ self.old ++ item ∷ []) }
        ensures err { OnErr result (self.new ≡ self.old) }
    {
        self.items.push(item)?;
        Ok(())
    }

    /// How many items it has.
    pub fn len(&self) -> usize
        ensures { result ≡ length self.now }
    {
        self.items.len()
    }

    /// Whether it has no items.
    pub fn is_empty(&self) -> bool
        ensures { result ≡ (length self.now == 0) }
    {
        self.items.is_empty()
    }

    /// The item at a place, counted from 0.
    pub fn get(&self, at: usize) -> Option<&T>
        ensures value { option_copied result ≡ slice_get self.now at }
        ensures none { IsNone result ↔ (length self.now ≤ at) }
    {
        self.items.get(at)
    }

    /// The list that has the items of a vector. It takes no memory.
    pub fn from_vec(items: Vec<T>) -> Listed<T>
        ensures { result ≡ items.items }
    {
        Listed { items }
    }

    /// The vector that has the items of the list. It takes no memory.
    pub fn into_vec(self) -> Vec<T>
        ensures { result.items ≡ self }
    {
        self.items
    }

    /// Its items in order, where they stand. It takes no memory.
    pub fn as_slice(&self) -> &[T]
        ensures { result.now ≡ self.now }
    {
        self.items.as_slice()
    }

    /// Puts an item in the place of another, which is dropped. It takes no memory.
    pub fn set(&mut self, at: usize, item: T)
    where
        T: Drop,
        requires { at < length self.old }
        ensures { self.new ≡ slice_set self.old at item }
    {
        self.items[at] = item;
    }

    /// Drops all items but so many at the start. It takes no memory.
    pub fn truncate(&mut self, len: usize)
    where
        T: Drop,
        ensures { self.new ≡ take len self.old }
    {
        self.items.truncate(len);
    }
}
