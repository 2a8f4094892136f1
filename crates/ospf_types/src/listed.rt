//! A list that contracts see as its items.
//!
//! The vectors of public structs are of this type, so that a contract of `copy` can promise an
//! equal value.
ghost use Rattle.std.specs.Prelude.{◌≡◌, ◌↔◌, ◌≤◌, ◌<◌, [], ◌∷◌, ◌++◌, length, get_or};
ghost use Rattle.std.specs.Prelude.{set as list_set, IsTrue, OnOk, OnErr, IfOk};
ghost use Rattle.std.specs.List.{insert as list_insert, remove as list_remove};

use crate::memory::Memory;
use std::alloc::Global;
use std::marker::Model;

/// A growable list.
#[derive(Debug)]
pub struct Listed<T> {
    items: Vec<T>,
}

// proof: a value is dropped by one call, not part by part at each exit of a function.
impl<T: Drop> Drop for Listed<T> {
    fn drop(self) {
        let Listed { items: _items } = self;
    }
}

impl<T> Model for Listed<T> {
    ghost use Rattle.std.specs.Prelude.{List};

    ghost Value = { List T };

    ghost view = { λ l. l.items.items };
}

impl<T: Copy> Listed<T> {
    /// Creates a list of the slice's items.
    pub fn from_slice(alloc: Global, items: &[T]) -> Result<Listed<T>, Memory>
        ensures { IfOk result (λ list. list ≡ items.now) }
    {
        Ok(Listed {
            items: Vec::from_slice(alloc, items)?,
        })
    }
}

impl<T: Drop> Listed<T> {
    /// Creates an empty list.
    pub fn new(alloc: Global) -> Listed<T>
        ensures { result ≡ [] }
    {
        Listed {
            items: Vec::new(alloc),
        }
    }

    /// Appends an item.
    ///
    /// # Errors
    ///
    /// Returns `Memory` if memory runs out. The list is then unchanged.
    pub fn push(&mut self, item: T) -> Result<(), Memory>
        ensures ok { OnOk result (self.new ≡ self.old ++ item ∷ []) }
        ensures err { OnErr result (self.new ≡ self.old) }
    {
        self.items.push(item)?;
        Ok(())
    }

    /// Inserts an item at the index, and moves all items from there up by one.
    ///
    /// # Errors
    ///
    /// Returns `Memory` if memory runs out. The list is then unchanged.
    pub fn insert(&mut self, place: usize, item: T) -> Result<(), Memory>
        requires { place ≤ length self.old }
        ensures ok { OnOk result (self.new ≡ list_insert self.old place item) }
        ensures err { OnErr result (self.new ≡ self.old) }
    {
        self.items.insert(place, item)?;
        Ok(())
    }

    /// Removes and returns the item at the index, and moves all items after it down by one.
    pub fn remove(&mut self, place: usize) -> T
        requires { place < length self.old }
        ensures item { result ≡ get_or self.old place result }
        ensures rest { self.new ≡ list_remove self.old place }
    {
        self.items.remove(place)
    }

    /// Replaces the item at the index.
    pub fn set(&mut self, place: usize, item: T)
        requires { place < length self.old }
        ensures { self.new ≡ list_set self.old place item }
    {
        self.items[place] = item;
    }

    /// Returns the items as a slice.
    pub fn as_slice(&self) -> &[T]
        ensures { result.now ≡ self.now }
    {
        self.items.as_slice()
    }

    /// Returns the number of items.
    pub fn len(&self) -> usize
        ensures { result ≡ length self.now }
    {
        self.items.len()
    }

    /// Returns true if the list has no items.
    pub fn is_empty(&self) -> bool
        ensures { IsTrue result ↔ (self.now ≡ []) }
    {
        self.items.is_empty()
    }
}
