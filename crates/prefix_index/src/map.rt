//! The map from networks to values.
ghost use Rattle.std.specs.Prelude.{◌≡◌, ◌≢◌, ◌<◌, ◌^◌, true, None, IfNone, IfSome, IsSome, OnOk};
ghost use Rattle.std.specs.Prelude.{OnErr, is_some, option_copied, option_map, IsTrue};
ghost use Rattle.std.specs.FinMap as map;
ghost use Rattle.std.specs.List.{AllPairs};
ghost use Rattle.ospf_types.specs.Network.{network_cmp};

use crate::slots::{Slots, make_room, stands_at};
use ospf_types::WordHash;
use ospf_types::memory::Memory;
use ospf_types::prefix::Prefix;
use std::alloc::Global;
use std::fmt;
use std::fmt::{Debug, Formatter};
use std::marker::Model;

/// A map from networks to values.
///
/// A lookup of a network that has a value usually reads one slot and the entry. While the map
/// grows, the slots take some 10 to 40 bytes for each network in addition to the entries. Removals
/// give memory back in large steps.
pub struct NetworkMap<V> {
    alloc: Global,
    hashing: WordHash,
    // The entries, in no particular order.
    entries: Vec<(Prefix, V)>,
    slots: Slots,
}

// proof: a value is dropped by one call, not part by part at each exit of a function.
impl<V: Drop> Drop for NetworkMap<V> {
    fn drop(self) {
        let NetworkMap {
            alloc: _,
            hashing: _,
            entries: _entries,
            slots: _slots,
        } = self;
    }
}

impl<V> Model for NetworkMap<V> {
    ghost use Rattle.std.specs.FinMap as map;
    ghost use Rattle.ospf_types.specs.Network.{network_cmp, network_code};
    ghost use Rattle.prefix_index.specs.Slots.{AreSlotsRight};

    ghost Value = { map.FinMap network_cmp V };

    ghost coded = { map.code network_code V.code };

    ghost view = { λ m. map.from_entries m.entries.items };

    ghost invariant = { λ m. AreSlotsRight m.hashing m.entries.items m.slots };
}

// The entries are not printed.
impl<V> Debug for NetworkMap<V> {
    fn fmt<W: fmt::Write>(&self, f: &mut Formatter<W>) -> fmt::Result {
        f.debug_struct("NetworkMap").finish_non_exhaustive()
    }
}

impl<V> NetworkMap<V> {
    /// Returns the number of networks that have a value.
    #[inline]
    pub fn len(&self) -> usize
        ensures count { result ≡ map.len self.now }
        ensures small { result < 2 ^ 31 }
    {
        self.entries.len()
    }

    /// Returns the network's value. It takes no memory.
    #[inline]
    pub fn get(&self, network: Prefix) -> Option<&V>
        ensures { option_copied result ≡ map.get self.now network }
    {
        match self
            .slots
            .find(self.entries.as_slice(), self.hashing, network)
        {
            Some(place) => Some(&self.entries[place].1),
            None => None,
        }
    }

    /// Returns the network's value and its place, which is a hint for `has_at` and `replace_at`. It
    /// takes no memory.
    #[inline]
    pub fn find(&self, network: Prefix) -> Option<(usize, &V)>
        ensures { option_map (λ found. found.1.now) result ≡ map.get self.now network }
    {
        match self
            .slots
            .find(self.entries.as_slice(), self.hashing, network)
        {
            Some(place) => Some((place, &self.entries[place].1)),
            None => None,
        }
    }

    /// Returns true if the network's value is at the place. It reads no slot.
    #[inline]
    pub fn has_at(&self, place: usize, network: Prefix) -> bool
        ensures { IsTrue result → IsSome (map.get self.now network) }
    {
        stands_at(self.entries.as_slice(), place, network)
    }

    /// Returns true if the network has a value.
    #[inline]
    pub fn contains(&self, network: Prefix) -> bool
        ensures { result ≡ is_some (map.get self.now network) }
    {
        self.get(network).is_some()
    }

    /// Returns the networks with their values, in no particular order.
    pub fn entries(&self) -> &[(Prefix, V)]
        ensures all { map.from_entries result.now ≡ self.now }
        ensures once { AllPairs (λ e f. e.0 ≢ f.0) result.now }
    {
        self.entries.as_slice()
    }
}

impl<V: Drop> NetworkMap<V> {
    /// Creates an empty map. It takes no memory until a value is inserted.
    pub fn new(alloc: Global, hashing: WordHash) -> NetworkMap<V>
        ensures { result ≡ map.empty }
    {
        NetworkMap {
            alloc,
            hashing,
            entries: Vec::new(alloc),
            slots: Slots::new(alloc),
        }
    }

    /// Sets the network's value, and drops the old value if there is one.
    ///
    /// # Errors
    ///
    /// Returns `Memory` if memory runs out. This happens only if the network has no value. Nothing
    /// changes then.
    pub fn insert(&mut self, network: Prefix, value: V) -> Result<(), Memory>
        ensures ok { OnOk result (self.new ≡ map.insert self.old network value) }
        ensures err { OnErr result (self.new ≡ self.old) }
        ensures absent { OnErr result (map.get self.old network ≡ None) }
    {
        match self.replace(network, value) {
            None => Ok(()),
            Some(value) => self.add(network, value),
        }
    }

    /// Replaces the network's value. If the network has none, returns the new value, and nothing
    /// changes.
    pub fn replace(&mut self, network: Prefix, value: V) -> Option<V>
        ensures replaced { IfNone result (self.new ≡ map.insert self.old network value) }
        ensures stood { IfNone result (IsSome (map.get self.old network)) }
        ensures returned { IfSome result (λ v. v ≡ value) }
        ensures unchanged { is_some result ≡ true → self.new ≡ self.old }
        ensures absent { is_some result ≡ true → map.get self.old network ≡ None }
    {
        match self
            .slots
            .find(self.entries.as_slice(), self.hashing, network)
        {
            Some(place) => {
                self.entries[place] = (network, value);
                None
            }
            None => Some(value),
        }
    }

    /// Replaces the network's value, as `replace` does, without a search if the value is at the
    /// place.
    #[inline]
    pub fn replace_at(&mut self, place: usize, network: Prefix, value: V) -> Option<V>
        ensures replaced { IfNone result (self.new ≡ map.insert self.old network value) }
        ensures stood { IfNone result (IsSome (map.get self.old network)) }
        ensures returned { IfSome result (λ v. v ≡ value) }
        ensures unchanged { is_some result ≡ true → self.new ≡ self.old }
        ensures absent { is_some result ≡ true → map.get self.old network ≡ None }
    {
        if stands_at(self.entries.as_slice(), place, network) {
            self.entries[place] = (network, value);
            return None;
        }
        self.replace(network, value)
    }

    /// Adds a network that has no value, with its value.
    ///
    /// # Errors
    ///
    /// Returns `Memory` if memory runs out. Nothing changes then.
    pub fn add(&mut self, network: Prefix, value: V) -> Result<(), Memory>
        requires { map.get self.old network ≡ None }
        ensures ok { OnOk result (self.new ≡ map.insert self.old network value) }
        ensures err { OnErr result (self.new ≡ self.old) }
    {
        make_room(
            &mut self.slots,
            self.entries.as_slice(),
            self.hashing,
            self.alloc,
        )?;
        self.entries.reserve(1)?;
        self.slots.add(self.hashing, network, self.entries.len())?;
        self.entries.push((network, value))?;
        Ok(())
    }

    /// Removes the network's value, and returns true if it had one. If far fewer values are left
    /// than there were, memory is given back.
    pub fn remove(&mut self, network: Prefix) -> bool
        ensures removed { self.new ≡ map.remove self.old network }
        ensures stood { result ≡ is_some (map.get self.old network) }
    {
        let stood = self.take(network);
        self.shrink();
        stood
    }

    /// Removes all values, and gives their memory back.
    pub fn clear(&mut self)
        ensures { self.new ≡ map.empty }
    {
        self.entries = Vec::new(self.alloc);
        self.slots = Slots::new(self.alloc);
    }

    // Removes the network's value, and returns true if it had one. The last entry moves to its
    // index.
    fn take(&mut self, network: Prefix) -> bool
        ensures removed { self.new ≡ map.remove self.old network }
        ensures stood { result ≡ is_some (map.get self.old network) }
    {
        let Some(place) = self
            .slots
            .find(self.entries.as_slice(), self.hashing, network)
        else {
            return false;
        };
        self.slots
            .take(self.hashing, self.entries.as_slice(), place);
        self.entries.swap_remove(place);
        true
    }

    // Makes fewer slots if far fewer entries are left. If memory runs out, the slots stay.
    fn shrink(&mut self)
        ensures { self.new ≡ self.old }
    {
        if !self.slots.is_wide(self.entries.len()) {
            return;
        }
        if let Ok(slots) = Slots::of(self.alloc, self.hashing, self.entries.as_slice()) {
            self.slots = slots;
            self.entries.shrink_to_fit();
        }
    }
}
