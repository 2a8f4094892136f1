//! The reassembly of datagrams from fragments (RFC 791, 3.2).
ghost use Rattle.std.specs.Prelude.{◌≡◌, ◌≤◌, [], length, OnOk, OnErr};
ghost use Rattle.std.specs.List.{position};

use crate::datagram::Datagram;
use crate::key::FragmentKey;
use crate::partial::Partial;
use crate::steps::{begin, go_on};
use ospf_types::memory::Memory;
use std::alloc::Global;
use std::marker::Model;

/// The most datagrams of which parts are kept.
pub const MOST: usize = 64;

/// The datagrams of which some fragments were received, but not all.
///
/// It keeps parts of at most `MOST` datagrams, with at most `LONGEST` bytes each. If one more
/// begins, the one that began first is forgotten. There is no clock: until then, parts of a
/// datagram stay even if the others never arrive.
pub struct Fragments {
    partials: Vec<Partial>,
}

// proof: a value is dropped by one call, not part by part at each exit of a function.
impl Drop for Fragments {
    fn drop(self) {
        let Fragments {
            partials: _partials,
        } = self;
    }
}

/// Contracts see the parts of each datagram, in the order in which the datagrams began.
impl Model for Fragments {
    ghost use Rattle.std.specs.Prelude.{◌≤◌, List, length};
    ghost use Rattle.packets.specs.Kept.{Kept};
    ghost use Rattle.packets.specs.Keeping.{AreKeysApart, AreShort};
    ghost use Rattle.packets.specs.declared.fragments.TheConstants.{MOST};

    ghost Value = { List Kept };

    ghost view = { λ f. f.partials.items };

    ghost invariant = { λ f. (length f.partials.items ≤ MOST) × AreKeysApart f.partials.items × AreShort f.partials.items };
}

impl Fragments {
    ghost use Rattle.packets.specs.Kept.{IsMadeOf};
    ghost use Rattle.packets.specs.Taking.{TakesFragment, kept_with, payload_with};
    ghost use Rattle.packets.specs.declared.key.FragmentKey.{FragmentKey};
    ghost use Rattle.packets.specs.Keeping.{AreKeysApart, AreShort, IsPayloadAnswer, has_key, kept_of};

    /// Creates an empty collection.
    pub fn new(alloc: Global) -> Fragments
        ensures value { result ≡ [] }
        ensures nothing { (key : FragmentKey) → IsMadeOf [] (kept_of key result) }
    {
        Fragments {
            partials: Vec::new(alloc),
        }
    }

    /// Returns the number of datagrams of which parts are kept.
    pub fn count(&self) -> usize
        ensures value { result ≡ length self.now }
        ensures few { result ≤ MOST }
        ensures apart { AreKeysApart self.now }
        ensures short { AreShort self.now }
    {
        self.partials.len()
    }

    /// Takes a fragment. If its datagram is whole with it, forgets the datagram and returns its
    /// payload. Otherwise returns `None`.
    ///
    /// Fragments may arrive in any order, more than once, and overlap: the byte received last
    /// counts. If fragments contradict each other about the end of their datagram, it is forgotten.
    /// The payload of a datagram that is not a fragment is returned at once. An exception is one
    /// that contradicts kept parts with the same addresses, identification and protocol.
    ///
    /// # Errors
    ///
    /// Returns `Memory` if memory runs out. Nothing changes then.
    pub fn take(
        &mut self,
        alloc: Global,
        fragment: &Datagram<'_>,
    ) -> Result<Option<Vec<u8>>, Memory>
        ensures kept { OnOk result (self.new ≡ kept_with fragment.now self.old) }
        ensures answer { IsPayloadAnswer result (payload_with fragment.now self.old) }
        // If memory runs out, nothing changes.
        ensures unchanged { OnErr result (self.new ≡ self.old) }
        // The result and the kept parts are made of all fragments received and not forgotten.
        ensures taken { TakesFragment fragment.now self.old self.new result }
    {
        let key = FragmentKey::of(fragment);
        match self.place_of(&key) {
            Some(place) => go_on(&mut self.partials, place, fragment),
            None => begin(&mut self.partials, Partial::new(alloc, key), fragment),
        }
    }

    // Returns the index of the datagram with the key.
    fn place_of(&self, key: &FragmentKey) -> Option<usize>
        ensures { result ≡ position (has_key key.now) self.now }
    {
        self.partials
            .iter()
            .position(|partial| partial.has_key(key))
    }
}
