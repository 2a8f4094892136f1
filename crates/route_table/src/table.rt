//! The routing table: a map from networks to items, with longest-match lookup.
ghost use Rattle.std.specs.Prelude.{◌≡◌, ◌<◌, ◌^◌, OnOk, OnErr, None, length, option_copied};
ghost use Rattle.std.specs.Prelude.{option_map, IsSome, IsTrue};
ghost use Rattle.std.specs.FinMap as map;
ghost use Rattle.std.specs.List.Sorted.{IsStrictlySortedBy};
ghost use Rattle.std.specs.Map.{keys_of};
ghost use Rattle.ospf_types.specs.Network.{network_cmp};
ghost use Rattle.route_table.specs.Tables.{IsMatch, StandsAs, table_with};

use ospf_types::WordHash;
use ospf_types::entry::Entry;
use ospf_types::memory::Memory;
use ospf_types::prefix::Prefix;
use prefix_index::PrefixIndex;
use std::alloc::Global;
use std::hash::RandomState;
use std::marker::Model;

/// The item that the table has for a network.
#[derive(Debug, Drop)]
pub enum Item {
    /// The network has a route.
    Route(Entry),
    /// Packets to the network are discarded: it is the prefix of an active address range, and has
    /// no route (RFC 2328, 11.1).
    Discard,
}

/// The routing table: the networks with their items, and the serial of the last event that it
/// reflects.
#[derive(Debug)]
pub struct Table {
    alloc: Global,
    // The keys of the hash function for networks.
    hashing: WordHash,
    items: PrefixIndex<Item>,
    serial: u64,
}

// proof: a value is dropped by one call, not part by part at each exit of a function.
impl Drop for Table {
    fn drop(self) {
        let Table {
            alloc: _,
            hashing: _,
            items: _items,
            serial: _,
        } = self;
    }
}

impl Model for Table {
    ghost use Rattle.route_table.specs.Tables.{TableValue, table_code};

    ghost Value = { TableValue };

    ghost coded = { table_code };

    ghost view = { λ t. record { items = t.items; serial = t.serial } };
}

/// The result of a longest match.
#[derive(Debug, Drop)]
pub enum Match<'a> {
    /// The address has this route, to this network.
    Route(Prefix, &'a Entry),
    /// Packets to the address are discarded, because of this network.
    Discard(Prefix),
    /// No network of the table contains the address.
    None,
}

/// An iterator over the networks with their items, in ascending order.
#[derive(Drop)]
pub struct Items<'a> {
    left: prefix_index::Iter<'a, Item>,
}

impl<'a> Model for Items<'a> {
    ghost use Rattle.std.specs.Prelude.{List};
    ghost use Rattle.ospf_types.specs.Network.{Network};
    ghost use Rattle.route_table.specs.declared.table.Item.{Item};

    ghost Value = { List (Network × Item) };

    ghost view = { λ i. i.left };
}

impl<'a> Iterator for Items<'a> {
    ghost use Rattle.std.specs.Iterator.{YieldsFirstBy, item_count};

    type Item = (Prefix, &'a Item);

    ghost next_gives = { YieldsFirstBy (λ x. (x.0, x.1.now)) (λ s. s) };

    ghost remaining = { item_count (λ s. s) };

    fn next(&mut self) -> Option<(Prefix, &'a Item)> {
        self.left.next()
    }
}

impl Table {
    /// Creates an empty table with this serial. `hashing` supplies the keys of its hash function.
    /// No memory is allocated yet.
    pub fn new(alloc: Global, serial: u64, hashing: RandomState) -> Table
        ensures { result ≡ record { items = map.empty; serial = serial } }
    {
        Table::under(alloc, serial, WordHash::new(hashing))
    }

    /// Creates an empty table with the serial and the hash function of this one. No memory is
    /// allocated yet.
    pub fn empty_copy(&self, alloc: Global) -> Table
        ensures { result ≡ record { items = map.empty; serial = self.now.serial } }
    {
        Table::under(alloc, self.serial, self.hashing)
    }

    // Creates an empty table with this hash function.
    fn under(alloc: Global, serial: u64, hashing: WordHash) -> Table
        ensures { result ≡ record { items = map.empty; serial = serial } }
    {
        Table {
            alloc,
            hashing,
            items: PrefixIndex::new(alloc, hashing),
            serial,
        }
    }

    /// Returns the serial: that of the last event that the table reflects.
    pub fn serial(&self) -> u64
        ensures { result ≡ self.now.serial }
    {
        self.serial
    }

    /// Returns the item of the network.
    pub fn get(&self, prefix: Prefix) -> Option<&Item>
        ensures { option_copied result ≡ map.get self.now.items prefix }
    {
        self.items.get(prefix)
    }

    /// Returns an iterator over the networks with their items, by ascending address and then by
    /// length, the shorter first.
    pub fn items(&self) -> Items<'_>
        ensures all { result ≡ map.entries self.now.items }
        ensures in_order { IsStrictlySortedBy network_cmp (keys_of result) }
        ensures few { length result < 2 ^ 63 }
    {
        Items {
            left: self.items.iter(),
        }
    }

    /// Returns the longest match of an address (in host order): the item of the longest network
    /// that contains it (RFC 2328, 11.1).
    ///
    /// It allocates no memory, and looks for at most 33 networks, whatever the size of the table.
    pub fn lookup(&self, address: u32) -> Match<'_>
        ensures { IsMatch self.now.items address result }
    {
        // 11.1: the longest match decides, and a discard counts like a route.
        match self.items.longest(address) {
            Some((prefix, item)) => match_of(prefix, item),
            None => Match::None,
        }
    }

    /// Sets the item of the network, in place of the previous one.
    ///
    /// # Errors
    ///
    /// Returns `Memory` if memory runs out, which can happen only if the network had no item. The
    /// table is then unchanged.
    pub fn set(&mut self, prefix: Prefix, item: Item) -> Result<(), Memory>
        ensures ok { OnOk result (self.new ≡ table_with self.old prefix item) }
        ensures err { OnErr result (self.new ≡ self.old) }
        ensures absent { OnErr result (map.get self.old.items prefix ≡ None) }
    {
        self.items.insert(prefix, item)
    }

    // Sets the item like `set`, but without searching if the network's item is at this index.
    pub(crate) fn set_at(&mut self, place: usize, prefix: Prefix, item: Item) -> Result<(), Memory>
        ensures ok { OnOk result (self.new ≡ table_with self.old prefix item) }
        ensures err { OnErr result (self.new ≡ self.old) }
        ensures absent { OnErr result (map.get self.old.items prefix ≡ None) }
    {
        self.items.insert_at(place, prefix, item)
    }

    // Returns the item of the network with its index.
    pub(crate) fn find(&self, prefix: Prefix) -> Option<(usize, &Item)>
        ensures { option_map (λ found. found.1.now) result ≡ map.get self.now.items prefix }
    {
        self.items.find(prefix)
    }

    // Returns true if the item at the index is the network's.
    pub(crate) fn has_at(&self, place: usize, prefix: Prefix) -> bool
        ensures { IsTrue result → IsSome (map.get self.now.items prefix) }
    {
        self.items.has_at(place, prefix)
    }

    /// Sets the serial of the table.
    pub fn set_serial(&mut self, serial: u64)
        ensures { self.new ≡ record self.old { serial = serial } }
    {
        self.serial = serial;
    }

    // Removes all items.
    pub(crate) fn clear(&mut self)
        ensures { self.new ≡ record self.old { items = map.empty } }
    {
        self.items.clear();
    }

    // Returns the allocator of the table.
    pub(crate) fn alloc(&self) -> Global {
        self.alloc
    }

    // Removes the item of the network.
    pub(crate) fn remove(&mut self, prefix: Prefix)
        ensures { self.new ≡ record self.old { items = map.remove self.old.items prefix } }
    {
        self.items.remove(prefix);
    }
}

// Returns the match of an address whose longest network has this item.
fn match_of(prefix: Prefix, item: &Item) -> Match<'_>
    ensures { StandsAs prefix item.now result }
{
    match item {
        Item::Route(entry) => Match::Route(prefix, entry),
        Item::Discard => Match::Discard(prefix),
    }
}
