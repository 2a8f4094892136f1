//! The new item of a network.
ghost use Rattle.std.specs.Prelude.{◌≡◌, ◌↔◌, IfOk, IsTrue, IsFalse, IsSome, Some, option_copied};
ghost use Rattle.route_table.specs.Changes.{HasPlaceFor, IsNewItem};
ghost use Rattle.route_table.specs.declared.table.Item.TheVariants as item;

use crate::table::{Item, Table};
use ospf_types::entry::Entry;
use ospf_types::memory::Memory;
use ospf_types::prefix::Prefix;
use std::alloc::Global;
use std::marker::Model;

// The index of an item that is not in the table.
const NOWHERE: usize = usize::MAX;

/// A network with the new item that it gets in a table, or with `None` if it loses its item.
#[derive(Debug, Drop)]
pub struct NewItem {
    pub(crate) network: Prefix,
    // The index of the item that this one replaces. It is a hint: if it is wrong, the network is
    // searched.
    pub(crate) place: usize,
    pub(crate) item: Option<Item>,
}

impl Model for NewItem {
    ghost use Rattle.std.specs.Prelude.{Option};
    ghost use Rattle.std.specs.Coded.{codes};
    ghost use Rattle.ospf_types.specs.Network.{Network};
    ghost use Rattle.route_table.specs.declared.table.Item.{Item};

    ghost Value = { Network × Option Item };

    ghost view = { λ n. (n.network, n.item) };
}

impl NewItem {
    /// Creates a new item for the network, or its removal.
    pub fn new(network: Prefix, item: Option<Item>) -> NewItem
        ensures { result ≡ (network, item) }
    {
        NewItem {
            network,
            place: NOWHERE,
            item,
        }
    }

    /// Returns the network.
    pub fn network(&self) -> Prefix
        ensures { result ≡ self.now.0 }
    {
        self.network
    }

    // Returns true if there is an item and the network may have none in the table so far.
    pub(crate) fn needs_place(&self, table: &Table) -> bool
        ensures needed { IsTrue result → IsSome self.now.1 }
        ensures has_place { IsFalse result → HasPlaceFor table.now.items self.now }
    {
        self.item.is_some() && !table.has_at(self.place, self.network)
    }
}

impl Table {
    /// Returns the new item of the network if the table has another one, or `None` if it has the
    /// same.
    ///
    /// It searches the network once. Changing the table to the new item needs no second search.
    pub fn new_item(&self, network: Prefix, item: Option<Item>) -> Option<NewItem>
        ensures { IsNewItem self.now.items network item result }
    {
        let (place, is_same) = match self.find(network) {
            Some((place, old)) => (place, old.is_item(item.as_ref())),
            None => (NOWHERE, item.is_none()),
        };
        if is_same {
            return None;
        }
        Some(NewItem {
            network,
            place,
            item,
        })
    }

    /// Returns the route as the new item of the network if the table has another item, or `None` if
    /// it has the same. The route is copied only if it differs.
    ///
    /// # Errors
    ///
    /// Returns `Memory` if memory runs out.
    pub fn new_route(
        &self,
        alloc: Global,
        network: Prefix,
        entry: &Entry,
    ) -> Result<Option<NewItem>, Memory>
        ensures { IfOk result (IsNewItem self.now.items network (Some (item.Route entry.now))) }
    {
        let (place, is_same) = match self.find(network) {
            Some((place, old)) => (place, old.is_route(entry)),
            None => (NOWHERE, false),
        };
        if is_same {
            return Ok(None);
        }
        Ok(Some(NewItem {
            network,
            place,
            item: Some(Item::Route(entry.copy(alloc)?)),
        }))
    }
}

impl Item {
    // Returns true if the item is this route.
    fn is_route(&self, entry: &Entry) -> bool
        ensures { IsTrue result ↔ (self.now ≡ item.Route entry.now) }
    {
        match self {
            Item::Route(old) => old.is_same(entry),
            Item::Discard => false,
        }
    }

    // Returns true if the item equals the other one.
    fn is_item(&self, other: Option<&Item>) -> bool
        ensures { IsTrue result ↔ (Some self.now ≡ option_copied other.entry) }
    {
        match other {
            Some(Item::Route(entry)) => self.is_route(entry),
            Some(Item::Discard) => matches!(self, Item::Discard),
            None => false,
        }
    }
}
