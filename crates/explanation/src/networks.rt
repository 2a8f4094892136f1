//! A sorted set of networks.
ghost use Rattle.std.specs.Prelude.{◌≡◌, Contains, IfNone, IfSome};
ghost use Rattle.std.specs.List.Sorted.{IsStrictlySortedBy};
ghost use Rattle.ospf_types.specs.Network.{network_cmp};
ghost use Rattle.route_choice.specs.Lists.{ListsExactly};
ghost use Rattle.explanation.specs.Offers.{IsPlaceOf, is_one_of};

use ospf_types::prefix::Prefix;
use route_choice::sorted_unique;
use std::marker::Model;

/// Networks in the order of addresses and then of prefix lengths, without duplicates.
pub(crate) struct NetworkSet {
    items: Vec<Prefix>,
}

// proof: a value is dropped by one call, not part by part at each exit of a function.
impl Drop for NetworkSet {
    fn drop(self) {
        let NetworkSet { items: _items } = self;
    }
}

impl Model for NetworkSet {
    ghost use Rattle.std.specs.Prelude.{List};
    ghost use Rattle.std.specs.List.Sorted.{IsStrictlySortedBy};
    ghost use Rattle.ospf_types.specs.Network.{Network, network_cmp};

    ghost Value = { List Network };

    ghost view = { λ n. n.items.items };

    ghost invariant = { λ n. IsStrictlySortedBy network_cmp n.items.items };
}

impl NetworkSet {
    pub(crate) fn of(networks: Vec<Prefix>) -> NetworkSet
        ensures { ListsExactly (Contains networks.items) result }
    {
        NetworkSet {
            items: sorted_unique(networks),
        }
    }

    pub(crate) fn as_slice(&self) -> &[Prefix]
        ensures value { result.now ≡ self.now }
        ensures in_order { IsStrictlySortedBy network_cmp self.now }
    {
        self.items.as_slice()
    }

    /// Returns the index of the network, or `None` if it is not one of them.
    pub(crate) fn place(&self, network: Prefix) -> Option<usize>
        ensures some { IfSome result (IsPlaceOf self.now network) }
        ensures none { IfNone result (Contains self.now network → ⊥) }
    {
        self.items.as_slice().binary_search(&network).ok()
    }

    /// Returns true if the network is one of them.
    pub(crate) fn has(&self, network: Prefix) -> bool
        ensures { result ≡ is_one_of self.now network }
    {
        self.place(network).is_some()
    }
}
