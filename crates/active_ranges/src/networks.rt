//! The networks of one range, each at the cost of its entry.
ghost use Rattle.std.specs.Prelude.{◌≡◌, ◌↔◌, [], IsTrue, IfOk, IfErr, OnOk, length};
ghost use Rattle.std.specs.Prelude.{map as list_map};
ghost use Rattle.std.specs.List.Sorted.{IsStrictlySortedBy};
ghost use Rattle.std.specs.Map.{keys_of};
ghost use Rattle.ospf_types.specs.Network.{network_cmp};
ghost use Rattle.active_ranges.specs.Grouped.{AreMadeOf, IsNetworkAt, IsCostOf, IsGapFor, IsPutIn};
ghost use Rattle.active_ranges.specs.Grouped.{member_of};
ghost use Rattle.active_ranges.specs.Lists.{IsGreatestBelow};

use crate::member::{AreaRange, RangeMember};
use ospf_types::memory::Memory;
use ospf_types::prefix::Prefix;
use std::alloc::Global;
use std::marker::Model;

/// The networks of a range in ascending order, each at its cost. They are adjacent in memory, so
/// that it is cheap to visit all.
#[derive(Drop)]
pub(crate) struct RangeNetworks {
    list: Vec<(Prefix, u32)>,
}

impl Model for RangeNetworks {
    ghost use Rattle.std.specs.List.Sorted.{IsStrictlySortedBy};
    ghost use Rattle.std.specs.Map.{keys_of};
    ghost use Rattle.ospf_types.specs.Network.{network_cmp};
    ghost use Rattle.active_ranges.specs.Grouped.{RangeNetworksValue as NetworksValue};

    ghost Value = { NetworksValue };

    ghost view = { λ n. record { entries = n.list.items } };

    ghost invariant = { λ n. IsStrictlySortedBy network_cmp (keys_of n.list.items) };
}

impl RangeNetworks {
    /// Creates an empty list.
    pub(crate) fn new(alloc: Global) -> RangeNetworks
        ensures { result.entries ≡ [] }
    {
        RangeNetworks {
            list: Vec::new(alloc),
        }
    }

    /// Returns the networks of the members, at their costs.
    pub(crate) fn of(alloc: Global, costs: &[(RangeMember, u32)]) -> Result<RangeNetworks, Memory>
        ensures { IfOk result (AreMadeOf (list_map (λ x. (x.0.network, x.1)) costs.now)) }
    {
        let mut networks = RangeNetworks {
            list: Vec::with_capacity(alloc, costs.len())?,
        };
        for (member, cost) in costs {
            networks.put(member.network, Some(*cost))?;
        }
        Ok(networks)
    }

    /// Sets the cost of the network, or removes the network if `cost` is `None`.
    pub(crate) fn put(&mut self, network: Prefix, cost: Option<u32>) -> Result<(), Memory>
        ensures { OnOk result (IsPutIn self.old network cost self.new) }
    {
        let place = self.place(network);
        let Some(cost) = cost else {
            if let Ok(at) = place {
                self.list.remove(at);
            }
            return Ok(());
        };
        match place {
            Ok(at) => self.list[at] = (network, cost),
            Err(at) => self.list.insert(at, (network, cost))?,
        }
        Ok(())
    }

    /// Returns true if the list is empty.
    pub(crate) fn is_empty(&self) -> bool
        ensures { IsTrue result ↔ (self.now.entries ≡ []) }
    {
        self.list.is_empty()
    }

    /// Returns the greatest cost below `limit`, or `None` if there is none.
    pub(crate) fn costliest(&self, limit: u32) -> Option<u32>
        ensures { IsGreatestBelow limit (IsCostOf self.now) result }
    {
        let mut most = None;
        for (_, cost) in &self.list {
            if *cost < limit {
                most = most.max(Some(*cost));
            }
        }
        most
    }

    /// Returns the networks as members of the range.
    pub(crate) fn as_members(
        &self,
        alloc: Global,
        range: AreaRange,
    ) -> Result<Vec<RangeMember>, Memory>
        ensures { IfOk result
            (λ members. members.items ≡ list_map (λ e. member_of range e.0) self.now.entries) }
    {
        let members = self
            .list
            .iter()
            .map(|entry| RangeMember {
                range: range.prefix,
                area: range.area,
                network: entry.0,
            })
            .collect(alloc)?;
        Ok(members)
    }

    // Returns the index of the network as `Ok`, or the index at which to insert it as `Err`. The
    // end is tried first, as networks often come in order.
    fn place(&self, network: Prefix) -> Result<usize, usize>
        ensures found { IfOk result (IsNetworkAt self.now.entries network) }
        ensures absent { IfErr result (IsGapFor self.now.entries network) }
    {
        let list = self.list.as_slice();
        if ends_before(list, network) {
            return Err(list.len());
        }
        list.binary_search_by_key(&network, |entry| entry.0)
    }
}

// Returns true if all networks of the list, which is in order, come before this one.
fn ends_before(list: &[(Prefix, u32)], network: Prefix) -> bool
    requires { IsStrictlySortedBy network_cmp (keys_of list.now) }
    ensures { IsTrue result → IsGapFor list.now network (length list.now) }
{
    match list.last() {
        Some((last, _)) => last.cmp(&network).is_lt(),
        None => true,
    }
}
