//! The active ranges, which are the ranges that have a member.
ghost use Rattle.std.specs.Prelude.{◌≡◌, ◌≢◌, ◌↔◌, ℕ, [], Some, None, Contains, IsTrue, IfOk, OnOk};
ghost use Rattle.std.specs.Prelude.{OnErr, option_copied, map as list_map};
ghost use Rattle.std.specs.FinMap as map;
ghost use Rattle.std.specs.List.Sorted.{IsStrictlySortedBy};
ghost use Rattle.ospf_types.specs.declared.key.Dest.TheVariants as dest_value;
ghost use Rattle.ospf_types.specs.declared.prefix.Prefix.{Prefix as PrefixValue};
ghost use Rattle.ospf_types.specs.Network.{network_cmp};
ghost use Rattle.active_ranges.specs.Active.{AreRangesOf, AreRangesBehind, AreRangesButAt};
ghost use Rattle.active_ranges.specs.Active.{DiffersAt, HasCost, IsActiveIn, IsMemberWithin};
ghost use Rattle.active_ranges.specs.Active.{spent_ranges};
ghost use Rattle.active_ranges.specs.Following.{AreAlikeBut, AreMembersFollowed, AreNotedOf, AreOfRange};
ghost use Rattle.active_ranges.specs.Following.{AreTakenIn, HasCostBy, HasLeft, IsCostIn};
ghost use Rattle.active_ranges.specs.Following.{IsMemberIn, IsChangeReported, IsTurnedAmong, prefixes_of};
ghost use Rattle.active_ranges.specs.Following.{ranges_in};
ghost use Rattle.active_ranges.specs.Grouped.{member_of};
ghost use Rattle.active_ranges.specs.Lists.{ListsExactly, HasMore, IsGreatestBelow};
ghost use Rattle.active_ranges.specs.Right.{IsRightWith};

use crate::covered_members::named_members;
use crate::member::{AreaRange, RangeMember};
use crate::networks::RangeNetworks;
use crate::within::{costs_within, is_configured};
use intra::Intra;
use ospf_types::config::AreaConfig;
use ospf_types::entry::Entry;
use ospf_types::key::Dest;
use ospf_types::memory::Memory;
use ospf_types::prefix::Prefix;
use route_choice::sorted_unique;
use std::alloc::Global;
use std::collections::BTreeMap;
use std::marker::Model;

/// The active ranges of the areas, each with its networks and the costs of their entries.
pub struct ActiveRanges {
    // A range that lost its last network may stay here, with an empty list. It is not active.
    ranges: BTreeMap<AreaRange, RangeNetworks>,
    spent: bool,
}

// proof: a value is dropped by one call, not part by part at each exit of a function.
impl Drop for ActiveRanges {
    fn drop(self) {
        let ActiveRanges {
            ranges: _ranges,
            spent: _,
        } = self;
    }
}

impl Model for ActiveRanges {
    ghost use Rattle.std.specs.FinMap as map;
    ghost use Rattle.std.specs.Coded.{Coded, codes};
    ghost use Rattle.active_ranges.specs.Active.{ActiveValue, CostsByMember, member_code};
    ghost use Rattle.active_ranges.specs.Grouped.{members_in};

    ghost Value = { ActiveValue };

    ghost coded = { let members : Coded CostsByMember = map.code member_code (Prim.hlevel codes) in Prim.hlevel (codes, members) };

    ghost view = { λ a. record { members = map.from_entries (members_in a.ranges.entries); spent = a.spent } };
}

// The prefix of a range, and true if a range with it was active.
#[derive(Clone, Copy, PartialEq, Eq)]
struct Noted {
    prefix: Prefix,
    active: bool,
}

impl ActiveRanges {
    /// Builds the active ranges of these routes.
    pub fn build(alloc: Global, areas: &[AreaConfig], intra: &Intra) -> Result<ActiveRanges, Memory>
        ensures kept { IfOk result (AreRangesOf areas.now intra.now.entries) }
        ensures right { IfOk result (IsRightWith areas.now intra.now) }
    {
        let mut active = ActiveRanges {
            ranges: BTreeMap::new(alloc),
            spent: false,
        };
        let networks = intra.networks(alloc)?;
        let dests = as_dests(alloc, networks.as_slice())?;
        active.update(alloc, areas, intra, dests.as_slice())?;
        Ok(active)
    }

    /// Updates the members by the routes, which may have changed for the networks in `dests`.
    /// Returns the prefixes of ranges that became active or inactive, in ascending order without
    /// duplicates.
    ///
    /// # Errors
    ///
    /// Returns `Memory` if memory runs out. The ranges are then spent: they are empty, and only
    /// `build` makes others.
    pub fn update(
        &mut self,
        alloc: Global,
        areas: &[AreaConfig],
        intra: &Intra,
        dests: &[Dest],
    ) -> Result<Vec<Prefix>, Memory>
        requires before { AreRangesBehind areas.now dests.now intra.now.entries self.old }
        ensures kept { OnOk result (AreRangesOf areas.now intra.now.entries self.new) }
        ensures right { OnOk result (IsRightWith areas.now intra.now self.new) }
        ensures in_order { IfOk result (λ prefixes. IsStrictlySortedBy network_cmp prefixes.items) }
        ensures exact { IfOk result
            (λ prefixes. ListsExactly (DiffersAt self.old self.new) prefixes.items) }
        ensures spent { OnErr result (self.new ≡ spent_ranges) }
    {
        let prefixes = self.update_parts(alloc, areas, intra, dests);
        if prefixes.is_err() {
            self.spend();
        }
        prefixes
    }

    /// Updates the members of a range that was set or dropped, given by its Area ID and its prefix.
    /// The routes must be the same as before. Returns the networks of the area that the prefix
    /// covers, as members of the range.
    ///
    /// # Errors
    ///
    /// Returns `Memory` if memory runs out. The ranges are then spent: they are empty, and only
    /// `build` makes others.
    pub fn reconfigure(
        &mut self,
        alloc: Global,
        areas: &[AreaConfig],
        intra: &Intra,
        named: (u32, Prefix),
    ) -> Result<Vec<RangeMember>, Memory>
        requires before { AreRangesButAt named areas.now intra.now.entries self.old }
        ensures kept { OnOk result (AreRangesOf areas.now intra.now.entries self.new) }
        ensures right { OnOk result (IsRightWith areas.now intra.now self.new) }
        ensures exact { IfOk result
            (λ members. ListsExactly (IsMemberWithin intra.now.entries named.0 named.1) members.items) }
        ensures spent { OnErr result (self.new ≡ spent_ranges) }
    {
        let members = self.reconfigure_parts(alloc, areas, intra, named);
        if members.is_err() {
            self.spend();
        }
        members
    }

    /// Returns true if an active range of some area has this prefix.
    pub fn contains(&self, prefix: Prefix) -> bool
        ensures { IsTrue result ↔ IsActiveIn self.now prefix }
    {
        // 16.2 (3): a range is active if it has a network with an intra-area path.
        for (range, networks) in self.ranges.range(AreaRange::least_of(prefix)..) {
            if range.prefix != prefix {
                return false;
            }
            if !networks.is_empty() {
                return true;
            }
        }
        false
    }

    /// Returns the greatest cost below `limit` of a network in the area's range with this prefix,
    /// or `None` if there is none.
    pub fn costliest(&self, range: Prefix, area: u32, limit: u32) -> Option<u32>
        ensures { IsGreatestBelow limit (HasCost self.now range area) result }
    {
        let area_range = AreaRange {
            prefix: range,
            area,
        };
        let networks = self.ranges.get(&area_range)?;
        // 12.4.3: a range is advertised at the greatest cost of its networks.
        networks.costliest(limit)
    }

    /// Returns the prefixes of active ranges, in ascending order without duplicates.
    pub fn prefixes(&self, alloc: Global) -> Result<Vec<Prefix>, Memory>
        ensures in_order { IfOk result (λ prefixes. IsStrictlySortedBy network_cmp prefixes.items) }
        ensures exact { IfOk result (λ prefixes. ListsExactly (IsActiveIn self.now) prefixes.items) }
    {
        let mut prefixes = Vec::new(alloc);
        for (range, networks) in self.ranges.iter() {
            push_active(range.prefix, networks, &mut prefixes)?;
        }
        Ok(sorted_unique(prefixes))
    }

    /// Returns true if memory ran out in an update.
    pub fn spent(&self) -> bool
        ensures { result ≡ self.now.spent }
    {
        self.spent
    }
}

impl ActiveRanges {
    // Updates the members by the routes. After an error some members are updated and others are
    // not.
    fn update_parts(
        &mut self,
        alloc: Global,
        areas: &[AreaConfig],
        intra: &Intra,
        dests: &[Dest],
    ) -> Result<Vec<Prefix>, Memory>
        requires before { AreRangesBehind areas.now dests.now intra.now.entries self.old }
        ensures kept { OnOk result (AreRangesOf areas.now intra.now.entries self.new) }
        ensures in_order { IfOk result (λ prefixes. IsStrictlySortedBy network_cmp prefixes.items) }
        ensures exact { IfOk result
            (λ prefixes. ListsExactly (DiffersAt self.old self.new) prefixes.items) }
    {
        let named = named_members(alloc, areas, dests)?;
        let touched = ranges_of(alloc, named.as_slice())?;
        let noted = self.noted(alloc, touched.as_slice())?;
        self.follow(alloc, intra, named.as_slice())?;
        let turned = self.turned(alloc, noted.as_slice())?;
        Ok(turned)
    }

    // Updates the members of the range. After an error some are updated and others may not be.
    fn reconfigure_parts(
        &mut self,
        alloc: Global,
        areas: &[AreaConfig],
        intra: &Intra,
        named: (u32, Prefix),
    ) -> Result<Vec<RangeMember>, Memory>
        requires before { AreRangesButAt named areas.now intra.now.entries self.old }
        ensures kept { OnOk result (AreRangesOf areas.now intra.now.entries self.new) }
        ensures exact { IfOk result
            (λ members. ListsExactly (IsMemberWithin intra.now.entries named.0 named.1) members.items) }
    {
        let (area, range) = named;
        let had = self.members_in(alloc, area, range)?;
        if had.is_empty() {
            return self.reconfigure_by_entries(alloc, areas, intra, named);
        }
        // If the range has members, they are all networks that it can have.
        if !is_configured(areas, area, range) {
            self.leave(area, range);
        }
        Ok(had)
    }

    // Updates the members of the range by the entries of all networks. After an error its members
    // may be updated.
    fn reconfigure_by_entries(
        &mut self,
        alloc: Global,
        areas: &[AreaConfig],
        intra: &Intra,
        named: (u32, Prefix),
    ) -> Result<Vec<RangeMember>, Memory>
        requires before { AreRangesButAt named areas.now intra.now.entries self.old }
        ensures kept { OnOk result (AreRangesOf areas.now intra.now.entries self.new) }
        ensures exact { IfOk result
            (λ members. ListsExactly (IsMemberWithin intra.now.entries named.0 named.1) members.items) }
    {
        let (area, range) = named;
        let costs = costs_within(alloc, intra, area, range)?;
        if is_configured(areas, area, range) {
            self.take_in(alloc, named, costs.as_slice())?;
        } else {
            self.leave(area, range);
        }
        let members = members_of(alloc, costs.as_slice())?;
        Ok(members)
    }

    // Returns the members of the area's range.
    fn members_in(
        &self,
        alloc: Global,
        area: u32,
        range: Prefix,
    ) -> Result<Vec<RangeMember>, Memory>
        ensures { IfOk result (λ members. ListsExactly (IsMemberIn self.now area range) members.items) }
    {
        let area_range = AreaRange {
            prefix: range,
            area,
        };
        match self.ranges.get(&area_range) {
            Some(networks) => networks.as_members(alloc, area_range),
            None => Ok(Vec::new(alloc)),
        }
    }

    // Returns for each prefix if a range with it is active.
    fn noted(&self, alloc: Global, prefixes: &[Prefix]) -> Result<Vec<Noted>, Memory>
        ensures listed { IfOk result (λ noted. prefixes_of noted.items ≡ prefixes.now) }
        ensures exact { IfOk result (λ noted. AreNotedOf self.now noted.items) }
    {
        let mut noted = Vec::new(alloc);
        for prefix in prefixes {
            noted.push(Noted {
                prefix: *prefix,
                active: self.contains(*prefix),
            })?;
        }
        Ok(noted)
    }

    // Returns the prefixes for which this has changed since it was noted.
    fn turned(&self, alloc: Global, noted: &[Noted]) -> Result<Vec<Prefix>, Memory>
        requires { IsStrictlySortedBy network_cmp (prefixes_of noted.now) }
        ensures in_order { IfOk result (λ prefixes. IsStrictlySortedBy network_cmp prefixes.items) }
        ensures exact { IfOk result
            (λ prefixes. ListsExactly (IsTurnedAmong self.now noted.now) prefixes.items) }
    {
        let mut prefixes = Vec::new(alloc);
        for note in noted {
            self.push_turned(*note, &mut prefixes)?;
        }
        Ok(prefixes)
    }

    // Appends the prefix, if this has changed since it was noted.
    fn push_turned(&self, note: Noted, prefixes: &mut Vec<Prefix>) -> Result<(), Memory>
        ensures { OnOk result (IsChangeReported self.now note prefixes.old.items prefixes.new.items) }
    {
        if note.active == self.contains(note.prefix) {
            return Ok(());
        }
        prefixes.push(note.prefix)?;
        Ok(())
    }

    // Sets the members to the costs of their entries.
    fn follow(&mut self, alloc: Global, intra: &Intra, named: &[RangeMember]) -> Result<(), Memory>
        ensures { OnOk result (AreMembersFollowed intra.now.entries named.now self.old self.new) }
    {
        for member in named {
            self.follow_member(alloc, intra, *member)?;
        }
        Ok(())
    }

    // Replaces the members of the area's range.
    fn take_in(
        &mut self,
        alloc: Global,
        named: (u32, Prefix),
        costs: &[(RangeMember, u32)],
    ) -> Result<(), Memory>
        requires within { AreOfRange named.0 named.1 costs.now }
        ensures { OnOk result (AreTakenIn named.0 named.1 costs.now self.old self.new) }
    {
        let (area, prefix) = named;
        let networks = RangeNetworks::of(alloc, costs)?;
        self.ranges.insert(AreaRange { prefix, area }, networks)?;
        Ok(())
    }

    // Removes the members of the area's range.
    fn leave(&mut self, area: u32, range: Prefix)
        ensures { HasLeft area range self.old self.new }
    {
        let range = AreaRange {
            prefix: range,
            area,
        };
        self.ranges.remove(&range);
    }

    // Sets the member to the cost of its network's entry. Removes it if that entry is not one of
    // the member's area.
    fn follow_member(
        &mut self,
        alloc: Global,
        intra: &Intra,
        member: RangeMember,
    ) -> Result<(), Memory>
        ensures spent { OnOk result (self.new.spent ≡ self.old.spent) }
        ensures here { OnOk result (HasCostBy intra.now.entries self.new member) }
        ensures others { OnOk result (AreAlikeBut member self.old self.new) }
    {
        let RangeMember {
            range: prefix,
            area,
            network,
        } = member;
        let cost = cost_in(intra.get(network), area);
        self.put(alloc, AreaRange { prefix, area }, network, cost)
    }

    // Sets the cost of the network in the range, or removes the network if `cost` is `None`.
    fn put(
        &mut self,
        alloc: Global,
        range: AreaRange,
        network: Prefix,
        cost: Option<u32>,
    ) -> Result<(), Memory>
        ensures spent { OnOk result (self.new.spent ≡ self.old.spent) }
        ensures here { OnOk result (map.get self.new.members (member_of range network) ≡ cost) }
        ensures others { OnOk result (AreAlikeBut (member_of range network) self.old self.new) }
    {
        if !self.ranges.contains_key(&range) {
            return self.put_first(alloc, range, network, cost);
        }
        let Some(networks) = self.ranges.get_mut(&range) else {
            unreachable!()
        };
        networks.put(network, cost)
    }

    // Adds the range with its first network, unless `cost` is `None`.
    fn put_first(
        &mut self,
        alloc: Global,
        range: AreaRange,
        network: Prefix,
        cost: Option<u32>,
    ) -> Result<(), Memory>
        requires none { (p : PrefixValue) → map.get self.old.members (member_of range p) ≡ None }
        ensures spent { OnOk result (self.new.spent ≡ self.old.spent) }
        ensures here { OnOk result (map.get self.new.members (member_of range network) ≡ cost) }
        ensures others { OnOk result (AreAlikeBut (member_of range network) self.old self.new) }
    {
        let Some(cost) = cost else {
            return Ok(());
        };
        let mut networks = RangeNetworks::new(alloc);
        networks.put(network, Some(cost))?;
        self.ranges.insert(range, networks)?;
        Ok(())
    }

    fn spend(&mut self)
        ensures { self.new ≡ spent_ranges }
    {
        self.ranges.clear();
        self.spent = true;
    }
}

// Returns the prefixes of the members' ranges, in ascending order without duplicates.
fn ranges_of(alloc: Global, members: &[RangeMember]) -> Result<Vec<Prefix>, Memory>
    ensures in_order { IfOk result (λ prefixes. IsStrictlySortedBy network_cmp prefixes.items) }
    ensures exact { IfOk result
        (λ prefixes. ListsExactly (Contains (ranges_in members.now)) prefixes.items) }
{
    let prefixes = each_range(alloc, members)?;
    Ok(sorted_unique(prefixes))
}

// Returns the prefix of each member's range.
fn each_range(alloc: Global, members: &[RangeMember]) -> Result<Vec<Prefix>, Memory>
    ensures { IfOk result (λ prefixes. prefixes.items ≡ ranges_in members.now) }
{
    let prefixes = members.iter().map(|member| member.range).collect(alloc)?;
    Ok(prefixes)
}

// Returns the members without their costs.
fn members_of(alloc: Global, costs: &[(RangeMember, u32)]) -> Result<Vec<RangeMember>, Memory>
    ensures { IfOk result (λ members. members.items ≡ list_map (λ x. x.0) costs.now) }
{
    let members = costs.iter().map(|pair| pair.0).collect(alloc)?;
    Ok(members)
}

// Returns the networks as destinations.
fn as_dests(alloc: Global, networks: &[Prefix]) -> Result<Vec<Dest>, Memory>
    ensures { IfOk result (λ dests. dests.items ≡ list_map dest_value.Net networks.now) }
{
    let dests = networks
        .iter()
        .map(|network| Dest::Net(*network))
        .collect(alloc)?;
    Ok(dests)
}

/// Returns the cost of the entry, if it is an entry of the area.
pub(crate) fn cost_in(entry: Option<&Entry>, area: u32) -> Option<u32>
    ensures { (cost : ℕ) → (result ≡ Some cost) ↔ IsCostIn (option_copied entry.entry) area cost }
{
    match entry {
        Some(entry) if entry.area == Some(area) => Some(entry.cost),
        _ => None,
    }
}

// Appends the prefix, if the range has a network.
fn push_active(
    prefix: Prefix,
    networks: &RangeNetworks,
    prefixes: &mut Vec<Prefix>,
) -> Result<(), Memory>
    ensures { OnOk result (HasMore
        (λ p. (p ≡ prefix) × (networks.now.entries ≢ [])) prefixes.old.items prefixes.new.items) }
{
    if networks.is_empty() {
        return Ok(());
    }
    prefixes.push(prefix)?;
    Ok(())
}
