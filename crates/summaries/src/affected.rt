//! The destinations whose due summaries may change.
ghost use Rattle.std.specs.Prelude.{◌↔◌, Contains, IsFalse, IsTrue, IfOk, OnOk};
ghost use Rattle.std.specs.List.Sorted.{IsStrictlySortedBy};
ghost use Rattle.ospf_types.specs.declared.key.Dest.{Dest as DestValue};
ghost use Rattle.ospf_types.specs.Keys.{dest_cmp};
ghost use Rattle.route_choice.specs.Lists.{GainsAll, HasAll, ListsExactly};
ghost use Rattle.summaries.specs.Changes.{HasAllDue};
ghost use Rattle.summaries.specs.Touched.{IsTouchedBy, IsOverNetworks, IsOverIn, IsNetIn};

use crate::giving::default_network;
use crate::inputs::SummaryInputs;
use ospf_types::config::AreaConfig;
use ospf_types::key::Dest;
use ospf_types::memory::Memory;
use ospf_types::prefix::Prefix;
use route_choice::{add_networks, add_routers};
use std::alloc::Global;

/// Returns the destinations, and the prefixes of ranges that cover a network among them, in
/// ascending order without duplicates.
pub(crate) fn affected(
    alloc: Global,
    areas: &[AreaConfig],
    dests: &[Dest],
) -> Result<Vec<Dest>, Memory>
    ensures in_order { IfOk result (λ found. IsStrictlySortedBy dest_cmp found.items) }
    ensures enough { IfOk result (λ found. HasAll (IsTouchedBy areas.now dests.now) found.items) }
{
    let mut found = Vec::from_slice(alloc, dests)?;
    for area in areas {
        push_ranges_of(area, dests, &mut found)?;
    }
    sorted_unique(found)
}

/// Returns the destinations in ascending order without duplicates. This is cheap if they are in
/// order already.
pub(crate) fn sorted_unique(mut dests: Vec<Dest>) -> Result<Vec<Dest>, Memory>
    ensures in_order { IfOk result (λ found. IsStrictlySortedBy dest_cmp found.items) }
    ensures same { IfOk result (λ found. ListsExactly (Contains dests.items) found.items) }
{
    dests.sort()?;
    dests.dedup();
    Ok(dests)
}

// Appends the prefixes of the area's ranges that cover one of the networks.
fn push_ranges_of(area: &AreaConfig, dests: &[Dest], found: &mut Vec<Dest>) -> Result<(), Memory>
    ensures { OnOk result
        (GainsAll (IsOverIn area.now.ranges dests.now) found.old.items found.new.items) }
{
    for range in area.ranges.as_slice() {
        push_range(range.prefix, dests, found)?;
    }
    Ok(())
}

// Appends the prefix, if it covers one of the networks.
fn push_range(prefix: Prefix, dests: &[Dest], found: &mut Vec<Dest>) -> Result<(), Memory>
    ensures { OnOk result (GainsAll (IsOverNetworks dests.now prefix) found.old.items found.new.items) }
{
    if !covers_one(prefix, dests) {
        return Ok(());
    }
    found.push(Dest::Net(prefix))?;
    Ok(())
}

// Returns true if the prefix covers one of the networks.
fn covers_one(prefix: Prefix, dests: &[Dest]) -> bool
    ensures { IsFalse result → (d : DestValue) → Contains dests.now d → IsNetIn prefix d → ⊥ }
{
    for dest in dests {
        if is_covered(prefix, dest) {
            return true;
        }
    }
    false
}

// Returns true if the destination is a network that the prefix covers.
fn is_covered(prefix: Prefix, dest: &Dest) -> bool
    ensures { IsTrue result ↔ IsNetIn prefix dest.now }
{
    match *dest {
        Dest::Net(network) => prefix.covers(network),
        Dest::Router(_) => false,
    }
}

/// Returns each destination that may be due in an area. Some of them may be due in no area.
pub(crate) fn all(alloc: Global, inputs: &SummaryInputs<'_>) -> Result<Vec<Dest>, Memory>
    ensures { IfOk result (λ dests. HasAllDue inputs.now dests.items) }
{
    let mut dests = inputs.inter.dests(alloc)?;
    add_networks(&inputs.intra.networks(alloc)?, &mut dests)?;
    add_networks(&inputs.ranges.prefixes(alloc)?, &mut dests)?;
    add_routers(&inputs.external.routers(alloc)?, &mut dests)?;
    dests.push(Dest::Net(default_network()))?;
    Ok(dests)
}
