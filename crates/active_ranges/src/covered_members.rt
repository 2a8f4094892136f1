//! The possible members of ranges among given networks.
ghost use Rattle.std.specs.Prelude.{IfOk, OnOk};
ghost use Rattle.active_ranges.specs.Following.{IsNamed, IsNamedAs, IsNamedIn, IsNamedOf};
ghost use Rattle.active_ranges.specs.Lists.{ListsExactly, HasMore};

use crate::member::{AreaRange, RangeMember};
use ospf_types::config::AreaConfig;
use ospf_types::key::Dest;
use ospf_types::memory::Memory;
use ospf_types::prefix::Prefix;
use std::alloc::Global;

/// Returns each given network with each range that covers it, in each area. The members of one
/// range are adjacent.
pub(crate) fn named_members(
    alloc: Global,
    areas: &[AreaConfig],
    dests: &[Dest],
) -> Result<Vec<RangeMember>, Memory>
    ensures { IfOk result (λ members. ListsExactly (IsNamed areas.now dests.now) members.items) }
{
    let mut members = Vec::new(alloc);
    for area in areas {
        push_named(area, dests, &mut members)?;
    }
    Ok(members)
}

// Appends the members of one area's ranges.
fn push_named(
    area: &AreaConfig,
    dests: &[Dest],
    members: &mut Vec<RangeMember>,
) -> Result<(), Memory>
    ensures { OnOk result
        (HasMore (IsNamedIn area.now dests.now) members.old.items members.new.items) }
{
    for range in area.ranges.as_slice() {
        let area_range = AreaRange {
            prefix: range.prefix,
            area: area.id,
        };
        push_covering(&area_range, dests, members)?;
    }
    Ok(())
}

// Appends the members of one range.
fn push_covering(
    range: &AreaRange,
    dests: &[Dest],
    members: &mut Vec<RangeMember>,
) -> Result<(), Memory>
    ensures { OnOk result
        (HasMore (IsNamedOf range.now dests.now) members.old.items members.new.items) }
{
    for dest in dests {
        push_covered(range, *dest, members)?;
    }
    Ok(())
}

// Appends the destination as a member of the range, if it is a network that the range covers.
fn push_covered(range: &AreaRange, dest: Dest, members: &mut Vec<RangeMember>) -> Result<(), Memory>
    ensures { OnOk result (HasMore (IsNamedAs range.now dest) members.old.items members.new.items) }
{
    let Dest::Net(network) = dest else {
        return Ok(());
    };
    if !range.prefix.covers(network) {
        return Ok(());
    }
    members.push(RangeMember {
        range: range.prefix,
        area: range.area,
        network,
    })?;
    Ok(())
}
