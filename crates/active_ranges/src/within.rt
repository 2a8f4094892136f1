//! The networks of an area that a prefix covers, and their costs.
ghost use Rattle.std.specs.Prelude.{◌↔◌, IfOk, OnOk, IsTrue};
ghost use Rattle.active_ranges.specs.Active.{HasRange, IsConfigured};
ghost use Rattle.active_ranges.specs.Following.{AddsWithin, IsCostWithin};
ghost use Rattle.active_ranges.specs.Lists.{ListsExactly};

use crate::active::cost_in;
use crate::member::RangeMember;
use intra::Intra;
use ospf_types::config::AreaConfig;
use ospf_types::entry::Entry;
use ospf_types::memory::Memory;
use ospf_types::prefix::Prefix;
use std::alloc::Global;

/// Returns the networks of the area that the range's prefix covers, as members of the range, each
/// at its cost.
pub(crate) fn costs_within(
    alloc: Global,
    intra: &Intra,
    area: u32,
    range: Prefix,
) -> Result<Vec<(RangeMember, u32)>, Memory>
    ensures { IfOk result
        (λ costs. ListsExactly (IsCostWithin intra.now.entries area range) costs.items) }
{
    let entries = intra.entries();
    let mut costs = Vec::new(alloc);
    for place in 0..entries.len() {
        let Some((network, kept)) = entries.get_index(place) else {
            unreachable!()
        };
        let member = RangeMember {
            range,
            area,
            network: *network,
        };
        push_within(kept.entry(), member, &mut costs)?;
    }
    // Members in order are cheaper to put into a range.
    costs.sort_unstable_by_key(|(member, _)| member.network);
    Ok(costs)
}

// Appends the member at its cost, if its network's entry is of its area and its range covers the
// network.
fn push_within(
    entry: &Entry,
    member: RangeMember,
    costs: &mut Vec<(RangeMember, u32)>,
) -> Result<(), Memory>
    ensures { OnOk result (AddsWithin member entry.now costs.old.items costs.new.items) }
{
    if !member.range.covers(member.network) {
        return Ok(());
    }
    let Some(cost) = cost_in(Some(entry), member.area) else {
        return Ok(());
    };
    costs.push((member, cost))?;
    Ok(())
}

/// Returns true if the area has a range with the prefix.
pub(crate) fn is_configured(areas: &[AreaConfig], id: u32, prefix: Prefix) -> bool
    ensures { IsTrue result ↔ IsConfigured areas.now id prefix }
{
    for area in areas {
        if area.id == id && has_range(area, prefix) {
            return true;
        }
    }
    false
}

// Returns true if a range of the area has the prefix.
fn has_range(area: &AreaConfig, prefix: Prefix) -> bool
    ensures { IsTrue result ↔ HasRange area.now prefix }
{
    for range in area.ranges.as_slice() {
        if range.prefix == prefix {
            return true;
        }
    }
    false
}
