//! The address ranges of the areas (RFC 2328, 3.5), looked up by a network or by their prefix.
ghost use Rattle.std.specs.Prelude.{◌↔◌, IfNone, IfSome, IsTrue};
ghost use Rattle.active_ranges.specs.Active.{HasRange};
ghost use Rattle.summaries.specs.Giving.{IsOutsideRanges};
ghost use Rattle.due_explanation.specs.Sources.{HasRangeAround, IsRangeAround, IsRangeOf};

use ospf_types::config::AreaConfig;
use ospf_types::prefix::Prefix;

/// Returns the range that covers the network, of the area with this Area ID, or `None`.
pub(crate) fn range_around(areas: &[AreaConfig], id: u32, network: Prefix) -> Option<Prefix>
    ensures some { IfSome result (IsRangeAround areas.now id network) }
    ensures none { IfNone result (IsOutsideRanges areas.now id network) }
{
    for area in areas {
        if let Some(range) = range_of(area, id, network) {
            return Some(range);
        }
    }
    None
}

// Returns the area's range that covers the network, if the area has this Area ID.
fn range_of(area: &AreaConfig, id: u32, network: Prefix) -> Option<Prefix>
    ensures some { IfSome result (IsRangeOf id network area.now) }
    ensures none { IfNone result (HasRangeAround id network area.now → ⊥) }
{
    if area.id != id {
        return None;
    }
    for range in area.ranges.as_slice() {
        if range.prefix.covers(network) {
            return Some(range.prefix);
        }
    }
    None
}

/// Returns true if the area has a range with the prefix.
pub(crate) fn has_range(area: &AreaConfig, prefix: Prefix) -> bool
    ensures { IsTrue result ↔ HasRange area.now prefix }
{
    for range in area.ranges.as_slice() {
        if range.prefix == prefix {
            return true;
        }
    }
    false
}
