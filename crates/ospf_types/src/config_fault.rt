//! The check of a configuration (RFC 2328, 3.5, 3.6 and C.2).
ghost use Rattle.std.specs.Prelude.{◌≡◌, ◌==◌, true, length, nat_lt, All};
ghost use Rattle.std.specs.List.{list_any};
ghost use Rattle.ospf_types.specs.Configs.{config_fault_of, has_alike, has_wrong_areas};
ghost use Rattle.ospf_types.specs.Configs.{has_overlap, is_overlap, is_cover, is_stub_backbone};
ghost use Rattle.ospf_types.specs.Configs.{is_costly};
ghost use Rattle.ospf_types.specs.Neighbours.{IsMasked, is_ascending, is_before_first};
ghost use Rattle.ospf_types.specs.Neighbours.{has_next_overlap, overlaps_first};

use crate::address::BACKBONE;
use crate::config::{AreaConfig, Config, Range, Stub};
use crate::fault::ConfigFault;
use crate::lsa::LS_INFINITY;
use crate::prefix::Prefix;

/// The most areas that a configuration may have.
pub const MAX_AREAS: usize = 16;

// The most ranges that an area may have.
const MOST_RANGES: usize = 32;

/// Returns the first fault of the configuration, in the order of `ConfigFault`, or `None` if it has
/// no fault. The fault is never `Memory`.
///
/// A core is not opened for a configuration with a fault, and no recording has one.
pub fn fault_in(config: &Config) -> Option<ConfigFault>
    ensures { result ≡ config_fault_of config.now }
{
    let areas = config.areas.as_slice();
    if has_wrong_areas(areas) {
        Some(ConfigFault::Areas)
    } else if any_overlap(areas) {
        Some(ConfigFault::RangesOverlap)
    } else if any_stub_backbone(areas) {
        Some(ConfigFault::BackboneStub)
    } else if any_costly(areas) {
        Some(ConfigFault::Cost)
    } else if any_crowded(areas) {
        Some(ConfigFault::RangeCount)
    } else {
        None
    }
}

fn has_wrong_areas(areas: &[AreaConfig]) -> bool
    ensures { result ≡ has_wrong_areas areas.now }
{
    areas.is_empty() || areas.len() > MAX_AREAS || has_alike(areas)
}

// Returns true if two areas have the same Area ID.
fn has_alike(areas: &[AreaConfig]) -> bool
    ensures { result ≡ has_alike areas.now }
{
    for i in 0..areas.len() {
        if any_with_id(&areas[i + 1..], areas[i].id) {
            return true;
        }
    }
    false
}

fn any_with_id(areas: &[AreaConfig], id: u32) -> bool
    ensures { result ≡ list_any (λ a. a.id == id) areas.now }
{
    areas.iter().any(|area| area.id == id)
}

// Returns true if two ranges of the same area overlap.
fn any_overlap(areas: &[AreaConfig]) -> bool
    ensures { result ≡ list_any (λ a. has_overlap a.ranges) areas.now }
{
    areas.iter().any(|area| has_overlap(area.ranges.as_slice()))
}

fn has_overlap(ranges: &[Range]) -> bool
    ensures { result ≡ has_overlap ranges.now }
{
    if is_ascending(ranges) {
        has_next_overlap(ranges)
    } else {
        any_pair_overlaps(ranges)
    }
}

// Returns true if the ranges are in strictly ascending order of their prefixes.
fn is_ascending(ranges: &[Range]) -> bool
    ensures value { result ≡ is_ascending ranges.now }
    ensures masked { result ≡ true → All (λ range. IsMasked range.prefix) ranges.now }
{
    for i in 0..ranges.len() {
        if !is_before_first(ranges[i], &ranges[i + 1..]) {
            return false;
        }
    }
    true
}

fn is_before_first(range: Range, ranges: &[Range]) -> bool
    ensures value { result ≡ is_before_first range ranges.now }
    ensures masked { IsMasked range.prefix }
{
    let address = range.prefix.address();
    match ranges.first() {
        None => true,
        Some(next) => {
            let other = next.prefix.address();
            address < other || address == other && range.prefix.length() < next.prefix.length()
        }
    }
}

// Returns true if a range overlaps the next one. If ranges ascend, a range that covers any later
// one also covers the next one.
fn has_next_overlap(ranges: &[Range]) -> bool
    ensures { result ≡ has_next_overlap ranges.now }
{
    for i in 0..ranges.len() {
        if overlaps_first(ranges[i], &ranges[i + 1..]) {
            return true;
        }
    }
    false
}

fn overlaps_first(range: Range, ranges: &[Range]) -> bool
    ensures { result ≡ overlaps_first range ranges.now }
{
    match ranges.first() {
        None => false,
        Some(next) => is_overlap(range, *next),
    }
}

fn any_pair_overlaps(ranges: &[Range]) -> bool
    ensures { result ≡ has_overlap ranges.now }
{
    for i in 0..ranges.len() {
        if overlaps_any(ranges[i], &ranges[i + 1..]) {
            return true;
        }
    }
    false
}

fn overlaps_any(range: Range, ranges: &[Range]) -> bool
    ensures { result ≡ list_any (is_overlap range) ranges.now }
{
    ranges.iter().any(|other| is_overlap(range, *other))
}

fn is_overlap(a: Range, b: Range) -> bool
    ensures { result ≡ is_overlap a b }
{
    is_cover(a.prefix, b.prefix) || is_cover(b.prefix, a.prefix)
}

fn is_cover(outer: Prefix, inner: Prefix) -> bool
    ensures { result ≡ is_cover outer inner }
{
    outer.covers(inner)
}

fn any_stub_backbone(areas: &[AreaConfig]) -> bool
    ensures { result ≡ list_any is_stub_backbone areas.now }
{
    areas.iter().any(is_stub_backbone)
}

fn is_stub_backbone(area: &AreaConfig) -> bool
    ensures { result ≡ is_stub_backbone area.now }
{
    area.id == BACKBONE && area.stub.is_some()
}

fn any_costly(areas: &[AreaConfig]) -> bool
    ensures { result ≡ list_any (λ a. is_costly a.stub) areas.now }
{
    areas.iter().any(|area| is_costly(area.stub))
}

fn is_costly(stub: Option<Stub>) -> bool
    ensures { result ≡ is_costly stub }
{
    match stub {
        None => false,
        Some(stub) => stub.cost >= LS_INFINITY,
    }
}

// Returns true if an area has more ranges than it may.
fn any_crowded(areas: &[AreaConfig]) -> bool
    ensures { result ≡ list_any (λ a. nat_lt 32 (length a.ranges)) areas.now }
{
    areas
        .iter()
        .any(|area| area.ranges.as_slice().len() > MOST_RANGES)
}
