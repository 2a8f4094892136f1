//! Area address ranges (RFC 2328, 3.5 and C.2): the refusals of a change, and the areas after it.
ghost use Rattle.std.specs.Prelude.{◌≡◌, ◌↔◌, ◌≤◌, false, IfOk, IfSome, IsTrue, is_none, length};
ghost use Rattle.std.specs.Prelude.{position, map as list_map};
ghost use Rattle.std.specs.List.{list_any, insert as list_insert};
ghost use Rattle.ospf_types.specs.RangeChanges.{is_same_prefix, has_range, in_place, in_order};
ghost use Rattle.ospf_types.specs.RangeChanges.{set_range, drop_range, with_ranges};
ghost use Rattle.ospf_types.specs.RangeChanges.{areas_without_ranges};
ghost use Rattle.ospf_types.specs.Configs.{is_cover, is_overlap};
ghost use Rattle.ospf_types.specs.Overlaps.{overlaps_another};
ghost use Rattle.ospf_types.specs.Neighbours.{is_before};
ghost use Rattle.event_state.specs.RangeEvents.{ranges_of, is_one_too_many, set_refusal_of};
ghost use Rattle.event_state.specs.RangeEvents.{drop_refusal_of, changed_ranges, changed_area};
ghost use Rattle.event_state.specs.States.{place_of};

use crate::refusal::Refusal;
use crate::scopes::place_of;
use ospf_types::config::{AreaConfig, Areas, Range, Ranges};
use ospf_types::key::Scope;
use ospf_types::memory::Memory;
use ospf_types::prefix::Prefix;
use std::alloc::Global;
use std::cmp::Ordering;

// The maximum number of ranges of an area.
const MOST_RANGES: usize = 32;

// A change to the ranges of an area.
#[derive(Debug, Drop)]
pub(crate) enum RangeChange {
    // Set the range in place of the one with its prefix, or insert it in order if there is none.
    Set(Range),
    // Remove the range with the prefix.
    Drop(Prefix),
}

// Returns the ranges of the area with this Area ID, or `None` if it is not configured.
pub(crate) fn ranges_of(areas: &[AreaConfig], id: u32) -> Option<&[Range]>
    ensures none { is_none result ≡ is_none (place_of areas.now (Scope.Area id)) }
    ensures some { IfSome result (λ ranges. ranges.now ≡ ranges_of areas.now id) }
{
    let place = place_of(areas, Scope::Area(id))?;
    Some(areas[place].ranges.as_slice())
}

// Returns the reason why the range cannot be set in an area with these ranges.
pub(crate) fn set_refusal(range: &Range, ranges: &[Range]) -> Option<Refusal>
    ensures { result ≡ set_refusal_of range.now ranges.now }
{
    if overlaps_another(range, ranges) {
        Some(Refusal::RangeOverlaps)
    } else if is_one_too_many(range.prefix, ranges) {
        Some(Refusal::RangeFull)
    } else {
        None
    }
}

// Returns the reason why the range with this prefix cannot be dropped.
pub(crate) fn drop_refusal(prefix: Prefix, ranges: &[Range]) -> Option<Refusal>
    ensures { result ≡ drop_refusal_of prefix ranges.now }
{
    if has_range(prefix, ranges) {
        None
    } else {
        Some(Refusal::NoRange)
    }
}

// Returns true if a range with another prefix covers this one, or is covered by it.
fn overlaps_another(range: &Range, ranges: &[Range]) -> bool
    ensures { result ≡ overlaps_another range.now ranges.now }
{
    ranges.iter().any(|other| {
        !is_same_prefix(range.prefix, other.prefix) && is_overlap(range, other)
    })
}

// Returns true if the prefix is new and the area has as many ranges as it may have.
fn is_one_too_many(prefix: Prefix, ranges: &[Range]) -> bool
    ensures { result ≡ is_one_too_many prefix ranges.now }
{
    !has_range(prefix, ranges) && ranges.len() >= MOST_RANGES
}

fn has_range(prefix: Prefix, ranges: &[Range]) -> bool
    ensures { result ≡ has_range prefix ranges.now }
{
    ranges
        .iter()
        .any(|range| is_same_prefix(prefix, range.prefix))
}

fn is_same_prefix(prefix: Prefix, other: Prefix) -> bool
    ensures { result ≡ is_same_prefix prefix other }
{
    prefix.address() == other.address() && prefix.length() == other.length()
}

fn is_overlap(range: &Range, other: &Range) -> bool
    ensures { result ≡ is_overlap range.now other.now }
{
    is_cover(range.prefix, other.prefix) || is_cover(other.prefix, range.prefix)
}

fn is_cover(outer: Prefix, inner: Prefix) -> bool
    ensures { result ≡ is_cover outer inner }
{
    outer.covers(inner)
}

// Returns copies of the areas, with the change made to the area with this Area ID.
pub(crate) fn with_ranges(
    alloc: Global,
    areas: &[AreaConfig],
    id: u32,
    change: &RangeChange,
) -> Result<Areas, Memory>
    ensures { IfOk result (λ new. new ≡ with_ranges areas.now id (changed_ranges change.now)) }
{
    let mut new = Areas::new(alloc);
    for area in areas {
        new.push(changed_area(alloc, area, id, change)?)?;
    }
    Ok(new)
}

fn changed_area(
    alloc: Global,
    area: &AreaConfig,
    id: u32,
    change: &RangeChange,
) -> Result<AreaConfig, Memory>
    ensures { IfOk result (λ new. new ≡ changed_area id (changed_ranges change.now) area.now) }
{
    if area.id != id {
        return area.copy(alloc);
    }
    Ok(AreaConfig {
        id,
        stub: area.stub,
        ranges: changed_ranges(alloc, area.ranges.as_slice(), change)?,
    })
}

fn changed_ranges(alloc: Global, ranges: &[Range], change: &RangeChange) -> Result<Ranges, Memory>
    ensures { IfOk result (λ new. new ≡ changed_ranges change.now ranges.now) }
{
    match change {
        RangeChange::Set(range) => set_range(alloc, ranges, range),
        RangeChange::Drop(prefix) => drop_range(alloc, ranges, *prefix),
    }
}

fn set_range(alloc: Global, ranges: &[Range], range: &Range) -> Result<Ranges, Memory>
    ensures { IfOk result (λ new. new ≡ set_range range.now ranges.now) }
{
    if has_range(range.prefix, ranges) {
        replaced(alloc, ranges, range)
    } else {
        added(alloc, ranges, range)
    }
}

// Returns the ranges, with this one in place of the range with its prefix.
fn replaced(alloc: Global, ranges: &[Range], range: &Range) -> Result<Ranges, Memory>
    ensures { IfOk result (λ new. new ≡ list_map (in_place range.now) ranges.now) }
{
    let mut new = Ranges::new(alloc);
    for other in ranges {
        new.push(in_place(range, other))?;
    }
    Ok(new)
}

fn in_place(range: &Range, other: &Range) -> Range
    ensures { result ≡ in_place range.now other.now }
{
    if is_same_prefix(range.prefix, other.prefix) {
        *range
    } else {
        *other
    }
}

// Returns the ranges with this one inserted before the first greater one, by address and then by
// length.
fn added(alloc: Global, ranges: &[Range], range: &Range) -> Result<Ranges, Memory>
    ensures { IfOk result (λ new. new ≡ in_order range.now ranges.now) }
{
    let mut new = Ranges::from_slice(alloc, ranges)?;
    new.insert(place_of_new(range, ranges), *range)?;
    Ok(new)
}

fn place_of_new(range: &Range, ranges: &[Range]) -> usize
    ensures within { result ≤ length ranges.now }
    ensures in_order { list_insert ranges.now result range.now ≡ in_order range.now ranges.now }
{
    match first_behind(range.prefix, ranges) {
        Some(place) => place,
        None => ranges.len(),
    }
}

fn first_behind(prefix: Prefix, ranges: &[Range]) -> Option<usize>
    ensures { result ≡ position (λ other. is_before prefix other.prefix) ranges.now }
{
    ranges
        .iter()
        .position(|other| is_before(prefix, other.prefix))
}

fn is_before(prefix: Prefix, other: Prefix) -> bool
    ensures { result ≡ is_before prefix other }
{
    prefix.compare(other) == Ordering::Less
}

fn drop_range(alloc: Global, ranges: &[Range], prefix: Prefix) -> Result<Ranges, Memory>
    ensures { IfOk result (λ new. new ≡ drop_range prefix ranges.now) }
{
    let mut new = Ranges::new(alloc);
    for range in ranges {
        if !is_same_prefix(prefix, range.prefix) {
            new.push(*range)?;
        }
    }
    Ok(new)
}

// Returns true if the ranges of an area differ from before.
pub(crate) fn ranges_differ(areas: &[AreaConfig], new: &[AreaConfig]) -> bool
    requires { areas_without_ranges new.now ≡ areas_without_ranges areas.now }
    ensures { (result ≡ false) ↔ (new.now ≡ areas.now) }
{
    for i in 0..areas.len() {
        if !are_same(areas[i].ranges.as_slice(), new[i].ranges.as_slice()) {
            return true;
        }
    }
    false
}

fn are_same(ranges: &[Range], others: &[Range]) -> bool
    ensures { IsTrue result ↔ (ranges.now ≡ others.now) }
{
    ranges == others
}
