//! The parallel links from a router to another vertex.
ghost use Rattle.std.specs.Prelude.{◌<◌, ◌≢◌, ◌∷◌, [], OnOk, IfOk};
ghost use Rattle.std.specs.List.{AllPairs};
ghost use Rattle.graph_links.specs.Pairs.{AddsRootWays, AddsWays, AreWays};

use crate::link::Up;
use crate::link_end::LinkEnd;
use crate::vertex_pair::RootInterfaces;
use ospf_types::memory::Memory;
use smallvec::SmallVec;
use std::alloc::Global;

/// One of the links of a router to the same vertex. They differ in the metric, and at the root in
/// the interface too.
///
/// Links that nothing distinguishes are one link (RFC 2328, 16.1). Next hops are the same, and a
/// repair makes one offer instead of several.
#[derive(Clone, Copy, Default, PartialEq, Eq, PartialOrd, Ord)]
pub(crate) struct ParallelLink {
    pub(crate) cost: u16,
    pub(crate) interface: Option<u8>,
}

/// Returns the router's parallel links over these of its ends, without duplicates. Up to two take
/// no memory.
///
/// A router may have thousands of ends at one vertex.
pub(crate) fn ways_over(
    alloc: Global,
    local: RootInterfaces<'_>,
    router: u32,
    ends: &[LinkEnd],
) -> Result<SmallVec<ParallelLink, 2>, Memory>
    ensures exact { IfOk result (λ ways. AreWays local.entry router ends.now ways.items) }
    ensures each_once { IfOk result (λ ways. AllPairs (λ v w. v ≢ w) ways.items) }
{
    let mut ways = all_ways(alloc, local, router, ends)?;
    ways.as_mut_slice().sort_unstable();
    ways.dedup();
    Ok(ways)
}

/// Returns the links over each of the ends, which may have duplicates.
fn all_ways(
    alloc: Global,
    local: RootInterfaces<'_>,
    router: u32,
    ends: &[LinkEnd],
) -> Result<SmallVec<ParallelLink, 2>, Memory>
    ensures { IfOk result (λ ways. AreWays local.entry router ends.now ways.items) }
{
    let mut ways = SmallVec::new(alloc);
    for end in ends {
        list_over(local, router, *end, &mut ways)?;
    }
    Ok(ways)
}

/// Appends the router's links over one of its ends, unless the metric is 0. The root has a link for
/// each interface with the address in Link Data, and another router has one link.
fn list_over(
    local: RootInterfaces<'_>,
    router: u32,
    end: LinkEnd,
    ways: &mut SmallVec<ParallelLink, 2>,
) -> Result<(), Memory>
    ensures { OnOk result (AddsWays local.entry router end ways.old.items ways.new.items) }
{
    if end.metric == 0 {
        return Ok(());
    }
    if router == local.root {
        return list_over_interfaces(local.interfaces, router, end, ways);
    }
    ways.push(ParallelLink {
        cost: end.metric,
        interface: None,
    })?;
    Ok(())
}

/// Appends a link of the root for each interface whose address is the end's Link Data.
fn list_over_interfaces(
    interfaces: &[Up],
    root: u32,
    end: LinkEnd,
    ways: &mut SmallVec<ParallelLink, 2>,
) -> Result<(), Memory>
    requires { 0 < end.metric }
    ensures { OnOk result (AddsRootWays root interfaces.now end ways.old.items ways.new.items) }
{
    for up in interfaces {
        list_over_interface(*up, root, end, ways)?;
    }
    Ok(())
}

/// Appends a link of the root if the interface's address is the end's Link Data.
fn list_over_interface(
    up: Up,
    root: u32,
    end: LinkEnd,
    ways: &mut SmallVec<ParallelLink, 2>,
) -> Result<(), Memory>
    requires { 0 < end.metric }
    ensures { OnOk result (AddsRootWays root (up ∷ []) end ways.old.items ways.new.items) }
{
    if up.address != end.detail {
        return Ok(());
    }
    ways.push(ParallelLink {
        cost: end.metric,
        interface: Some(up.id),
    })?;
    Ok(())
}
