//! The choice of the entry of a network: the best of the offers of all areas (RFC 2328, 16.1 and
//! 16.8).
ghost use Rattle.std.specs.Prelude.{◌≡◌, ◌↔◌, ◌⊎◌, ◌<◌, List, Some, IfOk, OnOk, IfSome, IsTrue};
ghost use Rattle.std.specs.List.Sorted.{IsStrictlySortedBy};
ghost use Rattle.ospf_types.specs.declared.entry.Vertex.TheVariants as vertex_value;
ghost use Rattle.ospf_types.specs.declared.prefix.Prefix.{Prefix as PrefixValue};
ghost use Rattle.ospf_types.specs.Hops.{path_cmp};
ghost use Rattle.ospf_types.specs.Intra.{inside_area as path_inside};
ghost use Rattle.spf.specs.Maps.{most_distance};
ghost use Rattle.intra.specs.declared.area_index.PrefixSource.{PrefixSource as SourceValue};
ghost use Rattle.intra.specs.Inputs.{distance_at, hops_at};
ghost use Rattle.route_choice.specs.Takes.{OnlyOffer};
ghost use Rattle.intra.specs.Intras.{IsEntryFor, entry_at, most_cost};
ghost use Rattle.intra.specs.Choosing.{AmongSources, FindsNearest, FindsNearestWith, IndexOffers};
ghost use Rattle.intra.specs.Choosing.{InterfaceOffers, InterfacesOffer, IsNoFarther, IsOver};
ghost use Rattle.intra.specs.Choosing.{SourcesOffer, StubOffers, TakesPaths, TransitOffers};
ghost use Rattle.intra.specs.Choosing.{router_source};

use crate::area::AreaIntra;
use crate::area_index::PrefixSource;
use crate::entry::IntraEntry;
use crate::inputs::{AreaInputs, IntraInputs};
use ospf_types::config::Interface;
use ospf_types::entry::{Entry, PathType, Paths, Vertex};
use ospf_types::hop::{NextHop, Path};
use ospf_types::memory::Memory;
use ospf_types::prefix::Prefix;
use route_choice::{AreaCost, Best, Choice, Choose, offer_hop, offer_hops};
use std::alloc::Global;
use std::collections::btree_map::Iter;
use vertex_map::HintedVertex;

/// The inputs of a choice, and the state of each of their areas.
#[derive(Drop)]
pub(crate) struct IndexedInputs<'a> {
    pub(crate) inputs: &'a IntraInputs<'a>,
    pub(crate) kept: &'a [AreaIntra],
}

// A network whose entry is chosen, and one of the areas that may offer it.
#[derive(Drop)]
struct AreaNetwork<'a> {
    inputs: &'a IntraInputs<'a>,
    area: &'a AreaInputs<'a>,
    prefix: Prefix,
}

// A transit network that is reached: its Link State ID and its distance.
#[derive(Clone, Copy)]
struct ReachedNetwork {
    id: u32,
    distance: u32,
}

impl<'a> Choose<Prefix, IntraEntry> for IndexedInputs<'a> {
    ghost use Rattle.intra.specs.ChosenAnew.{IsEntryBy};

    ghost IsChosen = { λ by network fresh. IsEntryBy by.inputs.now by.kept.now network fresh };

    fn choose(
        &self,
        alloc: Global,
        key: Prefix,
        standing: Option<&IntraEntry>,
    ) -> Result<Option<IntraEntry>, Memory> {
        choose(alloc, self, key, sources_of(standing))
    }
}

// Returns the index at which the sources of the network were last found, if it has an entry.
fn sources_of(standing: Option<&IntraEntry>) -> usize {
    match standing {
        Some(entry) => entry.sources(),
        None => usize::MAX,
    }
}

// Returns the entry of the network by the indexes of the areas, or `None` if there are no offers.
// Its sources are first looked for at `place`.
fn choose(
    alloc: Global,
    indexed: &IndexedInputs<'_>,
    prefix: Prefix,
    mut place: usize,
) -> Result<Option<IntraEntry>, Memory>
    ensures { IfOk result
        (IsEntryFor (IndexOffers indexed.now.inputs.now indexed.now.kept.now prefix)) }
{
    let mut best = Best::new(alloc);
    offer_areas(&mut best, indexed, prefix, &mut place)?;
    match best.into_choice() {
        Some(choice) => Ok(Some(entry(choice, place))),
        None => Ok(None),
    }
}

// Returns the intra-area entry of a choice. `sources` is the index of its sources.
fn entry(choice: Choice<AreaCost, Path>, sources: usize) -> IntraEntry
    requires { IsStrictlySortedBy path_cmp choice.items }
    ensures { result ≡ entry_at choice.key choice.items }
{
    let (key, paths) = choice.into_parts();
    let entry = Entry {
        kind: PathType::Intra,
        area: Some(key.area()),
        cost: key.cost(),
        cost2: 0,
        paths: Paths::new(paths),
    };
    IntraEntry::new(entry, sources)
}

// Adds the offers of each area for the network.
fn offer_areas(
    best: &mut Best<AreaCost, Path>,
    indexed: &IndexedInputs<'_>,
    prefix: Prefix,
    place: &mut usize,
) -> Result<(), Memory>
    ensures { OnOk result
        (TakesPaths (IndexOffers indexed.now.inputs.now indexed.now.kept.now prefix)
        best.old best.new) }
{
    // 16.8: paths of least cost are combined. At equal costs the area with the greater Area ID
    // wins.
    let inputs = indexed.inputs;
    for (kept, area) in indexed.kept.iter().zip(inputs.areas) {
        let network = AreaNetwork {
            inputs,
            area,
            prefix,
        };
        let sources = kept.index().sources(prefix, place);
        offer_sources(best, &network, sources)?;
    }
    Ok(())
}

// Adds the offers of these sources of an area for the network.
fn offer_sources(
    best: &mut Best<AreaCost, Path>,
    network: &AreaNetwork<'_>,
    sources: &[PrefixSource],
) -> Result<(), Memory>
    ensures { OnOk result
        (TakesPaths (SourcesOffer sources.now network.now.inputs.now network.now.area.now
        network.now.prefix) best.old best.new) }
{
    let mut nearest = None;
    for source in sources {
        nearest = offer_source(best, network, nearest, source)?;
    }
    offer_transit(best, network.area, sources, nearest)
}

// Adds the offers of the source, if it is a stub link. Returns the nearest transit network, with
// this source included.
fn offer_source(
    best: &mut Best<AreaCost, Path>,
    network: &AreaNetwork<'_>,
    nearest: Option<ReachedNetwork>,
    source: &PrefixSource,
) -> Result<Option<ReachedNetwork>, Memory>
    requires { IfSome nearest (λ n. n.distance < most_distance) }
    ensures offered { OnOk result
        (TakesPaths (StubOffers source.now network.now.inputs.now network.now.area.now
        network.now.prefix) best.old best.new) }
    ensures found { IfOk result (FindsNearestWith network.now.area.now source.now nearest) }
    ensures bounded { IfOk result (λ found. IfSome found (λ n. n.distance < most_distance)) }
{
    match source.vertex.vertex() {
        Vertex::Router(router) => {
            offer_stub(best, network, router, source)?;
            Ok(nearest)
        }
        Vertex::Network(_) => Ok(nearest_with(network.area, nearest, source)),
    }
}

// Adds the offers of a stub link of a router.
fn offer_stub(
    best: &mut Best<AreaCost, Path>,
    network: &AreaNetwork<'_>,
    router: u32,
    stub: &PrefixSource,
) -> Result<(), Memory>
    requires { stub.now.vertex ≡ vertex_value.Router router }
    ensures { OnOk result (TakesPaths
        (StubOffers (router_source router stub.now.metric) network.now.inputs.now
        network.now.area.now network.now.prefix) best.old best.new) }
{
    let (inputs, area) = (network.inputs, network.area);
    // 16.1, second stage (1): the distance of the router and the cost of the stub link.
    if router == inputs.root {
        let key = cost_in(area, u32::from(stub.metric));
        return offer_own(best, inputs.interfaces.clone()?, key, network.prefix);
    }
    match distance(area, &stub.vertex) {
        Some(distance) => {
            let key = cost_in(area, distance + u32::from(stub.metric));
            offer_hops(best, key, None, hops(area, &stub.vertex))
        }
        None => Ok(()),
    }
}

// Adds a path over each interface that is up, in the area and in the network, for a stub link of
// the root.
fn offer_own(
    best: &mut Best<AreaCost, Path>,
    interfaces: Iter<'_, u8, Interface>,
    key: AreaCost,
    prefix: Prefix,
) -> Result<(), Memory>
    ensures { OnOk result (TakesPaths (InterfacesOffer interfaces.entry prefix key)
        best.old best.new) }
{
    for (id, interface) in interfaces {
        offer_over(best, (*id, *interface), key, prefix)?;
    }
    Ok(())
}

// Adds a path over the interface, if it is up, in the area and in the network.
fn offer_over(
    best: &mut Best<AreaCost, Path>,
    interface: (u8, Interface),
    key: AreaCost,
    prefix: Prefix,
) -> Result<(), Memory>
    ensures { OnOk result (TakesPaths (InterfaceOffers prefix key interface)
        best.old best.new) }
{
    let (id, interface) = interface;
    if !is_over(key.area(), prefix, interface) {
        return Ok(());
    }
    offer_hop(best, key, None, NextHop::Direct(id))
}

// Returns true if the interface is up, in the area, and in the network by its own address or its
// peer's.
fn is_over(area: u32, prefix: Prefix, interface: Interface) -> bool
    ensures { IsTrue result ↔ IsOver area prefix interface }
{
    interface.area == area
        && interface.up
        && (prefix.contains(interface.address)
            || (interface.peer > 0 && prefix.contains(interface.peer)))
}

// 16.1 (4): if several transit networks have the prefix, only the nearest offers it. At equal
// distances it is the network with the greatest Link State ID.
fn offer_transit(
    best: &mut Best<AreaCost, Path>,
    area: &AreaInputs<'_>,
    sources: &[PrefixSource],
    nearest: Option<ReachedNetwork>,
) -> Result<(), Memory>
    requires { IfSome nearest (λ n. n.distance < most_distance) }
    ensures { (sources : List SourceValue) (p : PrefixValue)
        → FindsNearest (AmongSources sources) area.now p nearest
        → OnOk result (TakesPaths (TransitOffers sources area.now p) best.old best.new) }
{
    match nearest {
        Some(network) => {
            let key = cost_in(area, network.distance);
            offer_hops(
                best,
                key,
                None,
                hops(area, &network_of(sources, network.id)),
            )
        }
        None => Ok(()),
    }
}

// Returns the transit network as a vertex, with the hint of its source.
fn network_of(sources: &[PrefixSource], id: u32) -> HintedVertex
    ensures { result ≡ vertex_value.Network id }
{
    let network = Vertex::Network(id);
    for source in sources {
        if source.vertex.vertex() == network {
            return source.vertex.with_vertex(network);
        }
    }
    HintedVertex::without_hint(network)
}

// Returns the nearest transit network, with this source included.
fn nearest_with(
    area: &AreaInputs<'_>,
    nearest: Option<ReachedNetwork>,
    source: &PrefixSource,
) -> Option<ReachedNetwork>
    requires { IfSome nearest (λ n. n.distance < most_distance) }
    ensures found { FindsNearestWith area.now source.now nearest result }
    ensures bounded { IfSome result (λ n. n.distance < most_distance) }
{
    if source.metric > 0 {
        return nearest;
    }
    let Vertex::Network(id) = source.vertex.vertex() else {
        return nearest;
    };
    match distance(area, &source.vertex) {
        Some(distance) => Some(nearer(nearest, ReachedNetwork { id, distance })),
        None => nearest,
    }
}

// Returns the nearer of two networks. At equal distances it is the network with the greater Link
// State ID.
fn nearer(nearest: Option<ReachedNetwork>, other: ReachedNetwork) -> ReachedNetwork
    ensures one { (result ≡ other) ⊎ (nearest ≡ Some result) }
    ensures other { IsNoFarther result other }
    ensures nearest { IfSome nearest (λ n. IsNoFarther result n) }
{
    match nearest {
        Some(found)
            if found.distance < other.distance
                || (found.distance == other.distance && other.id < found.id) => found,
        _ => other,
    }
}

// Returns the distance of a vertex of the area, or `None` if it is not reached.
fn distance(area: &AreaInputs<'_>, vertex: &HintedVertex) -> Option<u32>
    ensures value { result ≡ distance_at area.now vertex.now }
    ensures bounded { IfSome result (λ distance. distance < most_distance) }
{
    area.tree.distance_at(vertex)
}

// Returns the next hops of a vertex of the area.
fn hops<'a>(area: &AreaInputs<'a>, vertex: &HintedVertex) -> &'a [NextHop]
    ensures { result.now ≡ hops_at area.now vertex.now }
{
    area.tree.hops_at(vertex)
}

// Returns the key of a path at this cost in the area.
fn cost_in(area: &AreaInputs<'_>, cost: u32) -> AreaCost
    requires { cost < most_cost }
    ensures { result ≡ (cost, area.now.id) }
{
    AreaCost::new(cost, area.id)
}
