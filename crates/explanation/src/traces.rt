//! The traces of the paths that an offer gives to a route (RFC 2328, 16.1.1 and 16.2).
ghost use Rattle.std.specs.Prelude.{◌≡◌, ◌≢◌, [], ◌∷◌, IfNone, IfOk, IfSome, None, OnOk, All};
ghost use Rattle.std.specs.Prelude.{Contains};
ghost use Rattle.area_trees.specs.LeastPaths.{links_at};
ghost use Rattle.vertex_graph.specs.Graphs.{LinksOf};
ghost use Rattle.area_trees.specs.Areas.{IsStanding};
ghost use Rattle.intra.specs.Inputs.{HasTree};
ghost use Rattle.explanation.specs.Layers.{AreAreas};
ghost use Rattle.explanation.specs.Giving.{AddsTraces};
ghost use Rattle.explanation.specs.Traces.{AreLinksIn, AreLinkSteps, AreSteps, AreTracesBy};
ghost use Rattle.explanation.specs.Traces.{AreTracesTo, GivesTo, IsStepAdded, IsSourceAt};
ghost use Rattle.explanation.specs.Traces.{advertiser_by, last_from, metric_by, vertex_by};

use crate::layers::Layers;
use crate::offer::{LsaInstance, Offer, OfferKind};
use crate::trace::{Step, Trace, TraceNode};
use intra::AreaInputs;
use ospf_types::entry::Vertex;
use ospf_types::hop::{NextHop, Path};
use ospf_types::key::Scope;
use ospf_types::memory::Memory;
use std::alloc::Global;
use vertex_graph::GraphLink;

/// The end of traces: a vertex of an area, and the steps from there on.
#[derive(Clone, Copy)]
pub(crate) struct Target<'a> {
    /// The Area ID.
    pub(crate) area: u32,
    pub(crate) vertex: Vertex,
    /// The advertiser of the paths, if they have one.
    pub(crate) advertiser: Option<u32>,
    /// The steps after the vertex.
    pub(crate) on: &'a [Step],
}

impl Layers<'_, '_> {
    /// Returns a trace for each of the paths whose next hop the target's vertex has, in their
    /// order.
    pub(crate) fn traces_to(
        self,
        alloc: Global,
        target: Target<'_>,
        paths: &[Path],
    ) -> Result<Vec<Trace>, Memory>
        requires { AreAreas self.areas.now }
        ensures { IfOk result (λ traces. AreTracesTo self.entry.areas.now target.entry.area
            target.entry.vertex target.entry.advertiser target.entry.on.now paths.now traces.items) }
    {
        let mut traces = Vec::new(alloc);
        for path in paths {
            self.push_trace(alloc, target, path, &mut traces)?;
        }
        Ok(traces)
    }

    /// Returns a trace for each of the paths that an offer gives over its vertex in the area, in
    /// their order.
    pub(crate) fn traces_by(
        self,
        alloc: Global,
        area: u32,
        offer: &Offer,
        paths: &[Path],
    ) -> Result<Vec<Trace>, Memory>
        requires { AreAreas self.areas.now }
        ensures { IfOk result (λ traces.
            AreTracesBy self.entry.areas.now area offer.now paths.now traces.items) }
    {
        let vertex = offer.vertex();
        let on = [offer.last_step(TraceNode::Vertex(vertex))];
        let target = Target {
            area,
            vertex,
            advertiser: offer.advertiser(),
            on: &on,
        };
        self.traces_to(alloc, target, paths)
    }

    // Appends a trace for the path, if it has the target's advertiser and the vertex has its next
    // hop.
    fn push_trace(
        self,
        alloc: Global,
        target: Target<'_>,
        path: &Path,
        traces: &mut Vec<Trace>,
    ) -> Result<(), Memory>
        requires { AreAreas self.areas.now }
        ensures { OnOk result (AddsTraces (GivesTo self.entry.areas.now target.entry.area
            target.entry.vertex target.entry.advertiser target.entry.on.now path.now)
            traces.old.items traces.new.items) }
    {
        if path.advertiser != target.advertiser {
            return Ok(());
        }
        let mut steps = self.steps_to(alloc, target.area, target.vertex, path.hop)?;
        if steps.is_empty() {
            return Ok(());
        }
        steps.extend_from_slice(target.on)?;
        traces.push(Trace { path: *path, steps })?;
        Ok(())
    }

    /// Returns the links of a shortest path to the vertex by which it has this next hop, as steps.
    /// The list is empty if the vertex does not have the next hop.
    pub(crate) fn steps_to(
        self,
        alloc: Global,
        area: u32,
        vertex: Vertex,
        hop: NextHop,
    ) -> Result<Vec<Step>, Memory>
        requires { AreAreas self.areas.now }
        ensures { IfOk result (λ steps.
            AreSteps self.entry.areas.now area vertex hop steps.items) }
    {
        match self.area(area) {
            Some(area) => {
                let links = area.tree.links_of_path(alloc, vertex, hop)?;
                let steps = link_steps(alloc, area, &links)?;
                Ok(steps)
            }
            None => Ok(Vec::new(alloc)),
        }
    }
}

// Returns the links as steps.
fn link_steps(
    alloc: Global,
    area: &AreaInputs<'_>,
    links: &[&GraphLink],
) -> Result<Vec<Step>, Memory>
    requires tree { HasTree area.now }
    requires links { AreLinksIn area.now links.now }
    ensures { IfOk result (λ steps. AreLinkSteps area.now (links_at links.now) steps.items) }
{
    let mut steps = Vec::with_capacity(alloc, links.len())?;
    for link in links {
        push_link(area, link, &mut steps)?;
    }
    Ok(steps)
}

// Appends the link as a step. Its source is the LSA that describes the tail of the link.
fn push_link(area: &AreaInputs<'_>, link: &GraphLink, steps: &mut Vec<Step>) -> Result<(), Memory>
    requires tree { HasTree area.now }
    requires link { LinksOf area.now.tree.area.graph link.now.from link.now.to link.now.cost link.now.label }
    ensures { OnOk result (IsStepAdded area.now link.now steps.old.items steps.new.items) }
{
    let from = link.from.vertex();
    let Some(source) = source_at(area, from) else {
        unreachable!()
    };
    steps.push(Step {
        from: TraceNode::Vertex(from),
        to: TraceNode::Vertex(link.to.vertex()),
        cost: u32::from(link.cost),
        source,
    })?;
    Ok(())
}

// Returns the instance that describes the vertex in the area, or `None`.
fn source_at(area: &AreaInputs<'_>, vertex: Vertex) -> Option<LsaInstance>
    requires { HasTree area.now }
    ensures some { IfSome result (IsSourceAt area.now vertex) }
    ensures none { IfNone result (IsStanding area.now.lsas vertex None) }
{
    let lsa = area.tree.lsa_for_vertex(area.database, vertex)?;
    let (lsa, _) = area.database.get(lsa.key())?;
    Some(LsaInstance::of(Scope::Area(area.id), lsa))
}

impl Offer {
    /// Returns the vertex that the offer leads over.
    pub(crate) fn vertex(&self) -> Vertex
        ensures { result ≡ vertex_by self.now.kind self.now.source.key }
    {
        let key = self.source.key;
        match self.kind {
            OfferKind::Transit => Vertex::Network(key.id),
            OfferKind::Stub(_) | OfferKind::Summary(_) | OfferKind::AsExternal(_, _) => {
                Vertex::Router(key.router)
            }
        }
    }

    /// Returns the advertiser of the offer's paths, or `None` if they have none.
    pub(crate) fn advertiser(&self) -> Option<u32>
        ensures { result ≡ advertiser_by self.now.kind self.now.source.key }
    {
        match self.kind {
            OfferKind::Stub(_) | OfferKind::Transit => None,
            OfferKind::Summary(_) | OfferKind::AsExternal(_, _) => Some(self.source.key.router),
        }
    }

    fn metric(&self) -> u32
        ensures { result ≡ metric_by self.now.kind }
    {
        match self.kind {
            OfferKind::Stub(metric) => u32::from(metric),
            OfferKind::Transit => 0,
            OfferKind::Summary(metric) => metric,
            OfferKind::AsExternal(metric, _) => metric,
        }
    }

    /// Returns the last step of the offer's traces, from `from` to the network.
    pub(crate) fn last_step(&self, from: TraceNode) -> Step
        ensures { result ≡ last_from from self.now }
    {
        Step {
            from,
            to: TraceNode::Network(self.network),
            cost: self.metric(),
            source: self.source,
        }
    }
}
