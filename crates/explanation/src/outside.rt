//! The traces of the paths that an offer gives, within the AS or to an AS boundary router (RFC
//! 2328, 16.4 (3)).
ghost use Rattle.std.specs.Prelude.{ℕ, ◌↔◌, Contains, IfNone, IfOk, IfSome, IsTrue, OnOk};
ghost use Rattle.explanation.specs.Layers.{AreAreas};
ghost use Rattle.explanation.specs.declared.trace.Step.{Step};
ghost use Rattle.explanation.specs.Giving.{AddsTraces};
ghost use Rattle.explanation.specs.Outside.{AreOutside, AreTracedOutside, AreTracesWithin, GivesTold};
ghost use Rattle.explanation.specs.Outside.{IsBoundaryIn, IsOwnStub, IsToldStep};

use crate::layers::Layers;
use crate::offer::{LsaInstance, Offer, OfferKind};
use crate::trace::{Step, Trace, TraceNode};
use ospf_types::entry::Vertex;
use ospf_types::hop::Path;
use ospf_types::key::{Dest, Key, Scope};
use ospf_types::lsa::{ASBR_SUMMARY_LSA, MAX_AGE};
use ospf_types::memory::Memory;
use std::alloc::Global;

/// An AS-external-LSA, the area of the summary-LSAs that advertise its AS boundary router, and the
/// paths of the route that it should give.
#[derive(Clone, Copy)]
struct ExternalPaths<'a> {
    area: u32,
    offer: &'a Offer,
    paths: &'a [Path],
}

impl Layers<'_, '_> {
    /// Returns a trace for each of the paths that an offer of the area gives.
    pub(crate) fn traces_within(
        self,
        alloc: Global,
        area: u32,
        offer: &Offer,
        paths: &[Path],
    ) -> Result<Vec<Trace>, Memory>
        requires { AreAreas self.areas.now }
        ensures { IfOk result (λ traces. AreTracesWithin self.entry area offer.now paths.now traces.items) }
    {
        if self.is_own_stub(offer) {
            let traces = self.own_traces(alloc, area, offer, paths)?;
            return Ok(traces);
        }
        let traces = self.traces_by(alloc, area, offer, paths)?;
        Ok(traces)
    }

    /// Returns a trace for each of the paths that an AS-external-LSA without a forwarding address
    /// gives.
    pub(crate) fn boundary_traces(
        self,
        alloc: Global,
        offer: &Offer,
        paths: &[Path],
    ) -> Result<Vec<Trace>, Memory>
        requires { AreAreas self.areas.now }
        ensures { IfOk result (λ traces. AreOutside self.entry 0 offer.now paths.now traces.items) }
    {
        match self.boundary_area(offer.source.key.router) {
            Some(area) => {
                let traces = self.traces_by(alloc, area, offer, paths)?;
                Ok(traces)
            }
            None => {
                let traces = self.told_traces(alloc, offer, paths)?;
                Ok(traces)
            }
        }
    }

    // Returns true if the offer is a stub network of the root itself.
    fn is_own_stub(self, offer: &Offer) -> bool
        ensures { IsTrue result ↔ IsOwnStub self.entry offer.now }
    {
        match offer.kind {
            OfferKind::Stub(_) => offer.source.key.router == self.root(),
            OfferKind::Transit | OfferKind::Summary(_) | OfferKind::AsExternal(_, _) => false,
        }
    }

    // Returns the area of the AS boundary router's preferred route, if it is reached in that area.
    fn boundary_area(self, router: u32) -> Option<u32>
        ensures some { IfSome result (IsBoundaryIn self.entry router) }
        ensures none { IfNone result ((area : ℕ) → IsBoundaryIn self.entry router area → ⊥) }
    {
        let preferred = self.calculation.external().preferred(router)?;
        let area = preferred.area();
        let reached = self.reached(area, router)?;
        if !reached.is_asbr() {
            return None;
        }
        Some(area)
    }

    // Returns the step from a border router to the AS boundary router, by the border router's
    // usable type 4 summary-LSA, or `None`.
    fn told_step(self, area: u32, border: u32, router: u32) -> Option<Step>
        requires { AreAreas self.areas.now }
        ensures some { IfSome result (IsToldStep self.entry area border router) }
        ensures none { IfNone result
            ((step : Step) → IsToldStep self.entry area border router step → ⊥) }
    {
        let within = self.area(area)?;
        let (lsa, age) = within.database.get(Key {
            kind: ASBR_SUMMARY_LSA,
            id: router,
            router: border,
        })?;
        if age >= MAX_AGE {
            return None;
        }
        let cost = lsa.metric()?;
        Some(Step {
            from: TraceNode::Vertex(Vertex::Router(border)),
            to: TraceNode::Vertex(Vertex::Router(router)),
            cost,
            source: LsaInstance::of(Scope::Area(area), lsa),
        })
    }
}

impl Layers<'_, '_> {
    // Returns the traces through border routers that advertise the AS boundary router (16.2).
    fn told_traces(self, alloc: Global, offer: &Offer, paths: &[Path]) -> Result<Vec<Trace>, Memory>
        requires { AreAreas self.areas.now }
        ensures { IfOk result (λ traces. AreTracedOutside self.entry offer.now paths.now traces.items) }
    {
        let mut traces = Vec::new(alloc);
        let Some(entry) = self
            .calculation
            .inter()
            .get(Dest::Router(offer.source.key.router))
        else {
            return Ok(traces);
        };
        let Some(area) = entry.area else {
            return Ok(traces);
        };
        let told = ExternalPaths { area, offer, paths };
        for within in entry.paths.as_slice() {
            self.push_told(told, within, &mut traces)?;
        }
        Ok(traces)
    }

    // Appends a trace through the border router that advertised `within`, if the route has such a
    // path.
    fn push_told(
        self,
        told: ExternalPaths<'_>,
        within: &Path,
        traces: &mut Vec<Trace>,
    ) -> Result<(), Memory>
        requires { AreAreas self.areas.now }
        ensures { OnOk result (AddsTraces (GivesTold self.entry told.entry.area told.entry.offer.now
            told.entry.paths.now within.now) traces.old.items traces.new.items) }
    {
        let ExternalPaths { area, offer, paths } = told;
        let alloc = *traces.allocator();
        let path = Path {
            hop: within.hop,
            advertiser: Some(offer.source.key.router),
        };
        let Some(border) = within.advertiser else {
            return Ok(());
        };
        let Some(step) = self.told_step(area, border, offer.source.key.router) else {
            return Ok(());
        };
        if !has_path(paths, path) {
            return Ok(());
        }
        let mut steps = self.steps_to(alloc, area, Vertex::Router(border), path.hop)?;
        steps.push(step)?;
        steps.push(offer.last_step(TraceNode::Vertex(offer.vertex())))?;
        traces.push(Trace { path, steps })?;
        Ok(())
    }
}

/// Returns true if the path is one of the paths.
pub(crate) fn has_path(paths: &[Path], path: Path) -> bool
    ensures { IsTrue result ↔ Contains paths.now path }
{
    paths.contains(&path)
}
