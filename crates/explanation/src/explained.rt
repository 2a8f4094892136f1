//! The explanation of the routing table's items for an address (RFC 2328, 11.1 and 16).
ghost use Rattle.std.specs.Prelude.{IfNone, IfOk, IfSome, OnOk, option_copied};
ghost use Rattle.calculation.specs.Calculations.{IsCalculationOf};
ghost use Rattle.event_core.specs.Cores.{IsCurrent, state_of};
ghost use Rattle.explanation.specs.Layers.{AreAreas};
ghost use Rattle.explanation.specs.Networks.{all_offers};
ghost use Rattle.explanation.specs.Outside.{AreForwards, AreMatched, AreTraces, IsMatched};
ghost use Rattle.explanation.specs.Explained.{AddsJudged, AddsNetwork, AreCandidates, AreCandidatesInOrder};
ghost use Rattle.explanation.specs.Explained.{AreNetworks, AreTracesFor, IsExplained};

use crate::all_offers::of_network;
use crate::forward::{Forwarded, Forwards, is_taken};
use crate::judging::{Judged, Rivals};
use crate::layers::Layers;
use crate::networks::NetworkSet;
use crate::offer::{Offer, OfferKind};
use crate::offers::Wanted;
use crate::trace::Trace;
use crate::verdict::Verdict;
use event_core::{Calculated, Core};
use ospf_types::hop::Path;
use ospf_types::key::Scope;
use ospf_types::memory::Memory;
use ospf_types::prefix::Prefix;
use route_layers::{active_areas, area_inputs};
use std::alloc::Global;

/// An offer with its verdict.
#[derive(Debug)]
pub struct Candidate {
    /// The offer.
    pub offer: Offer,
    /// The cost of its paths, or `None` if it has no path. For a type 2 external metric, it is the
    /// cost to the forwarding address or to the AS boundary router.
    pub cost: Option<u32>,
    /// The verdict on the offer.
    pub verdict: Verdict,
    /// A trace for each path that the offer gives to its network's route, if it is taken. Otherwise
    /// the list is empty.
    pub traces: Vec<Trace>,
}

// proof: a value is dropped by one call, not part by part at each exit of a function.
impl Drop for Candidate {
    fn drop(self) {
        let Candidate {
            offer: _,
            cost: _,
            verdict: _,
            traces: _traces,
        } = self;
    }
}

/// Returns all offers for networks that contain the address (in host order), each with its verdict.
/// Returns `None` if the core is behind.
///
/// The candidates are listed network by network, in the table's order. Within a network, the offers
/// of the areas come first, in the order of the configuration, and then those of the
/// AS-external-LSAs. Within a database, they have the order of `Core::lsas`.
///
/// # Errors
///
/// Returns `Memory` if memory runs out.
pub fn explain(alloc: Global, core: &Core, address: u32) -> Result<Option<Vec<Candidate>>, Memory>
    ensures current { IfOk result (λ found. IfSome found (λ _. IsCurrent core.now)) }
    ensures none { IfOk result (λ found. IfNone found (IsCurrent core.now → ⊥)) }
    ensures explained { IfOk result (λ found. IfSome found (λ candidates.
        IsExplained (state_of core.now) address candidates.items)) }
{
    match core.calculated() {
        Some(found) => {
            let candidates = explain_by(alloc, found, address)?;
            Ok(Some(candidates))
        }
        None => Ok(None),
    }
}

// Explains the address by a state and the results calculated from it.
fn explain_by(alloc: Global, found: Calculated<'_>, address: u32) -> Result<Vec<Candidate>, Memory>
    requires { IsCalculationOf found.state.now found.calculation.now }
    ensures { IfOk result (λ candidates.
        IsExplained found.entry.state.now address candidates.items) }
{
    let areas = area_inputs(alloc, found.state, found.calculation.trees())?;
    let active = active_areas(alloc, found.state)?;
    let layers = Layers {
        state: found.state,
        calculation: found.calculation,
        areas: &areas,
        active: active.as_slice(),
    };
    let candidates = layers.explain(alloc, address)?;
    Ok(candidates)
}

impl Layers<'_, '_> {
    // Returns the candidates of all offers.
    fn explain(self, alloc: Global, address: u32) -> Result<Vec<Candidate>, Memory>
        requires { AreAreas self.areas.now }
        ensures right { IfOk result (λ candidates. AreCandidates self.entry
            (all_offers self.entry address) (all_offers self.entry address) candidates.items) }
        ensures in_order { IfOk result (λ candidates.
            AreCandidatesInOrder (all_offers self.entry address) candidates.items) }
    {
        let all = self.all_offers(alloc, Wanted::Around(address))?;
        let forwards = self.forwards(alloc, &all)?;
        let networks = networks_of(alloc, &all)?;
        let mut candidates = Vec::with_capacity(alloc, all.len())?;
        for network in networks.as_slice() {
            self.push_network(*network, &all, &forwards, &mut candidates)?;
        }
        Ok(candidates)
    }

    // Appends the candidates of a network.
    fn push_network(
        self,
        network: Prefix,
        all: &[Offer],
        forwards: &Forwards,
        candidates: &mut Vec<Candidate>,
    ) -> Result<(), Memory>
        requires areas { AreAreas self.areas.now }
        requires forwards { AreForwards self forwards.now.networks forwards.now.items.items }
        requires matched { AreMatched self forwards.now.networks all.now }
        ensures { OnOk result (AddsNetwork self.entry all.now network candidates.old.items
            candidates.new.items) }
    {
        let offers = of_network(*candidates.allocator(), network, all)?;
        let rivals = self.rivals(network, &offers);
        for offer in &offers {
            self.push_candidate(offer, &rivals, forwards, candidates)?;
        }
        Ok(())
    }

    // Appends the candidate of an offer.
    fn push_candidate(
        self,
        offer: &Offer,
        rivals: &Rivals<'_>,
        forwards: &Forwards,
        candidates: &mut Vec<Candidate>,
    ) -> Result<(), Memory>
        requires areas { AreAreas self.areas.now }
        requires forwards { AreForwards self forwards.now.networks forwards.now.items.items }
        requires matched { IsMatched self forwards.now.networks offer.now }
        ensures { OnOk result (AddsJudged self.entry (option_copied rivals.now.internal)
            rivals.now.greatest rivals.now.least offer.now candidates.old.items
            candidates.new.items) }
    {
        let Judged { cost, verdict } = self.judge(offer, rivals);
        let traces = self.traces_if(*candidates.allocator(), verdict, offer, forwards)?;
        candidates.push(Candidate {
            offer: *offer,
            cost,
            verdict,
            traces,
        })?;
        Ok(())
    }

    // Returns the traces of the offer for the paths of its network's route. The list is empty if
    // the offer is not taken.
    fn traces_if(
        self,
        alloc: Global,
        verdict: Verdict,
        offer: &Offer,
        forwards: &Forwards,
    ) -> Result<Vec<Trace>, Memory>
        requires areas { AreAreas self.areas.now }
        requires forwards { AreForwards self forwards.now.networks forwards.now.items.items }
        requires matched { IsMatched self forwards.now.networks offer.now }
        ensures { IfOk result (λ traces. AreTracesFor self.entry offer.now verdict traces.items) }
    {
        if !is_taken(verdict) {
            return Ok(Vec::new(alloc));
        }
        let Some(entry) = self.calculation.entry(offer.network) else {
            return Ok(Vec::new(alloc));
        };
        let traces = self.traces(alloc, offer, forwards, entry.paths.as_slice())?;
        Ok(traces)
    }

    // Returns the traces of the offer for these paths, in their order.
    fn traces(
        self,
        alloc: Global,
        offer: &Offer,
        forwards: &Forwards,
        paths: &[Path],
    ) -> Result<Vec<Trace>, Memory>
        requires areas { AreAreas self.areas.now }
        requires forwards { AreForwards self forwards.now.networks forwards.now.items.items }
        requires matched { IsMatched self forwards.now.networks offer.now }
        ensures { IfOk result (λ traces. AreTraces self.entry offer.now paths.now traces.items) }
    {
        if let OfferKind::AsExternal(_, external) = offer.kind {
            let address = external.forwarding;
            if address == 0 {
                let traces = self.boundary_traces(alloc, offer, paths)?;
                return Ok(traces);
            }
            let forwarded = Forwarded {
                offer,
                address,
                paths,
            };
            let traces = self.forward_traces(alloc, forwards, forwarded)?;
            return Ok(traces);
        }
        match offer.source.scope {
            Scope::Area(area) => {
                let traces = self.traces_within(alloc, area, offer, paths)?;
                Ok(traces)
            }
            Scope::As => Ok(Vec::new(alloc)),
        }
    }
}

// Returns the networks of the offers.
fn networks_of(alloc: Global, offers: &[Offer]) -> Result<NetworkSet, Memory>
    ensures { IfOk result (AreNetworks offers.now) }
{
    let mut networks = Vec::with_capacity(alloc, offers.len())?;
    for offer in offers {
        networks.push(offer.network)?;
    }
    Ok(NetworkSet::of(networks))
}
