//! The traces of the paths that an AS-external-LSA gives through its forwarding address (RFC 2328,
//! 16.4 (3)).
ghost use Rattle.std.specs.Prelude.{◌≡◌, ◌↔◌, Contains, IfOk, IsTrue, OnOk};
ghost use Rattle.explanation.specs.Giving.{AddsTraces};
ghost use Rattle.explanation.specs.Groups.{AreGroups, offers_for};
ghost use Rattle.explanation.specs.Layers.{AreAreas};
ghost use Rattle.explanation.specs.Networks.{all_offers, all_wanted};
ghost use Rattle.explanation.specs.Offers.{is_one_of};
ghost use Rattle.explanation.specs.Outside.{AddsForward, AreAllOf, AreForwarded, AreForwards};
ghost use Rattle.explanation.specs.Outside.{AreMatched, AreNetworkTraces, GivesOnward, GivesRoute};
ghost use Rattle.explanation.specs.Outside.{HasTraces, IsMatchedAt, match_at, match_by};
ghost use Rattle.explanation.specs.Outside.{networks_of};

use crate::grouping::{Group, grouped};
use crate::layers::Layers;
use crate::networks::NetworkSet;
use crate::offer::{Offer, OfferKind};
use crate::offers::Wanted;
use crate::outside::has_path;
use crate::trace::{Trace, TraceNode};
use crate::verdict::Verdict;
use ospf_types::hop::Path;
use ospf_types::key::Scope;
use ospf_types::memory::Memory;
use ospf_types::prefix::Prefix;
use std::alloc::Global;

/// The longest match of forwarding addresses, with the traces to it.
pub(crate) struct TracedMatch {
    pub(crate) network: Prefix,
    pub(crate) traces: Vec<Trace>,
}

// proof: a value is dropped by one call, not part by part at each exit of a function.
impl Drop for TracedMatch {
    fn drop(self) {
        let TracedMatch {
            network: _,
            traces: _traces,
        } = self;
    }
}

/// The longest matches of the forwarding addresses of several offers, with the traces to each.
pub(crate) struct Forwards {
    pub(crate) networks: NetworkSet,
    /// An item for each of the networks, in their order.
    pub(crate) items: Vec<TracedMatch>,
}

// proof: a value is dropped by one call, not part by part at each exit of a function.
impl Drop for Forwards {
    fn drop(self) {
        let Forwards {
            networks: _networks,
            items: _items,
        } = self;
    }
}

impl Forwards {
    // Returns the traces to the network. It must be one of `networks`.
    fn traces_to(&self, network: Prefix) -> &[Trace]
        requires listed { networks_of self.now.items.items ≡ self.now.networks }
        requires among { Contains self.now.networks network }
        ensures { HasTraces self.now.items.items network result.now }
    {
        let Some(place) = self.networks.place(network) else {
            unreachable!()
        };
        self.items[place].traces.as_slice()
    }
}

/// An AS-external-LSA with a forwarding address (in host order), and the paths of the route that it
/// should give.
#[derive(Clone, Copy)]
pub(crate) struct Forwarded<'a> {
    pub(crate) offer: &'a Offer,
    pub(crate) address: u32,
    pub(crate) paths: &'a [Path],
}

impl Layers<'_, '_> {
    /// Returns the longest matches of the forwarding addresses of the offers, with the traces to
    /// each. All LSAs are read only once.
    pub(crate) fn forwards(self, alloc: Global, offers: &[Offer]) -> Result<Forwards, Memory>
        requires { AreAreas self.areas.now }
        ensures right { IfOk result (λ f. AreForwards self.entry f.networks f.items.items) }
        ensures matched { IfOk result (λ f. AreMatched self.entry f.networks offers.now) }
    {
        let networks = self.matched_networks(alloc, offers)?;
        let groups = self.groups_of(alloc, &networks)?;
        let mut items = Vec::with_capacity(alloc, groups.len())?;
        for group in &groups {
            self.push_forward(group, &mut items)?;
        }
        Ok(Forwards { networks, items })
    }

    // Returns the longest matches of the forwarding addresses of the offers.
    fn matched_networks(self, alloc: Global, offers: &[Offer]) -> Result<NetworkSet, Memory>
        ensures { IfOk result (λ networks. AreMatched self.entry networks offers.now) }
    {
        let mut networks = Vec::new(alloc);
        for offer in offers {
            if let Some(network) = self.matched_by(offer.kind) {
                networks.push(network)?;
            }
        }
        Ok(NetworkSet::of(networks))
    }

    // Returns the longest match of the offer's forwarding address.
    fn matched_by(self, kind: OfferKind) -> Option<Prefix>
        ensures { result ≡ match_by self.entry kind }
    {
        match kind {
            OfferKind::AsExternal(_, external) => self.matched(external.forwarding),
            OfferKind::Stub(_) | OfferKind::Transit | OfferKind::Summary(_) => None,
        }
    }

    // Returns the network that is the longest match of the address, or `None`.
    fn matched(self, address: u32) -> Option<Prefix>
        ensures { result ≡ match_at self.entry address }
    {
        match self.calculation.external().forwarding_match(address) {
            Some(forward) => forward.matched(),
            None => None,
        }
    }

    // Returns the offers of all LSAs for the networks, network by network.
    fn groups_of(self, alloc: Global, networks: &NetworkSet) -> Result<Vec<Group>, Memory>
        ensures { IfOk result (λ groups. AreGroups networks.now
            (all_wanted (is_one_of networks.now) self.entry) groups.items) }
    {
        if networks.as_slice().is_empty() {
            return Ok(Vec::new(alloc));
        }
        let all = self.all_offers(alloc, Wanted::Among(networks))?;
        let groups = grouped(alloc, networks, &all)?;
        Ok(groups)
    }

    // Appends the group's network with the traces to it.
    fn push_forward(self, group: &Group, forwards: &mut Vec<TracedMatch>) -> Result<(), Memory>
        requires areas { AreAreas self.areas.now }
        requires all { AreAllOf self group.now }
        ensures { OnOk result (AddsForward self.entry group.now.network forwards.old.items
            forwards.new.items) }
    {
        let network = group.network;
        // proof: its contract shows that the address of a network lies in the network.
        let _address = network.address();
        let traces = self.network_traces(*forwards.allocator(), network, &group.offers)?;
        forwards.push(TracedMatch { network, traces })?;
        Ok(())
    }

    // Returns the traces to the network by its offers that are taken.
    fn network_traces(
        self,
        alloc: Global,
        network: Prefix,
        offers: &[Offer],
    ) -> Result<Vec<Trace>, Memory>
        requires areas { AreAreas self.areas.now }
        requires all { offers.now ≡ offers_for network (all_offers self network.address) }
        ensures { IfOk result (λ traces. AreNetworkTraces self.entry network traces.items) }
    {
        let rivals = self.rivals(network, offers);
        let mut traces = Vec::new(alloc);
        for by in offers {
            let judged = self.judge(by, &rivals);
            if is_taken(judged.verdict) {
                self.push_route(by, &mut traces)?;
            }
        }
        Ok(traces)
    }

    // Appends the traces that the offer gives to its network's route within the AS.
    fn push_route(self, by: &Offer, traces: &mut Vec<Trace>) -> Result<(), Memory>
        requires { AreAreas self.areas.now }
        ensures { OnOk result (AddsTraces (GivesRoute self.entry by.now) traces.old.items
            traces.new.items) }
    {
        let Scope::Area(area) = by.source.scope else {
            return Ok(());
        };
        let Some(entry) = self.internal(by.network) else {
            return Ok(());
        };
        let mut within = self.traces_within(*traces.allocator(), area, by, entry.paths.as_slice())?;
        traces.append(&mut within)?;
        Ok(())
    }

    /// Returns a trace for each of the AS-external-LSA's paths that leads through the forwarding
    /// address.
    pub(crate) fn forward_traces(
        self,
        alloc: Global,
        forwards: &Forwards,
        forwarded: Forwarded<'_>,
    ) -> Result<Vec<Trace>, Memory>
        requires right { AreForwards self forwards.now.networks forwards.now.items.items }
        requires matched { IsMatchedAt self forwards.now.networks forwarded.address }
        ensures { IfOk result (λ traces. AreForwarded self.entry forwarded.entry.address
            forwarded.entry.offer.now forwarded.entry.paths.now traces.items) }
    {
        let mut traces = Vec::new(alloc);
        let Some(network) = self.matched(forwarded.address) else {
            return Ok(traces);
        };
        for inner in forwards.traces_to(network) {
            push_onward(network, inner, forwarded, &mut traces)?;
        }
        Ok(traces)
    }
}

// Appends the trace to the network, continued by the AS-external-LSA, if its path is one of the
// paths.
fn push_onward(
    network: Prefix,
    inner: &Trace,
    forwarded: Forwarded<'_>,
    traces: &mut Vec<Trace>,
) -> Result<(), Memory>
    ensures { OnOk result (AddsTraces (GivesOnward forwarded.entry.address forwarded.entry.offer.now
        forwarded.entry.paths.now network inner.now) traces.old.items traces.new.items) }
{
    let alloc = *traces.allocator();
    let path = Path {
        hop: inner.path.hop.toward(forwarded.address),
        advertiser: Some(forwarded.offer.source.key.router),
    };
    if !has_path(forwarded.paths, path) {
        return Ok(());
    }
    let mut steps = Vec::from_slice(alloc, &inner.steps)?;
    steps.push(forwarded.offer.last_step(TraceNode::Network(network)))?;
    traces.push(Trace { path, steps })?;
    Ok(())
}

/// Returns true if the paths of the offer are among those of its network's route.
pub(crate) fn is_taken(verdict: Verdict) -> bool
    ensures { IsTrue result ↔ (verdict ≡ Verdict.Taken) }
{
    matches!(verdict, Verdict::Taken)
}
