//! The cost of an offer by itself, without other offers (RFC 2328, 16.1, 16.2 and 16.4), or the
//! reason why it has none.
ghost use Rattle.std.specs.Prelude.{ℕ, ◌≡◌, ◌↔◌, ◌<◌, IfErr, IfNone, IfOk, IfSome, IsTrue};
ghost use Rattle.ospf_types.specs.Inter.{LSInfinity};
ghost use Rattle.ospf_types.specs.Intra.{LiesIn};
ghost use Rattle.intra.specs.Intras.{most_cost};
ghost use Rattle.external.specs.Classes.{class_number};
ghost use Rattle.explanation.specs.Layers.{AreAreas};
ghost use Rattle.explanation.specs.Offered.{HasInterfaceOn, IsExternalKey, HasNoFault, IsForwardedKey};
ghost use Rattle.explanation.specs.Offered.{IsOn, IsStubCost, IsSummaryCost, IsTransitCost};
ghost use Rattle.explanation.specs.Offered.{IsUnfit, LacksKey, LacksStubCost, LacksSummaryCost};
ghost use Rattle.explanation.specs.Offered.{LacksTransitCost, LeadsAt, LeadsNowhere, key_by};

use crate::layers::Layers;
use crate::offer::Offer;
use crate::verdict::Verdict;
use external::PathClass;
use ospf_types::config::Interface;
use ospf_types::entry::Vertex;
use ospf_types::lsa::{ExternalFields, LS_INFINITY, MAX_AGE};
use ospf_types::prefix::Prefix;
use route_layers::is_up_in;

/// The values by which AS-external-LSAs for one network are compared, in this order (16.4 (6)):
/// type 1 before type 2, the metric of type 2, the class of 16.4.1, and the cost.
#[derive(Clone, Copy, Debug, PartialEq, Eq)]
pub(crate) struct ExternalKey {
    pub(crate) is_type_2: bool,
    pub(crate) metric: u32,
    pub(crate) class: PathClass,
    pub(crate) cost: u32,
}

impl Layers<'_, '_> {
    /// Returns the cost of a stub network (16.1, the second stage), or the reason why it has none.
    pub(crate) fn stub_cost(self, area: u32, offer: &Offer, metric: u16) -> Result<u32, Verdict>
        ensures cost { IfOk result (IsStubCost self.entry area offer.now metric) }
        ensures none { IfErr result (LacksStubCost self.entry area offer.now) }
    {
        // 16.1 (2b): an LSA at MaxAge is skipped.
        if offer.age >= MAX_AGE {
            return Err(Verdict::MaxAge);
        }
        let router = offer.source.key.router;
        if router == self.root() {
            if self.is_on(area, offer.network) {
                return Ok(u32::from(metric));
            }
            return Err(Verdict::NoInterface);
        }
        match self.distance(area, Vertex::Router(router)) {
            Some(distance) => Ok(distance + u32::from(metric)),
            None => Err(Verdict::Unreached),
        }
    }

    /// Returns the cost of a transit network (16.1 (4)), or the reason why it has none.
    pub(crate) fn transit_cost(self, area: u32, offer: &Offer) -> Result<u32, Verdict>
        requires { AreAreas self.areas.now }
        ensures cost { IfOk result (IsTransitCost self.entry area offer.now) }
        ensures none { IfErr result (LacksTransitCost self.entry area offer.now) }
    {
        // 16.1 (2b): an LSA at MaxAge is skipped.
        if offer.age >= MAX_AGE {
            return Err(Verdict::MaxAge);
        }
        let key = offer.source.key;
        let vertex = Vertex::Network(key.id);
        if self.standing(area, vertex) != Some(key) {
            return Err(Verdict::Another);
        }
        match self.distance(area, vertex) {
            Some(distance) => Ok(distance),
            None => Err(Verdict::Unreached),
        }
    }

    /// Returns the cost of a summary-LSA (16.2), or the reason why it has none.
    pub(crate) fn summary_cost(self, area: u32, offer: &Offer, metric: u32) -> Result<u32, Verdict>
        ensures cost { IfOk result (IsSummaryCost self.entry area offer.now metric) }
        ensures none { IfErr result (LacksSummaryCost self.entry area offer.now metric) }
    {
        if !self.is_examined(area) {
            return Err(Verdict::NotExamined);
        }
        // 16.2 (1), (2): an LSA at LSInfinity or MaxAge is skipped, and so is the router's own LSA.
        if let Some(verdict) = self.unfit(offer, metric) {
            return Err(verdict);
        }
        // 16.2 (3): the prefix of an active range is skipped.
        if self.calculation.active().contains(offer.network) {
            return Err(Verdict::ActiveRange);
        }
        // 16.2 (4): the border router has to be reached in the area.
        match self.reached(area, offer.source.key.router) {
            Some(border) if border.is_abr() => Ok(border.distance() + metric),
            _ => Err(Verdict::NoBorderRouter),
        }
    }

    /// Returns the key by which an AS-external-LSA is compared (16.4), or the reason why it has
    /// none.
    pub(crate) fn external_key(
        self,
        offer: &Offer,
        metric: u32,
        external: ExternalFields,
    ) -> Result<ExternalKey, Verdict>
        ensures key { IfOk result (IsExternalKey self.entry offer.now metric external) }
        ensures none { IfErr result (LacksKey self.entry offer.now metric external) }
    {
        // 16.4 (1), (2): an LSA at LSInfinity or MaxAge is skipped, and so is the router's own LSA.
        if let Some(verdict) = self.unfit(offer, metric) {
            return Err(verdict);
        }
        // 16.4 (3): the AS boundary router has to be reached.
        let Some(preferred) = self
            .calculation
            .external()
            .preferred(offer.source.key.router)
        else {
            return Err(Verdict::NoBoundaryRouter);
        };
        if external.forwarding == 0 {
            let (class, distance) = (preferred.class(), preferred.cost());
            return Ok(key_by(external.is_type_2, metric, class, distance));
        }
        self.forwarded_key(metric, external)
    }

    // Returns the key of an AS-external-LSA with a forwarding address.
    fn forwarded_key(self, metric: u32, external: ExternalFields) -> Result<ExternalKey, Verdict>
        requires metric { metric < LSInfinity }
        requires some { 0 < external.forwarding }
        ensures key { IfOk result (IsForwardedKey self.entry metric external) }
        ensures none { IfErr result (λ verdict.
            (verdict ≡ Verdict.NoForward) × LeadsNowhere self.entry external.forwarding) }
    {
        match self.forward(external.forwarding) {
            Some((class, distance)) => { Ok(key_by(external.is_type_2, metric, class, distance)) }
            None => Err(Verdict::NoForward),
        }
    }

    // Returns the class and the distance of a forwarding address, or `None` if no route leads
    // there.
    fn forward(self, address: u32) -> Option<(PathClass, u32)>
        requires { 0 < address }
        ensures some { IfSome result (λ found. (router : ℕ)
            → LeadsAt self.entry router address (class_number found.0) found.1) }
        ensures bounded { IfSome result (λ found. found.1 < most_cost) }
        ensures none { IfNone result (LeadsNowhere self.entry address) }
    {
        let way = self
            .calculation
            .external()
            .forwarding_match(address)?
            .way()?;
        Some((way.class(), way.cost()))
    }

    // Returns the reason why a summary-LSA or an AS-external-LSA is skipped at once, or `None`.
    fn unfit(self, offer: &Offer, metric: u32) -> Option<Verdict>
        ensures some { IfSome result (IsUnfit self.entry offer.now metric) }
        ensures none { IfNone result (HasNoFault self.entry offer.now metric) }
    {
        if metric >= LS_INFINITY {
            return Some(Verdict::Infinity);
        }
        if offer.age >= MAX_AGE {
            return Some(Verdict::MaxAge);
        }
        if offer.source.key.router == self.root() {
            return Some(Verdict::Own);
        }
        None
    }

    // Returns true if the root has an interface of the area that is up and lies in the network.
    fn is_on(self, area: u32, network: Prefix) -> bool
        ensures { IsTrue result ↔ HasInterfaceOn self.entry area network }
    {
        for (_, interface) in self.state.interfaces() {
            if is_on(interface, area, network) {
                return true;
            }
        }
        false
    }
}

// Returns the key of an AS-external-LSA. `metric` is the Y of 16.4 (4), and `distance` is its X.
fn key_by(is_type_2: bool, metric: u32, class: PathClass, distance: u32) -> ExternalKey
    requires metric { metric < LSInfinity }
    requires distance { distance < most_cost }
    ensures { result ≡ key_by is_type_2 metric class distance }
{
    if is_type_2 {
        return ExternalKey {
            is_type_2,
            metric,
            class,
            cost: distance,
        };
    }
    ExternalKey {
        is_type_2,
        metric: 0,
        class,
        cost: distance + metric,
    }
}

/// Returns true if the interface belongs to the area, is up, and lies in the network by its address
/// or by its peer's address.
pub(crate) fn is_on(interface: &Interface, area: u32, network: Prefix) -> bool
    ensures { IsTrue result ↔ IsOn area network interface.now }
{
    is_up_in(interface, area) && lies_in(interface, network)
}

fn lies_in(interface: &Interface, network: Prefix) -> bool
    ensures { IsTrue result ↔ LiesIn interface.now network }
{
    network.contains(interface.address) || interface.peer > 0 && network.contains(interface.peer)
}
