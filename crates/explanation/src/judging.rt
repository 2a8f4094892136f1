//! The verdict on an offer among the other offers for its network (RFC 2328, 16.1, 16.2 and 16.4).
ghost use Rattle.std.specs.Prelude.{◌≡◌, ◌↔◌, ◌<◌, IfErr, IfNone, IfOk, IfSome, IsTrue};
ghost use Rattle.std.specs.Prelude.{option_copied};
ghost use Rattle.explanation.specs.Layers.{AreAreas};
ghost use Rattle.explanation.specs.Judging.{HasExternalKey, HasNoKey, IsInternalCost, IsFateOutside};
ghost use Rattle.explanation.specs.Judging.{IsFateWithin, IsGreater, IsGreatestId, IsJudged};
ghost use Rattle.explanation.specs.Judging.{IsJudgedBy, IsLeastKey, IsLesser, IsRivalsOf};
ghost use Rattle.explanation.specs.Judging.{IsSummary, IsTransitAt, LacksCostWithin, fate_beside};
ghost use Rattle.explanation.specs.Judging.{rank};

use crate::layers::Layers;
use crate::offer::{Offer, OfferKind};
use crate::offered::ExternalKey;
use crate::verdict::Verdict;
use ospf_types::entry::{Entry, PathType};
use ospf_types::key::Scope;
use ospf_types::prefix::Prefix;

/// The cost and the verdict of an offer.
#[derive(Clone, Copy, Debug, PartialEq, Eq)]
pub(crate) struct Judged {
    /// The cost of its paths, or `None` if it has none.
    pub(crate) cost: Option<u32>,
    pub(crate) verdict: Verdict,
}

/// The values that the offers for a network are compared with.
#[derive(Clone, Copy)]
pub(crate) struct Rivals<'c> {
    /// The network's intra-area route, else its inter-area route.
    pub(crate) internal: Option<&'c Entry>,
    /// The greatest Link State ID of the network's transit networks in the area of that route and
    /// at its cost.
    pub(crate) greatest: Option<u32>,
    /// The least key of an AS-external-LSA for the network.
    pub(crate) least: Option<ExternalKey>,
}

impl Rivals<'_> {
    // Judges an offer within the AS, by its cost or by the reason why it has none.
    fn judge_within(&self, offer: &Offer, area: u32, found: Result<u32, Verdict>) -> Judged
        ensures { IsJudgedBy (λ cost. cost) (IsFateWithin (option_copied self.now.internal)
            self.now.greatest offer.now area) found result }
    {
        match found {
            Ok(cost) => Judged {
                cost: Some(cost),
                verdict: self.fate_within(offer, area, cost),
            },
            Err(verdict) => Judged {
                cost: None,
                verdict,
            },
        }
    }

    fn fate_within(&self, offer: &Offer, area: u32, cost: u32) -> Verdict
        ensures { IsFateWithin (option_copied self.now.internal) self.now.greatest offer.now area
            cost result }
    {
        let Some(entry) = self.internal else {
            return Verdict::Unreached;
        };
        // 16.2 (6): an intra-area route is preferred to inter-area routes.
        if is_summary(offer.kind) && is_intra(entry) {
            return Verdict::IntraArea;
        }
        // 16.1 (2d), 16.2 (7): the least cost is preferred.
        if cost > entry.cost {
            return Verdict::Costlier;
        }
        if entry.area != Some(area) {
            return Verdict::LesserArea;
        }
        // 16.1 (4): at one cost, the transit network with the greatest Link State ID is preferred.
        if is_transit(offer.kind) && self.greatest != Some(offer.source.key.id) {
            return Verdict::LesserId;
        }
        Verdict::Taken
    }

    // Judges an AS-external-LSA, by its key or by the reason why it has none.
    fn judge_external(&self, found: Result<ExternalKey, Verdict>) -> Judged
        ensures { IsJudgedBy (λ key. key.cost) (IsFateOutside (option_copied self.now.internal)
            self.now.least) found result }
    {
        match found {
            Ok(key) => Judged {
                cost: Some(key.cost),
                verdict: self.fate_outside(key),
            },
            Err(verdict) => Judged {
                cost: None,
                verdict,
            },
        }
    }

    fn fate_outside(&self, key: ExternalKey) -> Verdict
        ensures { IsFateOutside (option_copied self.now.internal) self.now.least key result }
    {
        // 16.4 (6a): intra-area and inter-area routes are preferred to AS external routes.
        if self.internal.is_some() {
            return Verdict::Internal;
        }
        match self.least {
            Some(least) => key.fate_beside(least),
            None => Verdict::Taken,
        }
    }
}

fn is_summary(kind: OfferKind) -> bool
    ensures { IsTrue result ↔ IsSummary kind }
{
    matches!(kind, OfferKind::Summary(_))
}

fn is_transit(kind: OfferKind) -> bool
    ensures { IsTrue result ↔ (kind ≡ OfferKind.Transit) }
{
    matches!(kind, OfferKind::Transit)
}

fn is_intra(entry: &Entry) -> bool
    ensures { IsTrue result ↔ (entry.now.kind ≡ PathType.Intra) }
{
    matches!(entry.kind, PathType::Intra)
}

// Returns the lesser key.
fn lesser(least: Option<ExternalKey>, key: ExternalKey) -> ExternalKey
    ensures { IsLesser least key result }
{
    match least {
        Some(least) if !key.is_before(least) => least,
        _ => key,
    }
}

// Returns the greater Link State ID.
fn greater(greatest: Option<u32>, id: u32) -> u32
    ensures { IsGreater greatest id result }
{
    match greatest {
        Some(greatest) if greatest > id => greatest,
        _ => id,
    }
}

impl ExternalKey {
    // Returns true if this key is preferred to the other.
    fn is_before(self, other: ExternalKey) -> bool
        ensures { IsTrue result ↔ (rank self < rank other) }
    {
        if self.is_type_2 != other.is_type_2 {
            return other.is_type_2;
        }
        if self.metric != other.metric {
            return self.metric < other.metric;
        }
        let (class, least) = (self.class.number(), other.class.number());
        if class != least {
            return class < least;
        }
        self.cost < other.cost
    }

    // Returns the verdict on a path with this key, compared with the other key.
    fn fate_beside(self, other: ExternalKey) -> Verdict
        ensures { fate_beside self other result }
    {
        // 16.4 (6b): type 1 is preferred to type 2, and then the least metric of type 2.
        if self.is_type_2 && !other.is_type_2 {
            return Verdict::Type2;
        }
        if self.is_type_2 != other.is_type_2 {
            return Verdict::Taken;
        }
        if self.metric > other.metric {
            return Verdict::Metric2;
        }
        if self.metric < other.metric {
            return Verdict::Taken;
        }
        // 16.4 (6c): the least class of 16.4.1 is preferred.
        let (class, least) = (self.class.number(), other.class.number());
        if class > least {
            return Verdict::Class;
        }
        if class < least {
            return Verdict::Taken;
        }
        // 16.4 (6d): the least cost is preferred.
        if self.cost > other.cost {
            return Verdict::Costlier;
        }
        Verdict::Taken
    }
}

impl<'c> Layers<'c, '_> {
    /// Returns the values that the offers for this network are compared with.
    pub(crate) fn rivals(self, network: Prefix, offers: &[Offer]) -> Rivals<'c>
        requires { AreAreas self.areas.now }
        ensures { IsRivalsOf self.entry network offers.now (option_copied result.internal)
            result.greatest result.least }
    {
        let internal = self.internal(network);
        Rivals {
            internal,
            greatest: match internal {
                Some(entry) => self.greatest_id(entry, offers),
                None => None,
            },
            least: self.least_key(offers),
        }
    }

    /// Judges the offer against the values of its network.
    pub(crate) fn judge(self, offer: &Offer, rivals: &Rivals<'_>) -> Judged
        requires { AreAreas self.areas.now }
        ensures { IsJudged self.entry (option_copied rivals.now.internal) rivals.now.greatest
            rivals.now.least offer.now result }
    {
        if let OfferKind::AsExternal(metric, external) = offer.kind {
            return rivals.judge_external(self.external_key(offer, metric, external));
        }
        match offer.source.scope {
            Scope::Area(area) => { rivals.judge_within(offer, area, self.cost_within(area, offer)) }
            Scope::As => Judged {
                cost: None,
                verdict: Verdict::NotExamined,
            },
        }
    }

    // Returns the cost of an offer within the AS, or the reason why it has none.
    fn cost_within(self, area: u32, offer: &Offer) -> Result<u32, Verdict>
        requires { AreAreas self.areas.now }
        ensures cost { IfOk result (IsInternalCost self.entry area offer.now offer.now.kind) }
        ensures none { IfErr result (LacksCostWithin self.entry area offer.now offer.now.kind) }
    {
        match offer.kind {
            OfferKind::Stub(metric) => self.stub_cost(area, offer, metric),
            OfferKind::Transit => self.transit_cost(area, offer),
            OfferKind::Summary(metric) => self.summary_cost(area, offer, metric),
            OfferKind::AsExternal(_, _) => Err(Verdict::NotExamined),
        }
    }

    // Returns the least key of the AS-external-LSAs among the offers.
    fn least_key(self, offers: &[Offer]) -> Option<ExternalKey>
        ensures { IsLeastKey self.entry offers.now result }
    {
        let mut least = None;
        for offer in offers {
            if let Some(key) = self.key_of(offer) {
                least = Some(lesser(least, key));
            }
        }
        least
    }

    // Returns the key of the offer, if it comes from an AS-external-LSA that has one.
    fn key_of(self, offer: &Offer) -> Option<ExternalKey>
        ensures some { IfSome result (HasExternalKey self.entry offer.now.kind offer.now) }
        ensures none { IfNone result (HasNoKey self.entry offer.now.kind offer.now) }
    {
        match offer.kind {
            OfferKind::AsExternal(metric, external) => {
                match self.external_key(offer, metric, external) {
                    Ok(key) => Some(key),
                    Err(_) => None,
                }
            }
            OfferKind::Stub(_) | OfferKind::Transit | OfferKind::Summary(_) => None,
        }
    }

    // Returns the greatest Link State ID of the transit networks among the offers, in the area of
    // the route and at its cost.
    fn greatest_id(self, entry: &Entry, offers: &[Offer]) -> Option<u32>
        requires { AreAreas self.areas.now }
        ensures { IsGreatestId self.entry entry.now offers.now result }
    {
        let mut greatest = None;
        for offer in offers {
            if self.is_at(entry, offer) {
                greatest = Some(greater(greatest, offer.source.key.id));
            }
        }
        greatest
    }

    // Returns true if the offer is a transit network in the area of the route and at its cost.
    fn is_at(self, entry: &Entry, offer: &Offer) -> bool
        requires { AreAreas self.areas.now }
        ensures { IsTrue result ↔ IsTransitAt self.entry entry.now offer.now }
    {
        if !is_transit(offer.kind) {
            return false;
        }
        let Some(area) = entry.area else {
            return false;
        };
        match self.transit_cost(area, offer) {
            Ok(cost) => cost == entry.cost && offer.source.scope == Scope::Area(area),
            Err(_) => false,
        }
    }
}
