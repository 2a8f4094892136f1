//! The offers of a vertex's LSA: the prefixes of a router's stub links, or the prefix of a transit
//! network.
ghost use Rattle.std.specs.Prelude.{◌≡◌, ◌≢◌, Some, IfOk, IfSome, IsTrue, OnOk};
ghost use Rattle.std.specs.List.{AllPairs, cons_option};
ghost use Rattle.ospf_types.specs.Lsa.{key_of};
ghost use Rattle.lsa_codec.specs.Readers.{flags_of, prefix_of};
ghost use Rattle.area_trees.specs.Areas.{vertex_of};
ghost use Rattle.intra.specs.Indexes.{IsOfferedBy, bits_of};
ghost use Rattle.intra.specs.Stubs.{HasPrefixesOf, HaveSameOffers, KeepsAll, offer_of_link};
ghost use Rattle.intra.specs.Stubs.{stubs_of, transit_offers};

use lsa_codec::Checked;
use ospf_types::entry::Vertex;
use ospf_types::lsa::{Link, LinkKind};
use ospf_types::memory::Memory;
use ospf_types::prefix::Prefix;
use route_choice::Same;
use std::alloc::Global;
use std::marker::Model;

/// A prefix that a vertex offers, and its metric: 0 for a transit network. The cost of the offer is
/// the distance of the vertex plus this metric.
#[derive(Clone, Copy, PartialEq, Eq, PartialOrd, Ord)]
pub(crate) struct OfferedPrefix {
    pub(crate) prefix: Prefix,
    pub(crate) metric: u16,
}

/// The bits and the offers of a vertex's LSA.
pub(crate) struct Offered {
    /// The bits of a router-LSA (RFC 2328, A.4.2); 0 for a network.
    flags: u8,
    // Without duplicates.
    offers: Vec<OfferedPrefix>,
}

// proof: a value is dropped by one call, not part by part at each exit of a function.
impl Drop for Offered {
    fn drop(self) {
        let Offered {
            flags: _,
            offers: _offers,
        } = self;
    }
}

impl Model for Offered {
    ghost use Rattle.intra.specs.Indexes.{OfferedValue};

    ghost Value = { OfferedValue };

    ghost view = { λ o. record { flags = o.flags; offers = o.offers.items } };

    ghost use Rattle.std.specs.Prelude.{◌≢◌};
    ghost use Rattle.std.specs.List.{AllPairs};

    ghost invariant = { λ o. AllPairs (λ a b. a ≢ b) o.offers.items };
}

impl Offered {
    pub(crate) fn flags(&self) -> u8
        ensures { result ≡ self.now.flags }
    {
        self.flags
    }

    /// Returns the prefixes with their metrics, without duplicates.
    pub(crate) fn offers(&self) -> &[OfferedPrefix]
        ensures value { result.now ≡ self.now.offers }
        ensures each_once { AllPairs (λ a b. a ≢ b) self.now.offers }
    {
        self.offers.as_slice()
    }
}

impl Same for Offered {
    fn is_same(&self, other: &Offered) -> bool {
        self.flags == other.flags && self.offers == other.offers
    }
}

impl Offered {
    /// Returns true only if the LSA of this vertex has these bits and these offers, in this order.
    /// False says nothing: it is also returned for each transit network.
    pub(crate) fn is_said_by(&self, vertex: Vertex, lsa: &Checked) -> bool
        requires { vertex_of (key_of lsa.now) ≡ Some vertex }
        ensures { IsTrue result → IsOfferedBy vertex lsa.now.body self.now }
    {
        match vertex {
            Vertex::Router(_) => self.has_flags_of(lsa) && are_stubs(self.offers.as_slice(), lsa),
            Vertex::Network(_) => false,
        }
    }

    // Returns true if the bits equal the bits of the LSA.
    fn has_flags_of(&self, lsa: &Checked) -> bool
        ensures { IsTrue result → self.now.flags ≡ bits_of (flags_of lsa.now.body) }
    {
        self.flags == lsa.flags().unwrap_or(0)
    }
}

// Returns true if these are the stub networks of a router-LSA, in the order of its links.
fn are_stubs(offers: &[OfferedPrefix], lsa: &Checked) -> bool
    ensures { IsTrue result → offers.now ≡ stubs_of lsa.now.body }
{
    let mut left = offers;
    for link in lsa.links() {
        let Some(rest) = after_link(left, link) else {
            return false;
        };
        left = rest;
    }
    left.is_empty()
}

// Returns the offers that remain after the offer of the link, or `None` if they do not begin with
// it.
fn after_link<'a>(offers: &'a [OfferedPrefix], link: Link) -> Option<&'a [OfferedPrefix]>
    ensures { IfSome result (λ rest. offers.now ≡ cons_option (offer_of_link link) rest.now) }
{
    let Some(offer) = stub_offer(link) else {
        return Some(offers);
    };
    match offers {
        [first, rest @ ..] if *first == offer => Some(rest),
        _ => None,
    }
}

/// Appends the prefixes of the offers.
pub(crate) fn push_prefixes(
    offers: &[OfferedPrefix],
    prefixes: &mut Vec<Prefix>,
) -> Result<(), Memory>
    ensures kept { OnOk result (KeepsAll prefixes.old.items prefixes.new.items) }
    ensures offered { OnOk result (HasPrefixesOf offers.now prefixes.new.items) }
{
    for offer in offers {
        prefixes.push(offer.prefix)?;
    }
    Ok(())
}

/// Returns the bits and offers of the LSA that stands for the vertex.
pub(crate) fn offers_in(alloc: Global, vertex: Vertex, lsa: &Checked) -> Result<Offered, Memory>
    requires { vertex_of (key_of lsa.now) ≡ Some vertex }
    ensures { IfOk result (IsOfferedBy vertex lsa.now.body) }
{
    let offers = match vertex {
        Vertex::Router(_) => stub_offers(alloc, lsa)?,
        Vertex::Network(_) => network_offers(alloc, lsa)?,
    };
    let flags = lsa.flags().unwrap_or(0);
    Ok(Offered { flags, offers })
}

// Returns the stub networks of a router-LSA, in ascending order without duplicates.
fn stub_offers(alloc: Global, lsa: &Checked) -> Result<Vec<OfferedPrefix>, Memory>
    ensures exact { IfOk result (λ offers. HaveSameOffers offers.items (stubs_of lsa.now.body)) }
    ensures each_once { IfOk result (λ offers. AllPairs (λ a b. a ≢ b) offers.items) }
{
    let mut offers = each_stub(alloc, lsa)?;
    offers.sort_unstable();
    offers.dedup();
    Ok(offers)
}

// Returns the stub networks of a router-LSA, in the order of its links.
fn each_stub(alloc: Global, lsa: &Checked) -> Result<Vec<OfferedPrefix>, Memory>
    ensures { IfOk result (λ offers. offers.items ≡ stubs_of lsa.now.body) }
{
    let mut offers = Vec::new(alloc);
    for link in lsa.links() {
        if let Some(offer) = stub_offer(link) {
            offers.push(offer)?;
        }
    }
    Ok(offers)
}

// Returns the offer of a link: the network, if it is a stub link (RFC 2328, 12.4.1).
fn stub_offer(link: Link) -> Option<OfferedPrefix>
    ensures { result ≡ offer_of_link link }
{
    match link.kind {
        LinkKind::Stub => Some(OfferedPrefix {
            prefix: Prefix::from_mask(link.id, link.detail),
            metric: link.metric,
        }),
        LinkKind::PointToPoint | LinkKind::Transit | LinkKind::Virtual => None,
    }
}

// Returns the network of a network-LSA.
fn network_offers(alloc: Global, lsa: &Checked) -> Result<Vec<OfferedPrefix>, Memory>
    ensures { IfOk result (λ offers. offers.items ≡ transit_offers (prefix_of lsa.now)) }
{
    let mut offers = Vec::new(alloc);
    if let Some(prefix) = lsa.prefix() {
        offers.push(OfferedPrefix { prefix, metric: 0 })?;
    }
    Ok(offers)
}
