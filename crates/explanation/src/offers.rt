//! The offers of LSAs.
ghost use Rattle.std.specs.Prelude.{◌≡◌, ◌++◌, OnOk};
ghost use Rattle.explanation.specs.Offers as said;
ghost use Rattle.explanation.specs.Offers.{is_wanted, offers_among, offers_of, own_if};

use crate::networks::NetworkSet;
use crate::offer::{LsaInstance, Offer, OfferKind};
use lsa_codec::Checked;
use ospf_types::key::Scope;
use ospf_types::lsa::{Link, LinkKind};
use ospf_types::memory::Memory;
use ospf_types::prefix::Prefix;

/// The networks whose offers are wanted.
#[derive(Clone, Copy)]
pub(crate) enum Wanted<'n> {
    /// All networks that contain the address (in host order).
    Around(u32),
    /// These networks.
    Among(&'n NetworkSet),
}

impl Wanted<'_> {
    fn has(self, network: Prefix) -> bool
        ensures { result ≡ is_wanted self.entry network }
    {
        match self {
            Wanted::Around(address) => network.contains(address),
            Wanted::Among(networks) => networks.has(network),
        }
    }
}

/// A database of LSAs, and the networks whose offers are wanted.
#[derive(Clone, Copy)]
pub(crate) struct OfferQuery<'n> {
    pub(crate) scope: Scope,
    pub(crate) wanted: Wanted<'n>,
}

impl OfferQuery<'_> {
    /// Appends the wanted offers of these LSAs.
    pub(crate) fn add_offers(self, lsas: &[Checked], offers: &mut Vec<Offer>) -> Result<(), Memory>
        ensures { OnOk result (offers.new.items
            ≡ offers.old.items ++ offers_among (is_wanted self.entry.wanted) self.entry.scope lsas.now) }
    {
        for lsa in lsas {
            self.add_lsa(lsa, offers)?;
        }
        Ok(())
    }

    fn add_lsa(self, lsa: &Checked, offers: &mut Vec<Offer>) -> Result<(), Memory>
        ensures { OnOk result (offers.new.items
            ≡ offers.old.items ++ offers_of (is_wanted self.entry.wanted) self.entry.scope lsa.now) }
    {
        self.add_stubs(lsa, offers)?;
        if let Some(offer) = self.own(lsa) {
            offers.push(offer)?;
        }
        Ok(())
    }

    // Appends the wanted offers of the stub links of a router-LSA (A.4.2).
    fn add_stubs(self, lsa: &Checked, offers: &mut Vec<Offer>) -> Result<(), Memory>
        ensures { OnOk result (offers.new.items ≡ offers.old.items
            ++ said.stubs_of (is_wanted self.entry.wanted) self.entry.scope lsa.now) }
    {
        for link in lsa.links() {
            if let Some(offer) = self.stub(lsa, link) {
                offers.push(offer)?;
            }
        }
        Ok(())
    }

    // Returns the offer of a link of a router-LSA, if it is a stub link to a wanted network.
    fn stub(self, lsa: &Checked, link: Link) -> Option<Offer>
        ensures { result ≡ said.stub_if (is_wanted self.entry.wanted) self.entry.scope lsa.now link }
    {
        match link.kind {
            LinkKind::Stub => {
                let network = Prefix::from_mask(link.id, link.detail);
                self.offer(lsa, network, OfferKind::Stub(link.metric))
            }
            LinkKind::PointToPoint | LinkKind::Transit | LinkKind::Virtual => None,
        }
    }

    // Returns the offer of a network-LSA, a type 3 summary-LSA or an AS-external-LSA (A.4.3, A.4.4,
    // A.4.5), if its network is wanted.
    fn own(self, lsa: &Checked) -> Option<Offer>
        ensures { result ≡ own_if (is_wanted self.entry.wanted) self.entry.scope lsa.now }
    {
        match lsa.prefix() {
            Some(network) => self.offer(lsa, network, kind_of(lsa)),
            None => None,
        }
    }

    fn offer(self, lsa: &Checked, network: Prefix, kind: OfferKind) -> Option<Offer>
        ensures { result ≡ said.offer_if (is_wanted self.entry.wanted) self.entry.scope lsa.now
            network kind }
    {
        if !self.wanted.has(network) {
            return None;
        }
        Some(Offer {
            network,
            source: LsaInstance::of(self.scope, lsa),
            age: lsa.header().age,
            kind,
        })
    }
}

// Returns the kind of the offer of an LSA that has a network.
fn kind_of(lsa: &Checked) -> OfferKind
    ensures { result ≡ said.own_kind lsa.now }
{
    match (lsa.metric(), lsa.external()) {
        (None, _) => OfferKind::Transit,
        (Some(metric), None) => OfferKind::Summary(metric),
        (Some(metric), Some(external)) => OfferKind::AsExternal(metric, external),
    }
}
