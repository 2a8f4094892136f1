//! The choice of the entry of a destination: the best of the offers of the summaries for it (RFC
//! 2328, 16.2).
ghost use Rattle.std.specs.Prelude.{◌≡◌, ◌↔◌, Some, IfOk, OnOk, IsTrue, IsSome};
ghost use Rattle.std.specs.List.Sorted.{IsStrictlySortedBy};
ghost use Rattle.ospf_types.specs.Hops.{path_cmp};
ghost use Rattle.ospf_types.specs.Routes.{entry_of};
ghost use Rattle.inter.specs.Choosing.{IsChosenIn, TakesPaths, KeyOffers, KeysOffer};
ghost use Rattle.inter.specs.Offers.{IsBoundaryIn, IsTakenBelow};

use crate::cost::{InterEntry, SummaryCost};
use crate::inputs::InterInputs;
use advertised_index::{AdvertisedIndex, IndexKey};
use intra::Intra;
use ospf_types::entry::{Entry, PathType, Paths};
use ospf_types::hop::Path;
use ospf_types::key::{Dest, Key};
use ospf_types::memory::Memory;
use route_choice::{Best, Choice, Choose, offer_hops};
use std::alloc::Global;

/// The inputs of a choice, and the index of the summaries.
#[derive(Drop)]
pub(crate) struct Choosing<'a> {
    pub(crate) inputs: &'a InterInputs<'a>,
    pub(crate) index: &'a AdvertisedIndex,
}

impl<'a> Choose<Dest, InterEntry> for Choosing<'a> {
    ghost use Rattle.inter.specs.Choosing.{IsChosenFor};

    ghost IsChosen = { λ c d e. IsChosenFor c.inputs.now c.index.now d e };

    fn choose(
        &self,
        alloc: Global,
        key: Dest,
        _standing: Option<&InterEntry>,
    ) -> Result<Option<InterEntry>, Memory> {
        match self.inputs.area() {
            Some(area) => self.choose_in(alloc, area, &key),
            None => Ok(None),
        }
    }
}

impl Choosing<'_> {
    // Returns the entry of the destination by the summaries of the area, or `None` if there are no
    // offers or another route is preferred.
    fn choose_in(&self, alloc: Global, area: u32, dest: &Dest) -> Result<Option<InterEntry>, Memory>
        ensures { IfOk result
            (IsChosenIn self.now.inputs.now area self.now.index.now dest.now) }
    {
        let inputs = self.inputs;
        // 16.2 (3) and (6): active ranges and intra-area paths are preferred to summaries.
        if is_taken_below(inputs, area, dest) {
            return Ok(None);
        }
        let mut keys = Vec::new(alloc);
        self.index.list_keys(IndexKey::To(*dest), &mut keys)?;
        let mut best = Best::new(alloc);
        let offers = AreaOffers {
            intra: inputs.intra,
            area,
            index: self.index,
        };
        offers.offer_keys(&mut best, keys.as_slice())?;
        // 16.2 (5) and (7): the paths of least cost are installed together.
        match best.into_choice() {
            Some(choice) => Ok(Some(entry(area, choice))),
            None => Ok(None),
        }
    }
}

// Returns the inter-area entry of a choice.
fn entry(area: u32, choice: Choice<SummaryCost, Path>) -> InterEntry
    requires { IsStrictlySortedBy path_cmp choice.items }
    ensures { result ≡ entry_of PathType.Inter (Some area) choice.key 0 choice.items }
{
    let (key, paths) = choice.into_parts();
    InterEntry::new(Entry {
        kind: PathType::Inter,
        area: Some(area),
        cost: key.cost(),
        cost2: 0,
        paths: Paths::new(paths),
    })
}

// Returns true if another route is preferred to summaries. For a network it is an intra-area route,
// or an active range with its prefix. For a router it is an intra-area route in the area to it as
// an AS boundary router.
fn is_taken_below(inputs: &InterInputs<'_>, area: u32, dest: &Dest) -> bool
    ensures { IsTrue result ↔ IsTakenBelow inputs.now area dest.now }
{
    match *dest {
        Dest::Net(network) => {
            inputs.intra.get(network).is_some() || inputs.active.contains(network)
        }
        Dest::Router(router) => is_asbr(inputs.intra, area, router),
    }
}

// Returns true if the router is reached in the area as an AS boundary router, with a next hop.
fn is_asbr(intra: &Intra, area: u32, router: u32) -> bool
    ensures { IsTrue result ↔ IsBoundaryIn intra.now.areas area router }
{
    match intra.router(area, router) {
        Some(reached) => reached.is_asbr() && !reached.hops().is_empty(),
        None => false,
    }
}

// The offers of the summaries of an area.
#[derive(Clone, Copy)]
struct AreaOffers<'a> {
    intra: &'a Intra,
    area: u32,
    index: &'a AdvertisedIndex,
}

impl AreaOffers<'_> {
    // Adds the offers of the summaries with these keys.
    fn offer_keys(self, best: &mut Best<SummaryCost, Path>, keys: &[Key]) -> Result<(), Memory>
        ensures { OnOk result (TakesPaths
            (KeysOffer keys.now self.entry.intra.now.areas self.entry.area self.entry.index.now)
            best.old best.new) }
    {
        for key in keys {
            self.offer_key(best, *key)?;
        }
        Ok(())
    }

    // Adds the offer of the summary with this key, if its border router is reached.
    fn offer_key(self, best: &mut Best<SummaryCost, Path>, key: Key) -> Result<(), Memory>
        ensures { OnOk result (TakesPaths
            (KeyOffers self.entry.intra.now.areas self.entry.area self.entry.index.now key)
            best.old best.new) }
    {
        let Some(route) = self.index.route(key) else {
            return Ok(());
        };
        // 16.2 (4): the border router must be reached in the area. The cost is the sum of its
        // distance and the metric.
        let Some(border) = self.intra.router(self.area, key.router) else {
            return Ok(());
        };
        if !border.is_abr() {
            return Ok(());
        }
        let cost = SummaryCost::new(border.distance(), route.metric());
        offer_hops(best, cost, Some(key.router), border.hops())
    }
}
