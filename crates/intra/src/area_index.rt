//! The index of an area: the prefixes that each vertex offers, and the vertices that offer each
//! prefix. It depends on the area's LSAs only.
ghost use Rattle.std.specs.Prelude.{◌≡◌, ◌≢◌, Some, None, IfOk, IfSome, IsTrue, OnOk};
ghost use Rattle.std.specs.Prelude.{option_copied};
ghost use Rattle.std.specs.FinMap as map;
ghost use Rattle.std.specs.List.{AllPairs};
ghost use Rattle.ospf_types.specs.Lsa.{key_of};
ghost use Rattle.spf.specs.VertexSet.{HasNoDoubles};
ghost use Rattle.area_trees.specs.Areas.{vertex_of};
ghost use Rattle.intra.specs.Following.{IsVertexCurrent};
ghost use Rattle.intra.specs.Inputs.{HasTree};
ghost use Rattle.intra.specs.Indexes.{ArePrefixesAffected, IsIndex, IsOfferedNow, IsSource, OffersNothing};
ghost use Rattle.intra.specs.Indexes.{empty_index, offers_of, sources_of};
ghost use Rattle.intra.specs.IndexSteps.{AreAlike, AreOffersGone, AreLeftOut, AreSameOrNamed, HaveOffersCome};
ghost use Rattle.intra.specs.IndexSteps.{IsOfferOf, IsPrefixOf, IsThisOffer, OtherVerticesStay};
ghost use Rattle.intra.specs.Stubs.{KeepsAll};

use crate::inputs::AreaInputs;
use crate::offered::{Offered, OfferedPrefix, offers_in, push_prefixes};
use area_trees::AreaTree;
use indexmap::IndexMap;
use lsa_codec::Checked;
use ospf_types::WordHash;
use ospf_types::entry::Vertex;
use ospf_types::memory::Memory;
use ospf_types::prefix::Prefix;
use route_choice::are_same;
use smallvec::SmallVec;
use std::alloc::Global;
use std::default::MadeWith;
use std::marker::Model;
use vertex_map::HintedVertex;

/// A vertex that offers a prefix, and the metric of the offer.
#[derive(Drop)]
pub(crate) struct PrefixSource {
    /// The vertex, with the index of its row in the area's graph as a hint.
    pub(crate) vertex: HintedVertex,
    pub(crate) metric: u16,
}

/// Fills the unused elements of an inline collection.
impl<A: Drop> MadeWith<A> for PrefixSource {
    fn made_with(_alloc: A) -> PrefixSource {
        PrefixSource {
            vertex: HintedVertex::without_hint(Vertex::Router(0)),
            metric: 0,
        }
    }
}

/// The offers of each vertex of an area, as its LSA last stated them, and the vertices that offer
/// each prefix.
pub(crate) struct AreaIndex {
    alloc: Global,
    offered: IndexMap<Vertex, Offered, WordHash>,
    // Usually one vertex offers a prefix. Its source is then stored inline.
    sources: IndexMap<Prefix, SmallVec<PrefixSource, 1>, WordHash>,
}

// proof: a value is dropped by one call, not part by part at each exit of a function.
impl Drop for AreaIndex {
    fn drop(self) {
        let AreaIndex {
            alloc: _,
            offered: _offered,
            sources: _sources,
        } = self;
    }
}

impl Model for AreaIndex {
    ghost use Rattle.std.specs.Prelude.{map as list_map, List};
    ghost use Rattle.std.specs.FinMap as map;
    ghost use Rattle.std.specs.Coded.{Coded, codes};
    ghost use Rattle.ospf_types.specs.Network.{network_code};
    ghost use Rattle.ospf_types.specs.Vertices.{vertex_code};
    ghost use Rattle.intra.specs.Indexes.{IndexValue, OfferedByVertex, SourcesByPrefix};
    ghost use Rattle.intra.specs.contracts.offered.OfferedPrefix as offer;
    ghost use Rattle.intra.specs.contracts.area_index.PrefixSource as source;

    ghost Value = { IndexValue };

    ghost coded = { let offered : Coded OfferedByVertex = map.code vertex_code (Prim.hlevel (codes, offer.the_row.coded)) in
        let sources : Coded SourcesByPrefix = map.code network_code (Prim.hlevel (codes, source.the_row.coded)) in
        Prim.hlevel (codes, offered, sources) };

    ghost view = { λ i. record { offered = map.from_entries i.offered.entries; sources = map.from_entries (list_map (λ e. (e.0, e.1.items)) i.sources.entries) } };

    ghost use Rattle.intra.specs.Indexes.{AreSourceLists};

    // A prefix that no vertex offers has no list, and a list has no source twice.
    ghost invariant = { λ i. AreSourceLists (map.from_entries (list_map (λ e. (e.0, e.1.items)) i.sources.entries)) };
}

impl AreaIndex {
    /// Creates the index of an area without LSAs.
    pub(crate) fn new(alloc: Global, hashing: WordHash) -> AreaIndex
        ensures { result ≡ empty_index }
    {
        AreaIndex {
            alloc,
            offered: IndexMap::with_hasher(alloc, hashing),
            sources: IndexMap::with_hasher(alloc, hashing),
        }
    }

    /// Returns the bits and offers of the vertex's LSA.
    pub(crate) fn offered(&self, vertex: Vertex) -> Option<&Offered>
        ensures { option_copied result ≡ map.get self.now.offered vertex }
    {
        self.offered.get(&vertex)
    }

    /// Returns the vertices that offer the prefix, with their metrics.
    ///
    /// `place` is a hint: the prefix is first looked for at this index. If it is found by its hash
    /// instead, `place` becomes its index.
    pub(crate) fn sources(&self, prefix: Prefix, place: &mut usize) -> &[PrefixSource]
        ensures { result.now ≡ sources_of (map.get self.now.sources prefix) }
    {
        match self.sources.get_index(*place) {
            Some((kept, sources)) if *kept == prefix => sources.as_slice(),
            _ => self.find_sources(prefix, place),
        }
    }

    // Finds the prefix by its hash, and sets `place` to its index.
    fn find_sources(&self, prefix: Prefix, place: &mut usize) -> &[PrefixSource]
        ensures { result.now ≡ sources_of (map.get self.now.sources prefix) }
    {
        match self.sources.get_full(&prefix) {
            Some((found, _, sources)) => {
                *place = found;
                sources.as_slice()
            }
            None => &[],
        }
    }

    /// Replaces the offers of the vertex by the offers of the LSA that stands for it now. Appends
    /// the prefixes that the two offer differently to `dirty`.
    pub(crate) fn follow(
        &mut self,
        area: &AreaInputs<'_>,
        vertex: Vertex,
        dirty: &mut Vec<Prefix>,
    ) -> Result<(), Memory>
        requires index { IsIndex self.old }
        requires ready { HasTree area.now }
        ensures index { OnOk result (IsIndex self.new) }
        ensures taken { OnOk result (IsVertexCurrent area.now.lsas self.new vertex) }
        ensures others { OnOk result (OtherVerticesStay self.old self.new vertex) }
        ensures touched { OnOk result (ArePrefixesAffected self.old self.new
            dirty.old.items dirty.new.items) }
    {
        let standing = area.tree.lsa_for_vertex(area.database, vertex);
        if are_as_said(self.offered(vertex), vertex, standing) {
            return Ok(());
        }
        let fresh = standing_offers(self.alloc, vertex, standing)?;
        if are_same(self.offered(vertex), fresh.as_ref()) {
            return Ok(());
        }
        let gone = self.take_out(vertex);
        name_differing(listed(gone.as_ref()), listed(fresh.as_ref()), dirty)?;
        match fresh {
            Some(fresh) => {
                self.put_in(area.tree, vertex, fresh)?;
                Ok(())
            }
            None => Ok(()),
        }
    }
}

impl AreaIndex {
    // Removes the offers of the vertex.
    fn take_out(&mut self, vertex: Vertex) -> Option<Offered>
        requires { IsIndex self.old }
        ensures value { result ≡ map.get self.old.offered vertex }
        ensures index { IsIndex self.new }
        ensures offered { self.new.offered ≡ map.remove self.old.offered vertex }
    {
        let gone = self.offered.swap_remove(&vertex);
        self.remove_sources(vertex, listed(gone.as_ref()));
        gone
    }

    // Removes the vertex as a source of the prefixes of these offers.
    fn remove_sources(&mut self, vertex: Vertex, offers: &[OfferedPrefix])
        ensures offered { self.new.offered ≡ self.old.offered }
        ensures gone { AreOffersGone (IsPrefixOf vertex offers.now) self.old self.new }
    {
        for offer in offers {
            self.remove_source(vertex, offer.prefix);
        }
    }

    // Removes the vertex as a source of the prefix.
    fn remove_source(&mut self, vertex: Vertex, prefix: Prefix)
        ensures offered { self.new.offered ≡ self.old.offered }
        ensures gone { AreOffersGone (λ w p. (w ≡ vertex) × (p ≡ prefix)) self.old self.new }
    {
        let Some(sources) = self.sources.get_mut(&prefix) else {
            return;
        };
        leave_out(sources, vertex);
        if sources.is_empty() {
            self.sources.swap_remove(&prefix);
        }
    }

    // Inserts the offers of a vertex that has none in the index.
    fn put_in(&mut self, tree: &AreaTree, vertex: Vertex, fresh: Offered) -> Result<(), Memory>
        requires index { IsIndex self.old }
        requires absent { map.get self.old.offered vertex ≡ None }
        ensures index { OnOk result (IsIndex self.new) }
        ensures offered { OnOk result (self.new.offered
            ≡ map.insert self.old.offered vertex fresh) }
    {
        self.add_sources(&tree.with_hint(vertex), fresh.offers())?;
        self.offered.insert(vertex, fresh)?;
        Ok(())
    }

    // Adds the vertex as a source of the prefixes of these offers.
    fn add_sources(&mut self, vertex: &HintedVertex, offers: &[OfferedPrefix]) -> Result<(), Memory>
        requires absent { OffersNothing self.old vertex.now }
        requires each_once { AllPairs (λ a b. a ≢ b) offers.now }
        ensures offered { OnOk result (self.new.offered ≡ self.old.offered) }
        ensures come { OnOk result (HaveOffersCome (IsOfferOf vertex.now offers.now) self.old self.new) }
    {
        for offer in offers {
            self.add_source(vertex, *offer)?;
        }
        Ok(())
    }

    // Adds the vertex as a source of the prefix.
    fn add_source(&mut self, vertex: &HintedVertex, offer: OfferedPrefix) -> Result<(), Memory>
        requires { IsSource self.old vertex.now offer.prefix offer.metric → ⊥ }
        ensures offered { OnOk result (self.new.offered ≡ self.old.offered) }
        ensures come { OnOk result (HaveOffersCome (IsThisOffer vertex.now offer) self.old self.new) }
    {
        let source = PrefixSource {
            vertex: vertex.copy(),
            metric: offer.metric,
        };
        match self.sources.get_mut(&offer.prefix) {
            Some(sources) => {
                sources.push(source)?;
                Ok(())
            }
            None => {
                let first = SmallVec::from_buf(self.alloc, [source]);
                self.sources.insert(offer.prefix, first)?;
                Ok(())
            }
        }
    }
}

// Returns true only if the offers are known to match the LSA that stands for the vertex. False says
// nothing.
fn are_as_said(offered: Option<&Offered>, vertex: Vertex, standing: Option<&Checked>) -> bool
    requires { IfSome (option_copied standing) (λ lsa. vertex_of (key_of lsa) ≡ Some vertex) }
    ensures { IsTrue result
        → IsOfferedNow vertex (option_copied standing.entry) (option_copied offered.entry) }
{
    match (offered, standing) {
        (Some(offered), Some(lsa)) => offered.is_said_by(vertex, lsa),
        (None, None) => true,
        _ => false,
    }
}

// Returns the offers of the LSA that stands for the vertex, or `None` if there is no such LSA.
fn standing_offers(
    alloc: Global,
    vertex: Vertex,
    standing: Option<&Checked>,
) -> Result<Option<Offered>, Memory>
    requires { IfSome (option_copied standing) (λ lsa. vertex_of (key_of lsa) ≡ Some vertex) }
    ensures { IfOk result (IsOfferedNow vertex (option_copied standing.entry)) }
{
    match standing {
        Some(lsa) => Ok(Some(offers_in(alloc, vertex, lsa)?)),
        None => Ok(None),
    }
}

// Returns the prefixes with their metrics, or an empty slice if there are no offers.
fn listed(offered: Option<&Offered>) -> &[OfferedPrefix]
    ensures { result.now ≡ offers_of (option_copied offered.entry) }
{
    match offered {
        Some(offered) => offered.offers(),
        None => &[],
    }
}

// Appends the prefixes of the offers that differ at the same index of the two lists. All other
// prefixes are offered alike.
fn name_differing(
    before: &[OfferedPrefix],
    after: &[OfferedPrefix],
    dirty: &mut Vec<Prefix>,
) -> Result<(), Memory>
    ensures kept { OnOk result (KeepsAll dirty.old.items dirty.new.items) }
    ensures alike { OnOk result (AreAlike dirty.new.items before.now after.now) }
{
    let (mut left, mut right) = (before, after);
    while let [one, more @ ..] = left {
        let [other, rest @ ..] = right else {
            break;
        };
        name_both(*one, *other, dirty)?;
        left = more;
        right = rest;
    }
    push_prefixes(left, dirty)?;
    push_prefixes(right, dirty)?;
    Ok(())
}

// Appends the prefixes of the two offers, if the offers differ.
fn name_both(
    one: OfferedPrefix,
    other: OfferedPrefix,
    dirty: &mut Vec<Prefix>,
) -> Result<(), Memory>
    ensures kept { OnOk result (KeepsAll dirty.old.items dirty.new.items) }
    ensures named { OnOk result (AreSameOrNamed one other dirty.new.items) }
{
    if one == other {
        return Ok(());
    }
    dirty.push(one.prefix)?;
    dirty.push(other.prefix)?;
    Ok(())
}

// Removes all sources of the vertex.
fn leave_out(sources: &mut SmallVec<PrefixSource, 1>, vertex: Vertex)
    ensures each_once { HasNoDoubles sources.old.items → HasNoDoubles sources.new.items }
    ensures left { AreLeftOut sources.old.items sources.new.items vertex }
{
    sources.retain(|source| source.vertex.vertex() != vertex);
}
