//! The staging of a change, before any row changes.
ghost use Rattle.std.specs.Prelude.{◌≡◌, ◌≢◌, ◌↔◌, None, [], IsTrue, OnOk, IfOk, Contains};
ghost use Rattle.std.specs.List.{AllPairs};
ghost use Rattle.std.specs.FinMap.{find};
ghost use Rattle.ospf_types.specs.declared.entry.Vertex.{Vertex as VertexValue};
ghost use Rattle.ospf_types.specs.declared.entry.Vertex.TheVariants.{Router};
ghost use Rattle.ospf_types.specs.Vertices.{vertex_cmp};
ghost use Rattle.vertex_graph.specs.Graphs.{handed_of, AreApartHanded};
ghost use Rattle.vertex_graph.specs.Stagings.{HasTouched, IsGivenBy, AreVerticesWithin, LeadsAlike};
ghost use Rattle.vertex_graph.specs.Stagings.{StagesAll, StagesOne, TouchesCome, TouchesGone};
ghost use Rattle.vertex_graph.specs.Stagings.{TouchesNeighbours, TouchesOthers, TouchesUnless};

use crate::ends::ends_of;
use graph_links::{
    GraphLink, LinkEnd, Row, Rows, StagedEnds, ends_of_row, ends_or_empty, find_row, hinted_by,
    out_links, staged_ends,
};
use indexmap::IndexMap;
use lsa_codec::Checked;
use ospf_types::WordHash;
use ospf_types::entry::Vertex;
use ospf_types::memory::Memory;
use std::alloc::Global;
use vertex_map::HintedVertex;

/// The staged part of a change: the vertices with other link ends than before, and the vertices
/// whose rows may change.
///
/// Touched are the staged vertices, and the vertices at ends that they lose or gain. A changed end
/// is lost and gained.
pub(crate) struct Staging {
    /// The new link ends of the staged vertices.
    pub(crate) ends: StagedEnds,
    /// The vertices whose rows may change.
    pub(crate) touched: Vec<HintedVertex>,
}

// proof: a value is dropped by one call, not part by part at each exit of a function.
impl Drop for Staging {
    fn drop(self) {
        let Staging {
            ends: _ends,
            touched: _touched,
        } = self;
    }
}

// The maximum number of vertices that are searched one by one, and whose memory is kept.
const FEW: usize = 8;

impl Staging {
    /// Creates an empty staging.
    pub(crate) fn new(alloc: Global, hashing: WordHash) -> Staging
        ensures ends { result.ends.entries ≡ [] }
        ensures touched { result.touched.items ≡ [] }
    {
        Staging {
            ends: IndexMap::with_hasher(alloc, hashing),
            touched: Vec::new(alloc),
        }
    }

    // Clears the staging, and gives back the memory if many vertices were staged.
    fn clear(&mut self, alloc: Global)
        ensures ends { self.new.ends.entries ≡ [] }
        ensures touched { self.new.touched.items ≡ [] }
    {
        if self.ends.len() > FEW {
            *self = Staging::new(alloc, *self.ends.hasher());
        } else {
            self.ends.clear();
            self.touched.clear();
        }
    }
}

/// Stages the vertices whose link ends change by these LSAs, and lists the touched vertices without
/// duplicates. A vertex without an LSA is removed.
pub(crate) fn stage(
    alloc: Global,
    rows: &Rows,
    lsas: &[(Vertex, Option<&Checked>)],
    staging: &mut Staging,
) -> Result<(), Memory>
    requires apart { AreApartHanded (handed_of lsas.now) }
    ensures handed { OnOk result (StagesAll rows.now.entries (handed_of lsas.now) staging.new) }
    ensures touched { OnOk result (HasTouched rows.now.entries staging.new) }
    ensures once { OnOk result (AllPairs (λ v w. v ≢ w) staging.new.touched.items) }
{
    staging.clear(alloc);
    for (vertex, lsa) in lsas {
        let ends = given_ends(alloc, *vertex, *lsa)?;
        stage_one(rows, *vertex, ends, staging)?;
    }
    keep_once(&mut staging.touched);
    Ok(())
}

// Sorts the vertices and removes duplicates.
fn keep_once(touched: &mut Vec<HintedVertex>)
    ensures same { (v : VertexValue) → Contains touched.new.items v ↔ Contains touched.old.items v }
    ensures once { AllPairs (λ v w. v ≢ w) touched.new.items }
{
    touched.sort_unstable_by_key(|one| one.vertex());
    touched.dedup_by_key(|one| one.vertex());
}

// Returns the link ends of the LSA, or `None` if the LSA is removed.
fn given_ends(
    alloc: Global,
    vertex: Vertex,
    lsa: Option<&Checked>,
) -> Result<Option<Vec<LinkEnd>>, Memory>
    ensures { IfOk result (IsGivenBy vertex lsa.entry) }
{
    match lsa {
        Some(lsa) => {
            let ends = ends_of(alloc, vertex, lsa)?;
            Ok(Some(ends))
        }
        None => Ok(None),
    }
}

// Stages the vertex and what it touches, unless its link ends are the same as before.
fn stage_one(
    rows: &Rows,
    vertex: Vertex,
    ends: Option<Vec<LinkEnd>>,
    staging: &mut Staging,
) -> Result<(), Memory>
    requires new { find vertex_cmp vertex staging.old.ends.entries ≡ None }
    requires touched { HasTouched rows.now.entries staging.old }
    ensures ends { OnOk result (StagesOne rows.now.entries vertex ends staging.old staging.new) }
    ensures touched { OnOk result (HasTouched rows.now.entries staging.new) }
{
    let (row, place) = find_row(rows, &HintedVertex::without_hint(vertex));
    let after = staged_ends(&ends);
    if is_same(ends_of_row(row), after) {
        return Ok(());
    }
    let placed = HintedVertex::new(vertex, place);
    touch_both(&placed, row, ends_or_empty(after), &mut staging.touched)?;
    staging.ends.insert(vertex, ends)?;
    Ok(())
}

// Returns true if the link ends are the same.
fn is_same(before: Option<&[LinkEnd]>, after: Option<&[LinkEnd]>) -> bool
    ensures { IsTrue result → LeadsAlike before.entry after.entry }
{
    match (before, after) {
        (Some(before), Some(after)) => before == after,
        (None, None) => true,
        _ => false,
    }
}

// Ends that are compared with other ends of the same vertex, and the links from the vertex, which
// have hints.
#[derive(Clone, Copy)]
struct Others<'a> {
    ends: &'a [LinkEnd],
    links: &'a [GraphLink],
}

// Touches the vertex, and the vertices at ends that are only in its row or only in `after`.
fn touch_both(
    vertex: &HintedVertex,
    before: Option<&Row>,
    after: &[LinkEnd],
    touched: &mut Vec<HintedVertex>,
) -> Result<(), Memory>
    ensures own { OnOk result (Contains touched.new.items vertex.now) }
    ensures kept { OnOk result (AreVerticesWithin touched.old.items touched.new.items) }
    ensures gone { OnOk result (TouchesGone before.entry after.now touched.new.items) }
    ensures came { OnOk result (TouchesCome before.entry after.now touched.new.items) }
{
    let ends = ends_or_empty(ends_of_row(before));
    let links = out_links(before);
    touch_vertex(vertex, touched)?;
    touch(ends, Others { ends: after, links }, touched)?;
    touch(after, Others { ends, links }, touched)?;
    Ok(())
}

// Touches the vertices at the ends that are not among the others.
fn touch(
    ends: &[LinkEnd],
    others: Others<'_>,
    touched: &mut Vec<HintedVertex>,
) -> Result<(), Memory>
    ensures kept { OnOk result (AreVerticesWithin touched.old.items touched.new.items) }
    ensures others { OnOk result (TouchesOthers ends.now others.entry.ends.now touched.new.items) }
{
    for (place, end) in ends.iter().enumerate() {
        touch_end(*end, place, others, touched)?;
    }
    Ok(())
}

// Touches the vertex at the end, unless the end is among the others. There it usually has the same
// index.
fn touch_end(
    end: LinkEnd,
    place: usize,
    others: Others<'_>,
    touched: &mut Vec<HintedVertex>,
) -> Result<(), Memory>
    ensures kept { OnOk result (AreVerticesWithin touched.old.items touched.new.items) }
    ensures other { OnOk result (TouchesUnless end others.entry.ends.now touched.new.items) }
{
    if has_at(others.ends, place, end) || has_end(others.ends, end) {
        return Ok(());
    }
    touch_vertex(&hinted_by(others.links, place, end.to), touched)
}

// Touches the vertex. If there are many, duplicates are left to `keep_once`.
fn touch_vertex(vertex: &HintedVertex, touched: &mut Vec<HintedVertex>) -> Result<(), Memory>
    ensures own { OnOk result (Contains touched.new.items vertex.now) }
    ensures kept { OnOk result (AreVerticesWithin touched.old.items touched.new.items) }
{
    if touched.len() <= FEW && is_touched(vertex, touched) {
        return Ok(());
    }
    touched.push(vertex.copy())?;
    Ok(())
}

// Returns true if the vertex is already touched.
fn is_touched(vertex: &HintedVertex, touched: &[HintedVertex]) -> bool
    ensures { IsTrue result → Contains touched.now vertex.now }
{
    for other in touched {
        if other.vertex() == vertex.vertex() {
            return true;
        }
    }
    false
}

// Returns true if the end has this index among the ends.
fn has_at(ends: &[LinkEnd], place: usize, end: LinkEnd) -> bool
    ensures { IsTrue result → Contains ends.now end }
{
    match ends.get(place) {
        Some(other) => is_same_end(*other, end),
        None => false,
    }
}

// Returns true if the ends are equal.
fn is_same_end(one: LinkEnd, other: LinkEnd) -> bool
    ensures { IsTrue result ↔ (one ≡ other) }
{
    one.to == other.to && one.detail == other.detail && one.metric == other.metric
}

// Returns true if the end is among the ends. They should be in order: if they are not, an end may
// be missed.
fn has_end(ends: &[LinkEnd], end: LinkEnd) -> bool
    ensures { IsTrue result → Contains ends.now end }
{
    ends.binary_search(&end).is_ok()
}

/// Touches the root and the vertices at its link ends, whose links depend on the area's interfaces.
/// No ends are staged.
pub(crate) fn stage_root(
    alloc: Global,
    rows: &Rows,
    root: u32,
    staging: &mut Staging,
) -> Result<(), Memory>
    ensures ends { OnOk result (staging.new.ends.entries ≡ []) }
    ensures root { OnOk result (Contains staging.new.touched.items (Router root)) }
    ensures neighbours { OnOk result (TouchesNeighbours rows.now.entries root staging.new) }
    ensures once { OnOk result (AllPairs (λ v w. v ≢ w) staging.new.touched.items) }
{
    staging.clear(alloc);
    let vertex = Vertex::Router(root);
    let (row, place) = find_row(rows, &HintedVertex::without_hint(vertex));
    touch_both(
        &HintedVertex::new(vertex, place),
        row,
        &[],
        &mut staging.touched,
    )?;
    keep_once(&mut staging.touched);
    Ok(())
}
