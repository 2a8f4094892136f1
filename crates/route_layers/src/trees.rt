//! The trees of the areas.
ghost use Rattle.std.specs.Prelude.{◌≡◌, ◌↔◌, ◌≤◌, ◌+◌, ◌++◌, min, true, map as list_map, List};
ghost use Rattle.std.specs.Prelude.{Contains, IsTrue, IsSome, IfOk, OnOk};
ghost use Rattle.ospf_types.specs.declared.key.Key.{Key as KeyValue};
ghost use Rattle.spf.specs.Touched.{Touched as TouchedValue};
ghost use Rattle.spf.specs.TreeValues.{IsWorkForAll, IsWorkDone};
ghost use Rattle.vertex_graph.specs.Graphs.{max_routers};
ghost use Rattle.area_trees.specs.Areas.{IsWorkBounded};
ghost use Rattle.spf.specs.TreeValues.{AreOthersKept};
ghost use Rattle.event_state.specs.States.{State as StateValue, place_of};
ghost use Rattle.route_layers.specs.Trees.{IsTreeFor, AreTreesOf, StatesDifferAmong};
ghost use Rattle.route_layers.specs.Turns.{AreFollowed};
ghost use Rattle.route_layers.specs.Works.{AreWorksForAll, IsTotal, most_count};

use crate::inputs::ups;
use area_trees::AreaTree;
use event_state::State;
use ospf_types::entry::Vertex;
use ospf_types::key::{Key, Scope};
use ospf_types::memory::Memory;
use spf::Touched;
use std::alloc::Global;
use std::hash::RandomState;

/// Builds the tree of each area. Returns the trees in the order of the configuration, and the work.
pub fn build_trees(
    alloc: Global,
    state: &State,
    hashing: RandomState,
) -> Result<(Vec<AreaTree>, Touched), Memory>
    requires few { state.now.limits.area_lsas ≤ max_routers }
    ensures right { IfOk result (λ built.
        AreTreesOf state.now state.now.config.areas built.0.items) }
    ensures work { IfOk result (λ built. (works : List TouchedValue)
        × AreWorksForAll built.0.items works × IsTotal works built.1) }
{
    let mut trees = Vec::new(alloc);
    let mut work = Touched::none();
    for area in state.config().areas.as_slice() {
        let (tree, touched) = build_tree(alloc, state, area.id, hashing)?;
        trees.push(tree)?;
        work = both(work, touched);
    }
    Ok((trees, work))
}

// Builds the tree of an area.
fn build_tree(
    alloc: Global,
    state: &State,
    area: u32,
    hashing: RandomState,
) -> Result<(AreaTree, Touched), Memory>
    requires few { state.now.limits.area_lsas ≤ max_routers }
    requires there { IsSome (place_of state.now.config.areas (Scope.Area area)) }
    ensures right { IfOk result (λ built. IsTreeFor state.now area built.0) }
    ensures work { IfOk result (λ built. IsWorkForAll built.0.area.graph built.0.tree
        built.1.taken built.1.hop_sets) }
{
    let Some(database) = state.database(Scope::Area(area)) else {
        unreachable!()
    };
    let ups = ups(alloc, state, area)?;
    AreaTree::build(alloc, state.config().router, database, &ups, hashing)
}

/// A state, and the LSAs and interfaces in which it differs from the previous state.
#[derive(Clone, Copy)]
pub struct ChangedState<'a> {
    pub state: &'a State,
    /// The keys of these LSAs.
    pub keys: &'a [(Scope, Key)],
    /// The ids of these interfaces.
    pub interfaces: &'a [u8],
}

/// Updates the trees to the state. Appends the vertices whose distance or next hops changed, each
/// with its Area ID, and returns the work.
///
/// The previous state may also have other address ranges: trees do not depend on them.
///
/// # Errors
///
/// Returns `Memory` if memory runs out. Some trees are then updated and others are not, so the
/// caller has to build them again.
pub fn follow_trees(
    alloc: Global,
    trees: &mut [AreaTree],
    changed: ChangedState<'_>,
    vertices: &mut Vec<(u32, Vertex)>,
) -> Result<Touched, Memory>
    requires few { changed.state.now.limits.area_lsas ≤ max_routers }
    requires before { (before : StateValue) × AreTreesOf before before.config.areas trees.old
        × StatesDifferAmong changed.keys.now changed.interfaces.now true before
        changed.state.now }
    ensures { IfOk result (λ work. AreFollowed changed.entry.state.now
        changed.entry.state.now.config.areas trees.old trees.new vertices.new.items work) }
{
    let mut work = Touched::none();
    for (place, area) in changed.state.config().areas.as_slice().iter().enumerate() {
        let tree = &mut trees[place];
        let touched = follow_tree(alloc, tree, changed, area.id)?;
        push_changed(area.id, tree, vertices)?;
        work = both(work, touched);
    }
    Ok(work)
}

// Updates the tree of an area to the state.
fn follow_tree(
    alloc: Global,
    tree: &mut AreaTree,
    changed: ChangedState<'_>,
    area: u32,
) -> Result<Touched, Memory>
    requires few { changed.state.now.limits.area_lsas ≤ max_routers }
    requires there { IsSome (place_of changed.state.now.config.areas (Scope.Area area)) }
    requires before { (before : StateValue) × IsTreeFor before area tree.old
        × StatesDifferAmong changed.keys.now changed.interfaces.now true before
        changed.state.now }
    ensures right { OnOk result (IsTreeFor changed.entry.state.now area tree.new) }
    ensures others { OnOk result (AreOthersKept tree.old.tree tree.new.tree) }
    ensures bounded { IfOk result (λ touched.
        IsWorkBounded tree.old tree.new touched.taken touched.hop_sets) }
    ensures work { IfOk result (λ touched. IsWorkDone tree.new.area.graph
        tree.old.tree tree.new.tree touched.taken touched.hop_sets) }
{
    if !changed.interfaces.is_empty() {
        let ups = ups(alloc, changed.state, area)?;
        return tree.interfaces(alloc, &ups);
    }
    let Some(database) = changed.state.database(Scope::Area(area)) else {
        unreachable!()
    };
    let keys = keys_of(alloc, area, changed.keys)?;
    tree.follow(alloc, database, &keys)
}

// Returns the keys in the area's database.
fn keys_of(alloc: Global, area: u32, keys: &[(Scope, Key)]) -> Result<Vec<Key>, Memory>
    ensures { IfOk result (λ found. (key : KeyValue)
        → Contains found.items key ↔ Contains keys.now (Scope.Area area, key)) }
{
    let mut found = Vec::new(alloc);
    for (scope, key) in keys {
        if is_area(*scope, area) {
            found.push(*key)?;
        }
    }
    Ok(found)
}

// Returns true if the scope is the area.
fn is_area(scope: Scope, area: u32) -> bool
    ensures { IsTrue result ↔ (scope ≡ Scope.Area area) }
{
    matches!(scope, Scope::Area(id) if id == area)
}

// Appends the vertices that changed, each with the Area ID.
fn push_changed(area: u32, tree: &AreaTree, vertices: &mut Vec<(u32, Vertex)>) -> Result<(), Memory>
    ensures { OnOk result (vertices.new.items
        ≡ vertices.old.items ++ list_map (λ v. (area, v)) tree.now.tree.changed) }
{
    for vertex in tree.changed() {
        vertices.push((area, *vertex))?;
    }
    Ok(())
}

// Returns the sum of the work, up to the greatest count.
fn both(a: Touched, b: Touched) -> Touched
    ensures taken { result.taken ≡ min (a.taken + b.taken) most_count }
    ensures hop_sets { result.hop_sets ≡ min (a.hop_sets + b.hop_sets) most_count }
{
    Touched {
        taken: a.taken.saturating_add(b.taken),
        hop_sets: a.hop_sets.saturating_add(b.hop_sets),
    }
}
