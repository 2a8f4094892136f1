//! A graph and a tree through many random changes of LSAs and interfaces. After each change the
//! repaired tree equals a tree that is built from the graph.
use crate::network::{Way, network, router};
use crate::trial::Trial;
use lsa_codec::Checked;
use ospf_types::entry::Vertex;
use spf::Tree;
use std::alloc::Global;
use std::hash::RandomState;
use std::test::Fail;
use vertex_graph::Up;

// Pseudo-random numbers (xorshift).
#[derive(Drop)]
struct Numbers(u64);

impl Numbers {
    fn below(&mut self, most: u32) -> u32 {
        self.0 ^= self.0 << 13;
        self.0 ^= self.0 >> 7;
        self.0 ^= self.0 << 17;
        let number = u32::try_from(self.0 >> 32).unwrap_or(0);
        number.checked_rem(most).unwrap_or(0)
    }

    fn one_in(&mut self, most: u32) -> bool {
        self.below(most) == 0
    }
}

// Returns the vertex with this number: one of six routers, the first of which is the root, or of
// four networks.
fn vertex_at(place: u32) -> Vertex {
    if place < 6 {
        Vertex::Router(place + 1)
    } else {
        Vertex::Network(place)
    }
}

// Returns an LSA of the vertex, with some of the links that it may have.
fn lsa(alloc: Global, numbers: &mut Numbers, vertex: Vertex) -> Result<Checked, Fail> {
    match vertex {
        Vertex::Router(id) => router_lsa(alloc, numbers, id),
        Vertex::Network(id) => network_lsa(alloc, numbers, id),
    }
}

// Returns the address of a router on its link to the neighbour with this number.
fn address(router: u32, place: u32) -> u32 {
    router.wrapping_mul(256).wrapping_add(place)
}

// Returns a link at a metric from 0 to 3.
fn link_from(numbers: &mut Numbers, id: u32, place: u32) -> Way {
    let metric = u16::try_from(numbers.below(4)).unwrap_or(1);
    (vertex_at(place), address(id, place), metric)
}

fn router_lsa(alloc: Global, numbers: &mut Numbers, id: u32) -> Result<Checked, Fail> {
    let mut ways = Vec::new(alloc);
    for place in 0..10 {
        let way = link_from(numbers, id, place);
        if numbers.one_in(2) {
            ways.push(way)?;
        }
    }
    router(alloc, id, &ways)
}

fn network_lsa(alloc: Global, numbers: &mut Numbers, id: u32) -> Result<Checked, Fail> {
    let mut routers = Vec::new(alloc);
    for router in 1..=6 {
        if !numbers.one_in(3) {
            routers.push(router)?;
        }
    }
    network(alloc, id, &routers)
}

// Replaces the LSAs of one or two vertices, removes one, or changes the interfaces.
fn change(alloc: Global, numbers: &mut Numbers, trial: &mut Trial) -> Result<(), Fail> {
    if numbers.one_in(8) {
        interfaces(alloc, numbers, trial)
    } else if numbers.one_in(2) {
        replace(alloc, numbers, trial)
    } else {
        replace_both(alloc, numbers, trial)
    }
}

fn replace(alloc: Global, numbers: &mut Numbers, trial: &mut Trial) -> Result<(), Fail> {
    let vertex = vertex_at(numbers.below(10));
    let lsa = lsa(alloc, numbers, vertex)?;
    let lsa = (!numbers.one_in(4)).then_some(&lsa);
    trial.replace(alloc, &[(vertex, lsa)])?;
    Ok(())
}

fn replace_both(alloc: Global, numbers: &mut Numbers, trial: &mut Trial) -> Result<(), Fail> {
    let place = numbers.below(10);
    let other = place.wrapping_add(numbers.below(9)).wrapping_add(1) % 10;
    let (first, second) = (vertex_at(place), vertex_at(other));
    let (one, two) = (lsa(alloc, numbers, first)?, lsa(alloc, numbers, second)?);
    trial.replace(alloc, &[(first, Some(&one)), (second, Some(&two))])?;
    Ok(())
}

// Sets most interfaces of the root up. Each has the number of the neighbour that it leads to.
fn interfaces(alloc: Global, numbers: &mut Numbers, trial: &mut Trial) -> Result<(), Fail> {
    let mut ups = Vec::new(alloc);
    for id in 0..10 {
        if !numbers.one_in(5) {
            let address = address(1, u32::from(id));
            ups.push(Up { id, address })?;
        }
    }
    trial.interfaces(alloc, &ups)?;
    Ok(())
}

// Returns true if both trees have the same distance and next hops for the vertex.
fn same(tree: &Tree, other: &Tree, vertex: Vertex) -> bool {
    tree.distance(vertex) == other.distance(vertex) && tree.hops(vertex) == other.hops(vertex)
}

// Returns true if the repaired tree equals the built one, and its changes are the vertices that
// differ from the tree before.
fn is_right(alloc: Global, repaired: &Tree, built: &Tree, before: &Tree) -> Result<bool, Fail> {
    let mut all = true;
    let mut differ = Vec::new(alloc);
    for place in 0..10 {
        let vertex = vertex_at(place);
        all &= same(repaired, built, vertex);
        if !same(repaired, before, vertex) {
            differ.push(vertex)?;
        }
    }
    Ok(all && repaired.changed() == differ.as_slice())
}

// Returns the number of vertices that the change changed. It is an error if the repaired tree is
// not the one that is built.
fn changed(
    alloc: Global,
    hashing: RandomState,
    trial: &Trial,
    before: &Tree,
) -> Result<usize, Fail> {
    let (built, _) = Tree::build(alloc, trial.graph(), hashing)?;
    differing(alloc, trial.tree(), &built, before)
}

fn differing(alloc: Global, repaired: &Tree, built: &Tree, before: &Tree) -> Result<usize, Fail> {
    if is_right(alloc, repaired, built, before)? {
        return Ok(repaired.changed().len());
    }
    Err(Fail::from("another tree"))
}

// Takes one step of the walk, and compares with the tree that is built before it.
fn step(
    alloc: Global,
    hashing: RandomState,
    numbers: &mut Numbers,
    trial: &mut Trial,
) -> Result<usize, Fail> {
    let (before, _) = Tree::build(alloc, trial.graph(), hashing)?;
    step_from(alloc, hashing, numbers, trial, &before)
}

fn step_from(
    alloc: Global,
    hashing: RandomState,
    numbers: &mut Numbers,
    trial: &mut Trial,
    before: &Tree,
) -> Result<usize, Fail> {
    change(alloc, numbers, trial)?;
    changed(alloc, hashing, trial, before)
}

// Returns the number of changed vertices, summed over 400 steps.
fn walk(alloc: Global, hashing: RandomState, trial: &mut Trial) -> Result<usize, Fail> {
    let mut numbers = Numbers(0x9e37_79b9_7f4a_7c15);
    let mut differed = 0usize;
    for _ in 0..400 {
        let changed = step(alloc, hashing, &mut numbers, trial)?;
        differed = differed.wrapping_add(changed);
    }
    Ok(differed)
}

fn walk_from_nothing(rt: &HostRuntime) -> Result<usize, Fail> {
    let hashing = RandomState::new(rt)?;
    let mut trial = Trial::new(rt.alloc(), 1, hashing)?;
    walk(rt.alloc(), hashing, &mut trial)
}

#[test]
fn a_repaired_tree_is_the_one_that_is_built(rt: HostRuntime) -> Result<(), Fail> {
    assert!(rt; walk_from_nothing(&rt)? > 400);
    Ok(())
}
