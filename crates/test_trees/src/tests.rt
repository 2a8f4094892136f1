//! Trees of small networks, built and repaired (RFC 2328, 16.1 and 16.1.1).
use crate::network::{Way, network, router};
use crate::trial::Trial;
use ospf_types::entry::Vertex;
use ospf_types::hop::NextHop;
use ospf_types::memory::Memory;
use spf::{Touched, Tree};
use std::alloc::Global;
use std::hash::RandomState;
use std::test::Fail;
use vertex_graph::{Graph, Up};

const ROOT: Vertex = Vertex::Router(1);

// The router on N alone.
pub(crate) const LEAF: Vertex = Vertex::Router(2);

// The neighbour at the other end of the root's point-to-point link.
pub(crate) const PEER: Vertex = Vertex::Router(3);

const LAN: u32 = 0xc000_0202;

pub(crate) const N: Vertex = Vertex::Network(LAN);

const BY_N: NextHop = NextHop::Direct(1);

pub(crate) const BY_PEER: NextHop = NextHop::Peer(2);

// The next hops at the addresses of the leaf and of the peer on N.
pub(crate) const AT_LEAF: NextHop = NextHop::Router(1, 0xc000_0202);

const AT_PEER: NextHop = NextHop::Router(1, 0xc000_0203);

// The root's two interfaces, on N and to the peer.
const UPS: [Up; 2] = [
    Up {
        id: 1,
        address: 0xc000_0201,
    },
    Up {
        id: 2,
        address: 0xc633_6401,
    },
];

// The links of the root, of the leaf and of the peer.
const OF_ROOT: [Way; 2] = [(N, 0xc000_0201, 10), (PEER, 0xc633_6401, 5)];

const OF_LEAF: [Way; 1] = [(N, 0xc000_0202, 1)];

const OF_PEER: [Way; 2] = [(ROOT, 0xc633_6402, 5), (N, 0xc000_0203, 5)];

// Connects the root, the peer, the leaf and the broadcast network N. The root reaches N at 10 over
// interface 1, and the peer at 5 over the point-to-point interface 2. The peer reaches N at 5, and
// the leaf is on N.
pub(crate) fn connect(alloc: Global, trial: &mut Trial) -> Result<(), Fail> {
    trial.interfaces(alloc, &UPS)?;
    put(alloc, trial, 1, &OF_ROOT)?;
    put(alloc, trial, 2, &OF_LEAF)?;
    put(alloc, trial, 3, &OF_PEER)?;
    list(alloc, trial, &[2, 1, 3])
}

// Replaces the router's LSA by one with these links. Returns the work of the repair.
pub(crate) fn put(
    alloc: Global,
    trial: &mut Trial,
    id: u32,
    ways: &[Way],
) -> Result<Touched, Fail> {
    let lsa = router(alloc, id, ways)?;
    Ok(trial.replace(alloc, &[(Vertex::Router(id), Some(&lsa))])?)
}

// Replaces the network-LSA of N by one of the first of these routers.
fn list(alloc: Global, trial: &mut Trial, routers: &[u32]) -> Result<(), Fail> {
    let lsa = network(alloc, LAN, routers)?;
    trial.replace(alloc, &[(N, Some(&lsa))])?;
    Ok(())
}

// A reached vertex, its distance and its next hops.
type Reached = (Vertex, u32, &'static [NextHop]);

fn has(tree: &Tree, (vertex, distance, hops): Reached) -> bool {
    tree.distance(vertex) == Some(distance) && tree.hops(vertex) == hops
}

fn has_all(tree: &Tree, reached: &[Reached]) -> bool {
    let mut all = true;
    for vertex in reached {
        all &= has(tree, *vertex);
    }
    all
}

// Returns true if the work is within the bound: twice `vertices`, plus `links`.
//
// `vertices` is a sum of three counts. The first counts the vertices that differ between the old
// links and the links that stay. The second counts the vertices that differ between these and the
// new links. The third counts the heads of the removed and added links. `links` counts the links
// out of the vertices that differ.
fn is_within(touched: Touched, (vertices, links): (usize, usize)) -> bool {
    let most = vertices.saturating_mul(2).saturating_add(links);
    touched.taken <= most && touched.hop_sets <= most
}

// New links of a router in the network, some vertices as they are reached then, the vertices that
// differ, and the bound of the work.
#[derive(Drop)]
struct LinkChange<'a> {
    router: u32,
    ways: &'a [Way],
    reached: &'a [Reached],
    differ: &'a [Vertex],
    bound: (usize, usize),
}

// Returns the number of next-hop sets that the change writes, or `None` if the tree or the work is
// not right.
fn hop_sets(rt: &HostRuntime, change: &LinkChange<'_>) -> Result<Option<usize>, Fail> {
    let mut trial = Trial::new(rt.alloc(), 1, RandomState::new(rt)?)?;
    written(rt.alloc(), &mut trial, change)
}

fn written(
    alloc: Global,
    trial: &mut Trial,
    change: &LinkChange<'_>,
) -> Result<Option<usize>, Fail> {
    connect(alloc, trial)?;
    let touched = put(alloc, trial, change.router, change.ways)?;
    let right = is_right(trial.tree(), change) && is_within(touched, change.bound);
    Ok(right.then_some(touched.hop_sets))
}

fn is_right(tree: &Tree, change: &LinkChange<'_>) -> bool {
    has_all(tree, change.reached) && tree.changed() == change.differ
}

// N has the same cost directly and over the peer, and so does the leaf, which is on N.
const AT_FIRST: [Reached; 4] = [
    (N, 10, &[BY_N, BY_PEER]),
    (LEAF, 10, &[BY_PEER, AT_LEAF]),
    (PEER, 5, &[BY_PEER]),
    (ROOT, 0, &[]),
];

fn unites(alloc: Global, trial: &mut Trial) -> Result<bool, Fail> {
    connect(alloc, trial)?;
    Ok(has_all(trial.tree(), &AT_FIRST))
}

fn paths_unite(rt: &HostRuntime) -> Result<bool, Fail> {
    let mut trial = Trial::new(rt.alloc(), 1, RandomState::new(rt)?)?;
    unites(rt.alloc(), &mut trial)
}

#[test]
fn equal_cost_paths_unite(rt: HostRuntime) -> Result<(), Fail> {
    assert!(rt; paths_unite(&rt)?);
    Ok(())
}

// N and the leaf lose next hops with the peer's old link to N, and the new link changes nothing
// more. N is the head of both links, and four links lead out of N and the leaf.
const DEARER: LinkChange<'static> = LinkChange {
    router: 3,
    ways: &[(ROOT, 0xc633_6402, 5), (N, 0xc000_0203, 6)],
    reached: &[
        (N, 10, &[BY_N]),
        (LEAF, 10, &[AT_LEAF]),
        (PEER, 5, &[BY_PEER]),
    ],
    differ: &[LEAF, N],
    bound: (3, 4),
};

#[test]
fn a_dearer_link_takes_a_path_away(rt: HostRuntime) -> Result<(), Fail> {
    assert!(rt; hop_sets(&rt, &DEARER)? >= Some(2));
    Ok(())
}

// The leaf is the head of the link with its old address and of the link with the new one. Without
// them it is not reached. One link leads out of it, before and after.
const MOVED: LinkChange<'static> = LinkChange {
    router: 2,
    ways: &[(N, 0xc000_0204, 1)],
    reached: &[(LEAF, 10, &[BY_PEER, NextHop::Router(1, 0xc000_0204)])],
    differ: &[LEAF],
    bound: (3, 2),
};

#[test]
fn another_address_is_another_hop(rt: HostRuntime) -> Result<(), Fail> {
    assert!(rt; hop_sets(&rt, &MOVED)?.is_some());
    Ok(())
}

// The links between the root and the peer are removed, in both directions. N, the leaf and the peer
// differ, and five links lead out of them.
const CUT: LinkChange<'static> = LinkChange {
    router: 3,
    ways: &[(N, 0xc000_0203, 5)],
    reached: &[
        (N, 10, &[BY_N]),
        (LEAF, 10, &[AT_LEAF]),
        (PEER, 10, &[AT_PEER]),
    ],
    differ: &[LEAF, PEER, N],
    bound: (5, 5),
};

#[test]
fn a_link_that_goes_leaves_the_longer_way(rt: HostRuntime) -> Result<(), Fail> {
    assert!(rt; hop_sets(&rt, &CUT)?.is_some());
    Ok(())
}

// N and the leaf differ without the peer's link to N, and again with the new link. N is the head of
// both links. Four links lead out of N and the leaf, before and after.
const CHEAPER: LinkChange<'static> = LinkChange {
    router: 3,
    ways: &[(ROOT, 0xc633_6402, 5), (N, 0xc000_0203, 4)],
    reached: &[
        (N, 9, &[BY_PEER]),
        (LEAF, 9, &[BY_PEER]),
        (PEER, 5, &[BY_PEER]),
    ],
    differ: &[LEAF, N],
    bound: (5, 8),
};

#[test]
fn a_cheaper_link_takes_all(rt: HostRuntime) -> Result<(), Fail> {
    assert!(rt; hop_sets(&rt, &CHEAPER)?.is_some());
    Ok(())
}

const PAIR_UPS: [Up; 2] = [Up { id: 1, address: 7 }, Up { id: 2, address: 8 }];

// Connects the root and the peer by these links.
fn join(alloc: Global, trial: &mut Trial, ways: &[Way], back: &[Way]) -> Result<(), Fail> {
    trial.interfaces(alloc, &PAIR_UPS)?;
    put(alloc, trial, 1, ways)?;
    put(alloc, trial, 3, back)?;
    Ok(())
}

// Returns the distance of the peer with these links back, and the number of links out of it.
fn with_links_back(rt: &HostRuntime, back: &[Way]) -> Result<(Option<u32>, usize), Fail> {
    let mut trial = Trial::new(rt.alloc(), 1, RandomState::new(rt)?)?;
    joined(rt.alloc(), &mut trial, back)
}

fn joined(alloc: Global, trial: &mut Trial, back: &[Way]) -> Result<(Option<u32>, usize), Fail> {
    join(alloc, trial, &[(PEER, 7, 5)], back)?;
    let links = trial.graph().links_from(PEER).len();
    Ok((trial.tree().distance(PEER), links))
}

// The link back counts at any metric. At metric 0 it is not a link of the graph itself.
#[test]
fn a_link_counts_with_its_link_back(rt: HostRuntime) -> Result<(), Fail> {
    let (away, _) = with_links_back(&rt, &[])?;
    let free = with_links_back(&rt, &[(ROOT, 9, 0)])?;
    assert!(rt; away.is_none() && free == (Some(5), 0));
    Ok(())
}

const PARALLEL: Reached = (PEER, 5, &[NextHop::Peer(1), NextHop::Peer(2)]);

// Returns true if a tree built from the graph has both next hops to the peer, and one next-hop set
// was written for it.
fn has_built(rt: &HostRuntime, graph: &Graph) -> Result<bool, Fail> {
    let (tree, touched) = Tree::build(rt.alloc(), graph, RandomState::new(rt)?)?;
    let work = touched.taken >= 1 && touched.hop_sets == 1;
    Ok(work && has(&tree, PARALLEL) && !tree.spent())
}

// Returns true if the built tree and the repaired tree have both next hops to the peer.
fn are_peers(rt: &HostRuntime, trial: &mut Trial) -> Result<bool, Fail> {
    let ways = [(PEER, 7, 5), (PEER, 8, 5)];
    join(rt.alloc(), trial, &ways, &[(ROOT, 9, 65535)])?;
    Ok(has_built(rt, trial.graph())? && has(trial.tree(), PARALLEL))
}

fn links_are_peers(rt: &HostRuntime) -> Result<bool, Fail> {
    let mut trial = Trial::new(rt.alloc(), 1, RandomState::new(rt)?)?;
    are_peers(rt, &mut trial)
}

#[test]
fn parallel_links_are_two_peers(rt: HostRuntime) -> Result<(), Fail> {
    assert!(rt; links_are_peers(&rt)?);
    Ok(())
}

const WITH_LEAF: Reached = (LEAF, 10, &[BY_PEER, AT_LEAF]);

// Returns true if the leaf is lost with another network-LSA, and reached again with the first one.
fn goes_and_comes(alloc: Global, trial: &mut Trial) -> Result<bool, Fail> {
    connect(alloc, trial)?;
    list(alloc, trial, &[3, 1])?;
    let away = trial.tree().distance(LEAF).is_none();
    list(alloc, trial, &[2, 1, 3])?;
    let changed = trial.tree().changed() == [LEAF].as_slice();
    Ok(away && changed && has(trial.tree(), WITH_LEAF))
}

fn leaf_goes_and_comes(rt: &HostRuntime) -> Result<bool, Fail> {
    let mut trial = Trial::new(rt.alloc(), 1, RandomState::new(rt)?)?;
    goes_and_comes(rt.alloc(), &mut trial)
}

// A network-LSA of another router replaces that of N, and does not list the leaf. Then the first
// one is used again.
#[test]
fn another_network_lsa_stands_for_a_network(rt: HostRuntime) -> Result<(), Fail> {
    assert!(rt; leaf_goes_and_comes(&rt)?);
    Ok(())
}

const LONGER: Reached = (PEER, 10, &[AT_PEER]);

// Returns true if the tree is spent and reports nothing, and a built tree has the longer path.
fn is_rebuilt(rt: &HostRuntime, trial: &Trial) -> Result<bool, Fail> {
    let tree = trial.tree();
    let blank = tree.distance(N).is_none() && tree.hops(LEAF).is_empty();
    let blank = blank && tree.changed().is_empty() && tree.spent();
    let (built, _) = Tree::build(rt.alloc(), trial.graph(), RandomState::new(rt)?)?;
    Ok(blank && has(&built, LONGER) && !built.spent())
}

// Removes the peer's link to the root.
fn cut(alloc: Global, trial: &mut Trial) -> Result<Result<Touched, Memory>, Fail> {
    let lsa = router(alloc, 3, CUT.ways)?;
    Ok(trial.replace(alloc, &[(PEER, Some(&lsa))]))
}

// Returns true if the tree has the longer path, or is spent. If the graph is refused memory, it is
// unchanged, and the error is returned.
fn is_cut(rt: &HostRuntime, trial: &mut Trial) -> Result<bool, Fail> {
    connect(rt.alloc(), trial)?;
    let touched = cut(rt.alloc(), trial)?;
    if trial.graph().links_from(PEER).len() == 2 {
        touched?;
    }
    match touched {
        Ok(_) => Ok(has(trial.tree(), LONGER) && !trial.tree().spent()),
        Err(_) => is_rebuilt(rt, trial),
    }
}

fn link_is_cut(rt: &HostRuntime) -> Result<bool, Fail> {
    let mut trial = Trial::new(rt.alloc(), 1, RandomState::new(rt)?)?;
    is_cut(rt, &mut trial)
}

// A repair that is refused memory spends the tree. A spent tree reports nothing, and building makes
// another.
#[test]
fn a_refused_repair_spends_the_tree(rt: HostRuntime) -> Result<(), Fail> {
    assert!(rt; link_is_cut(&rt)?);
    Ok(())
}
