//! Paths to vertices, link by link (RFC 2328, 16.1 and 16.1.1).
use crate::network::Way;
use crate::tests::{AT_LEAF, BY_PEER, LEAF, N, PEER, connect, put};
use crate::trial::Trial;
use ospf_types::entry::Vertex;
use ospf_types::hop::NextHop;
use std::alloc::Global;
use std::hash::RandomState;
use std::test::Fail;
use vertex_graph::{GraphLink, Up};

/// Returns true if the links lead to these vertices in this order, at these metrics.
pub(crate) fn leads(links: &[&GraphLink], to: &[(Vertex, u16)]) -> bool {
    let mut all = links.len() == to.len();
    for (link, (vertex, cost)) in links.iter().zip(to) {
        all &= link.to.vertex() == *vertex && link.cost == *cost;
    }
    all
}

// Returns true if two next hops of the leaf have their paths, and a third one has no path. The
// paths lead over N alone, and over the peer and N.
fn are_both(alloc: Global, trial: &mut Trial) -> Result<bool, Fail> {
    connect(alloc, trial)?;
    let direct = trial.path(alloc, LEAF, AT_LEAF)?;
    let by_peer = trial.path(alloc, LEAF, BY_PEER)?;
    let none = trial.path(alloc, LEAF, NextHop::Peer(1))?;
    let both = leads(&direct, &[(N, 10), (LEAF, 0)])
        && leads(&by_peer, &[(PEER, 5), (N, 5), (LEAF, 0)]);
    Ok(both && none.is_empty())
}

fn paths_are_both(rt: &HostRuntime) -> Result<bool, Fail> {
    let mut trial = Trial::new(rt.alloc(), 1, RandomState::new(rt)?)?;
    are_both(rt.alloc(), &mut trial)
}

#[test]
fn each_next_hop_has_its_path(rt: HostRuntime) -> Result<(), Fail> {
    assert!(rt; paths_are_both(&rt)?);
    Ok(())
}

const LAST: u32 = 600;

// Returns the links of a router in a line, each at metric 3 and with the router's number as its
// Link Data.
fn ways_of(router: u32) -> [Way; 2] {
    let before = Vertex::Router(router.wrapping_sub(1));
    let after = Vertex::Router(router.wrapping_add(1));
    [(before, router, 3), (after, router, 3)]
}

// Returns the number of links on the path to the last router of the line, and their cost.
fn through_line(alloc: Global, trial: &mut Trial) -> Result<(usize, u32), Fail> {
    trial.interfaces(alloc, &[Up { id: 7, address: 1 }])?;
    for router in 1..=LAST {
        put(alloc, trial, router, &ways_of(router))?;
    }
    let links = trial.path(alloc, Vertex::Router(LAST), NextHop::Peer(7))?;
    Ok((links.len(), cost_of(&links)))
}

fn cost_of(links: &[&GraphLink]) -> u32 {
    let mut cost = 0u32;
    for link in links {
        cost = cost.wrapping_add(u32::from(link.cost));
    }
    cost
}

fn line(rt: &HostRuntime) -> Result<(usize, u32), Fail> {
    let mut trial = Trial::new(rt.alloc(), 1, RandomState::new(rt)?)?;
    through_line(rt.alloc(), &mut trial)
}

#[test]
fn a_path_leads_through_a_long_line(rt: HostRuntime) -> Result<(), Fail> {
    assert!(rt; line(&rt)? == (599, 1797));
    Ok(())
}
