//! The links of a graph, which LSAs and interfaces add and remove.
use crate::network::{network, router};
use crate::trial::{hand_in, test_size};
use ospf_types::entry::Vertex;
use std::alloc::Global;
use std::hash::RandomState;
use std::test::Fail;
use vertex_graph::{Graph, GraphLink, Up};

const ROUTER: u32 = 0x0a00_0001;

const ADDRESS: u32 = 0xc000_0201;

const SECOND: u32 = 0xc000_0209;

const ROOT: Vertex = Vertex::Router(ROUTER);

const N: Vertex = Vertex::Network(ADDRESS);

// Returns true if there is one link, over this interface or to these addresses.
fn is_one(links: &[GraphLink], interface: u8, addresses: &[u32]) -> bool {
    match links {
        [link] => match link.label.interface() {
            Some(id) => id == interface,
            None => !addresses.is_empty() && link.label.addresses() == addresses,
        },
        _ => false,
    }
}

// Returns true if the link from the network is added: 10.0.0.1 has the address 192.0.2.1 on the
// transit network 192.0.2.1, at metric 10.
fn comes(alloc: Global, graph: &mut Graph) -> Result<bool, Fail> {
    let own = router(alloc, ROUTER, &[(N, ADDRESS, 10)])?;
    let other = network(alloc, ADDRESS, &[ROUTER])?;
    let changes = hand_in(graph, &[(ROOT, Some(&own)), (N, Some(&other))])?;
    Ok(changes.gone.is_empty() && is_one(&changes.came, 0, &[ADDRESS]))
}

// Returns true if the link from the network leads to both addresses after 192.0.2.9 is added.
fn comes_at_two(alloc: Global, graph: &mut Graph) -> Result<bool, Fail> {
    let own = router(alloc, ROUTER, &[(N, ADDRESS, 10), (N, SECOND, 10)])?;
    let changes = hand_in(graph, &[(ROOT, Some(&own))])?;
    let back = is_one(graph.links_to(ROOT), 0, &[ADDRESS, SECOND]);
    let came = is_one(&changes.came, 0, &[ADDRESS, SECOND]);
    Ok(back && came && is_one(&changes.gone, 0, &[ADDRESS]))
}

// Returns true if the link to the network leads over the interface once it is up.
fn goes_over(graph: &mut Graph) -> Result<bool, Fail> {
    let changes = graph.interfaces(&[Up {
        id: 7,
        address: ADDRESS,
    }])?;
    let links = is_one(graph.links_from(ROOT), 7, &[]);
    let back = is_one(graph.links_to(ROOT), 0, &[ADDRESS]);
    Ok(changes.gone.is_empty() && is_one(&changes.came, 7, &[]) && links && back)
}

// Returns true if both links are removed with the network.
fn goes(graph: &mut Graph) -> Result<bool, Fail> {
    test_size(graph, &[(N, None)])?;
    let changes = graph.replace(N, None)?;
    Ok(changes.came.is_empty() && changes.gone.len() == 2 && graph.len() == 1)
}

fn come_and_go(alloc: Global, graph: &mut Graph) -> Result<bool, Fail> {
    let came = comes(alloc, graph)?;
    let moved = goes_over(graph)?;
    let gone = goes(graph)?;
    Ok(came && moved && gone && graph.has_root() && graph.root() == ROUTER)
}

#[test]
fn links_come_and_go(rt: HostRuntime) -> Result<(), Fail> {
    let hashing = RandomState::new(&rt)?;
    let mut graph = Graph::new(rt.alloc(), ROUTER, hashing);
    assert!(rt; come_and_go(rt.alloc(), &mut graph)?);
    Ok(())
}

#[test]
fn a_link_leads_to_two_addresses(rt: HostRuntime) -> Result<(), Fail> {
    let hashing = RandomState::new(&rt)?;
    let mut graph = Graph::new(rt.alloc(), ROUTER, hashing);
    assert!(rt; comes(rt.alloc(), &mut graph)?);
    assert!(rt; comes_at_two(rt.alloc(), &mut graph)?);
    Ok(())
}
