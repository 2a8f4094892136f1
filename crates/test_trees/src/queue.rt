//! The queue of a shortest-path search.
use ospf_types::WordHash;
use ospf_types::entry::Vertex;
use ospf_types::memory::Memory;
use std::hash::RandomState;
use std::test::Fail;
use vertex_map::HintedVertex;
use vertex_queue::Queue;

fn put(queue: &mut Queue, vertex: Vertex, distance: u32) -> Result<(), Memory> {
    queue.put(&HintedVertex::without_hint(vertex), distance)
}

// Returns true if the vertex is taken next, at this distance.
fn leaves(queue: &mut Queue, vertex: Vertex, distance: u32) -> bool {
    match queue.take() {
        Some((first, at)) => first.vertex() == vertex && at == distance,
        None => false,
    }
}

fn fill(queue: &mut Queue) -> Result<(), Memory> {
    put(queue, Vertex::Router(1), 10)?;
    put(queue, Vertex::Network(9), 10)?;
    put(queue, Vertex::Router(2), 30)?;
    put(queue, Vertex::Router(2), 5)?;
    put(queue, Vertex::Network(9), 20)?;
    put(queue, Vertex::Network(7), 10)
}

// Returns true if all vertices are taken in order.
fn leave(queue: &mut Queue) -> bool {
    let nearest = leaves(queue, Vertex::Router(2), 5);
    let networks = leaves(queue, Vertex::Network(7), 10) && leaves(queue, Vertex::Network(9), 10);
    let last = leaves(queue, Vertex::Router(1), 10) && queue.take().is_none();
    nearest && networks && last
}

fn enter_and_leave(queue: &mut Queue) -> Result<bool, Memory> {
    fill(queue)?;
    let put = queue.len() == 4
        && queue.get(&HintedVertex::without_hint(Vertex::Router(2))) == Some(5);
    Ok(leave(queue) && put)
}

#[test]
fn the_nearest_leaves_first_and_networks_before_routers(rt: HostRuntime) -> Result<(), Fail> {
    let mut queue = Queue::new(rt.alloc(), WordHash::new(RandomState::new(&rt)?));
    assert!(rt; enter_and_leave(&mut queue)?);
    Ok(())
}

fn clears(queue: &mut Queue) -> Result<bool, Memory> {
    put(queue, Vertex::Router(1), 1)?;
    queue.clear();
    let cleared = queue.is_empty() && queue.take().is_none();
    put(queue, Vertex::Router(1), 2)?;
    Ok(cleared && leaves(queue, Vertex::Router(1), 2))
}

#[test]
fn a_cleared_queue_can_be_used_again(rt: HostRuntime) -> Result<(), Fail> {
    let mut queue = Queue::new(rt.alloc(), WordHash::new(RandomState::new(&rt)?));
    assert!(rt; clears(&mut queue)?);
    Ok(())
}
