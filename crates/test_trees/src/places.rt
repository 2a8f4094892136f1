//! Values by vertex, looked up with right and wrong hints.
ghost use Rattle.std.specs.Prelude.{◌<◌};

use ospf_types::WordHash;
use ospf_types::entry::Vertex;
use ospf_types::memory::Memory;
use std::hash::RandomState;
use std::test::Fail;
use vertex_map::{HintedVertex, VertexMap};

// Inserts 100 routers, with descending hints.
fn fill(map: &mut VertexMap<u32>) -> Result<(), Memory> {
    for number in 0..100u32 {
        map.insert(
            &HintedVertex::new(Vertex::Router(number), 99 - number),
            number,
        )?;
    }
    Ok(())
}

fn at(map: &VertexMap<u32>, vertex: &HintedVertex) -> Option<u32> {
    map.get(vertex).copied()
}

// Returns true if the router's number is found with each of three hints, and the network with the
// same number has no value.
fn is_there(map: &VertexMap<u32>, number: u32) -> bool
    requires { number < 100 }
{
    let vertex = Vertex::Router(number);
    at(map, &HintedVertex::new(vertex, 99 - number)) == Some(number)
        && at(map, &HintedVertex::new(vertex, number)) == Some(number)
        && at(map, &HintedVertex::without_hint(vertex)) == Some(number)
        && at(
            map,
            &HintedVertex::new(Vertex::Network(number), 99 - number),
        )
        .is_none()
}

fn finds_all(map: &mut VertexMap<u32>) -> Result<bool, Memory> {
    fill(map)?;
    let mut found = map.len() == 100;
    for number in 0..100u32 {
        found = found & is_there(map, number);
    }
    Ok(found)
}

#[test]
fn a_vertex_is_found_wherever_it_is_looked_for(rt: HostRuntime) -> Result<(), Fail> {
    let mut map = VertexMap::new(rt.alloc(), WordHash::new(RandomState::new(&rt)?));
    assert!(rt; finds_all(&mut map)?);
    Ok(())
}

// Returns true if only the first 10 routers and a new network are left, after 90 were removed and
// the map was trimmed.
fn most_go(map: &mut VertexMap<u32>) -> Result<bool, Memory> {
    fill(map)?;
    for number in 10..100u32 {
        map.remove(&HintedVertex::new(Vertex::Router(number), number));
    }
    let left = map.len() == 10 && at(map, &HintedVertex::new(Vertex::Router(10), 89)).is_none();
    map.trim(20);
    map.insert(&HintedVertex::new(Vertex::Network(200), 0), 7)?;
    map.insert(&HintedVertex::new(Vertex::Network(200), 3), 8)?;
    let came = map.len() == 11 && at(map, &HintedVertex::new(Vertex::Network(200), 0)) == Some(8);
    let mut stayed = true;
    for number in 0..10u32 {
        stayed = stayed & is_there(map, number);
    }
    map.clear();
    Ok(left && came && stayed && map.is_empty())
}

#[test]
fn vertices_that_are_left_stay_where_most_go(rt: HostRuntime) -> Result<(), Fail> {
    let mut map = VertexMap::new(rt.alloc(), WordHash::new(RandomState::new(&rt)?));
    assert!(rt; most_go(&mut map)?);
    Ok(())
}
