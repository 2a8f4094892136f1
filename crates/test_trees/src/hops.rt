//! Sets with more next hops than fit inline.
use hop_sets::HopSet;
use ospf_types::hop::NextHop;
use ospf_types::memory::Memory;
use std::alloc::Global;
use std::test::Fail;

const ASCENDING: [NextHop; 5] = [
    NextHop::Direct(1),
    NextHop::Direct(2),
    NextHop::Peer(1),
    NextHop::Router(1, 7),
    NextHop::Router(1, 9),
];

fn set_of(alloc: Global, hops: &[NextHop]) -> Result<HopSet, Memory> {
    let mut set = HopSet::new(alloc);
    for hop in hops {
        set.put(*hop)?;
    }
    Ok(set)
}

#[test]
fn put_and_copy_beyond_two(rt: HostRuntime) -> Result<(), Fail> {
    let [a, b, c, d, e] = ASCENDING;
    let set = set_of(rt.alloc(), &[e, b, d, b, a, c])?;
    let copy = set.copy()?;
    assert!(rt; set.as_slice() == ASCENDING.as_slice() && copy.is_same(&set));
    Ok(())
}

#[test]
fn unite_beyond_two(rt: HostRuntime) -> Result<(), Fail> {
    let [a, b, c, d, e] = ASCENDING;
    let mut set = set_of(rt.alloc(), &[d, a, b])?;
    set.unite(&set_of(rt.alloc(), &[c, b, e])?)?;
    assert!(rt; set.as_slice() == ASCENDING.as_slice());
    Ok(())
}
