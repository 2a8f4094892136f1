//! The example of one more layer of routes.
use ospf_types::prefix::Prefix;
use static_routes::{StaticInputs, StaticRoutes};
use std::hash::RandomState;
use std::test::*;

// The route of the lesser metric is used, and a network that another route reaches gets no static
// route.
#[test]
fn the_static_route_of_the_least_metric_is_used(rt: HostRuntime) -> Result<(), Fail> {
    let alloc = rt.alloc();
    let free = Prefix::from_mask(0x0a01_0000, 0xffff_0000);
    let other = Prefix::from_mask(0x0a02_0000, 0xffff_0000);
    let inputs = StaticInputs {
        configured: &[(free, 5), (free, 3), (other, 7)],
        taken: &[other],
    };
    let routes = StaticRoutes::build(alloc, &inputs, RandomState::new(&rt)?)?;
    assert!(rt; routes.get(free) == Some(&3) && routes.get(other).is_none());
    Ok(())
}
