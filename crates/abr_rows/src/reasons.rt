//! Prints why summaries are due in areas, or are not. In the recordings each reason occurs, and
//! each verdict of a source.
mod printing;

use crate::core_after::core_after;
use anyhow::Result;
use due_explanation::explain_due;
use event_core::Core;
use ospf_types::address::Address;
use ospf_types::key::Dest;
use ospf_types::prefix::Prefix;
use printing::print_explained;

// The Area ID, and the address and the mask of a network.
const NETWORKS: [(u32, u32, u32); 16] = [
    (9, 0x0a08_0000, 0xffff_0000), // no area
    (4, 0x0a08_0000, 0xffff_0000), // an area without an interface
    (2, 0, 0),
    (2, 0x0a08_0000, 0xffff_0000),
    (3, 0x0a08_0000, 0xffff_0000),
    (0, 0x0a01_0100, 0xffff_ff00), // in a range
    (0, 0x0a01_0000, 0xffff_0000),
    (1, 0x0a01_0000, 0xffff_0000),
    (0, 0x0a02_0000, 0xffff_0000), // a range that is not advertised
    (0, 0x0a03_0000, 0xffff_0000), // a range with no network
    (3, 0x0a04_0000, 0xffff_0000), // a network of the backbone, and a range
    (1, 0x0a04_0000, 0xffff_0000),
    (1, 0x0a06_0000, 0xffff_0000), // at LSInfinity and more
    (1, 0x0a07_0000, 0xffff_0000),
    (0, 0x0a07_0000, 0xffff_0000),
    (0, 0x0a09_0000, 0xffff_0000), // not reached
];

// The Area ID, and the Router ID of an AS boundary router.
const ROUTERS: [(u32, u32); 4] = [
    (3, 0x0a00_0003),
    (0, 0x0a00_0003),
    (1, 0x0a00_0003),
    (1, 0x0a00_0009), // at LSInfinity and more
];

pub fn run(rt: &HostRuntime) -> Result<()> {
    let core = core_after(rt, "due.rec")?;
    for (area, address, mask) in NETWORKS {
        print_network(rt, &core, area, Prefix::from_mask(address, mask))?;
    }
    for (area, router) in ROUTERS {
        println!(rt; "{} to {}:", Address(router), Address(area))?;
        print_due(rt, &core, area, Dest::Router(router))?;
    }
    let alone = core_after(rt, "alone.rec")?;
    print_network(rt, &alone, 0, Prefix::from_mask(0x0a08_0000, 0xffff_0000))
}

fn print_network(rt: &HostRuntime, core: &Core, area: u32, network: Prefix) -> Result<()> {
    println!(rt; "{network} to {}:", Address(area))?;
    print_due(rt, core, area, Dest::Net(network))
}

fn print_due(rt: &HostRuntime, core: &Core, area: u32, dest: Dest) -> Result<()> {
    match explain_due(rt.alloc(), core, area, dest)? {
        Some(explained) => print_explained(rt, &explained),
        None => Ok(println!(rt; "  behind")?),
    }
}
