//! Prints the verdict of each offer of networks that contain some addresses, and the traces of the
//! taken offers. The recording has an offer for each verdict.
mod printing;

use crate::core_after::core_after;
use anyhow::Result;
use event_core::Core;
use explanation::explain;
use ospf_types::address::Address;
use printing::print_candidate;

const ADDRESSES: [u32; 16] = [
    0xc000_0205, // on a network with two network-LSAs
    0xc633_6402, // the other end of a point-to-point link
    0x0a63_0001, // in a stub network of the root, with no interface
    0x0a01_0101, // in an active range
    0x0a02_0001,
    0x0a03_0001,
    0x0a05_0001,
    0x0a06_0001,
    0x0a07_0001,
    0x0a08_0001,
    0x0a09_0001,
    0x0a0a_0001,
    0x0a0b_0001,
    0x0a0c_0001,
    0x0a0d_0001,
    0x0a0e_0001,
];

pub fn run(rt: &HostRuntime) -> Result<()> {
    let core = core_after(rt, "fates.rec")?;
    for address in ADDRESSES {
        print_address(rt, &core, address)?;
    }
    Ok(())
}

fn print_address(rt: &HostRuntime, core: &Core, address: u32) -> Result<()> {
    println!(rt; "{}:", Address(address))?;
    match explain(rt.alloc(), core, address)? {
        Some(candidates) => {
            for candidate in &candidates {
                print_candidate(rt, candidate)?;
            }
            Ok(())
        }
        None => Ok(println!(rt; "behind")?),
    }
}
