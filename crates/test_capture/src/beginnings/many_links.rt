//! Two routers, each with nearly as many links as a router-LSA holds.

use crate::beginnings::bytes::Fields;
use anyhow::Result;
use std::alloc::Global;

/// The number of links of each router.
const MANY: u32 = 5_400;

/// The Router ID of the neighbour.
pub const NEIGHBOUR: u32 = 0x0a00_0001;

/// The first address of the neighbour, 203.0.0.0.
const FIRST_PEER: u32 = 0xcb00_0000;

/// Returns point-to-point links from the addresses 10.1.0.0 up, stub links to three networks around
/// them, and host routes. The last host route is to the neighbour's last address.
pub fn own_links(alloc: Global) -> Result<Vec<Fields>> {
    let mut links = Vec::new(alloc);
    for number in 0..255u32 {
        links.push((NEIGHBOUR, 0x0a01_0000 + number, 1))?;
    }
    for mask in [0xff00_0000, 0xffff_0000, 0xffff_ff00] {
        links.push((0x0a01_0000, mask, 3))?;
    }
    for number in 259..MANY {
        links.push((0xc612_0000 + number, 0xffff_ffff, 3))?;
    }
    links.push((FIRST_PEER + MANY - 1, 0xffff_ffff, 3))?;
    Ok(links)
}

/// Returns point-to-point links to the router. Only the last one begins at an address to which the
/// router has a host route.
pub fn links_back(alloc: Global, router: u32) -> Result<Vec<Fields>> {
    let mut links = Vec::new(alloc);
    for number in 0..MANY {
        links.push((router, FIRST_PEER + number, 1))?;
    }
    Ok(links)
}
