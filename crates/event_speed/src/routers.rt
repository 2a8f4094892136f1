//! The addresses of routers, links and networks, by their numbers in an area. Addresses are in host
//! order.

/// The number of routers of an area. Router 0 is the calculating router.
pub const ROUTERS: u32 = 12;
/// The number of transit networks of an area.
pub const NETWORKS: u32 = 3;
/// The numbers of an area border router and of an AS boundary router.
pub const BORDER: u32 = 1;

pub const BOUNDARY: u32 = 2;

/// Returns the Router ID of the router with this number.
pub fn router_id(area: u32, place: u32) -> u32 {
    let first = 0x0a00_0001;
    if place == 0 {
        first
    } else {
        (area << 16).wrapping_add(place).wrapping_add(first)
    }
}

/// Returns the address of a router on its link to a neighbour.
pub fn point(area: u32, place: u32, neighbour: u32) -> u32 {
    (area << 16)
        .wrapping_add(place << 8)
        .wrapping_add(neighbour)
        .wrapping_add(0x6000_0000)
}

/// Returns the address of a router on a transit network.
pub fn member(area: u32, network: u32, place: u32) -> u32 {
    (area << 16)
        .wrapping_add(network << 8)
        .wrapping_add(place)
        .wrapping_add(0xc600_0001)
}

/// Returns the address of the /24 to which a router's stub link leads.
pub fn stub(area: u32, place: u32) -> u32 {
    (area << 16)
        .wrapping_add(place << 8)
        .wrapping_add(0x1400_0000)
}
