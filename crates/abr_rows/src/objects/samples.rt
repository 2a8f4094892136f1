//! Networks, routes and a header.

use ospf_types::entry::{Entry, PathType, Paths};
use ospf_types::hop::{NextHop, Path};
use ospf_types::lsa::Header;
use ospf_types::memory::Memory;
use ospf_types::prefix::Prefix;
use smallvec::SmallVec;
use std::alloc::Global;

/// The Router ID 10.0.0.5.
pub(crate) const ROUTER: u32 = 0x0a00_0005;

/// The header of a router-LSA of 10.0.0.1.
pub(crate) const HEADER: Header = Header {
    age: 1,
    options: 2,
    kind: 1,
    id: 0x0a00_0001,
    router: 0x0a00_0001,
    seq: 0x8000_0001,
    sum: 0xe986,
    length: 36,
};

/// Returns 203.0.112.0/20.
pub(crate) fn wide() -> Prefix {
    Prefix::from_mask(0xcb00_7000, 0xffff_f000)
}

/// Returns the network of the default route, 0.0.0.0/0.
pub(crate) fn everything() -> Prefix {
    Prefix::from_mask(0, 0)
}

/// Returns a route at cost 11, with a next hop of each kind.
pub(crate) fn route(
    alloc: Global,
    kind: PathType,
    area: Option<u32>,
    cost2: u32,
) -> Result<Entry, Memory> {
    let direct = Path {
        hop: NextHop::Direct(1),
        advertiser: None,
    };
    let peer = Path {
        hop: NextHop::Peer(2),
        advertiser: None,
    };
    let router = Path {
        hop: NextHop::Router(1, 0xc000_0202),
        advertiser: Some(ROUTER),
    };
    Ok(Entry {
        kind,
        area,
        cost: 11,
        cost2,
        paths: Paths::new(SmallVec::from_slice(alloc, &[direct, peer, router])?),
    })
}
