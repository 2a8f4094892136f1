//! LSAs of a border router and its neighbours.

use crate::beginnings::bytes::Fields;

/// The fields of a router-LSA.
#[derive(Clone, Copy)]
pub struct RouterSample {
    /// The Area ID.
    pub area: u32,
    pub options: u8,
    pub router: u32,
    pub links: &'static [Fields],
}

/// The fields of a summary-LSA for a network.
#[derive(Clone, Copy)]
pub struct SummarySample {
    /// The Area ID.
    pub area: u32,
    /// The Link State ID.
    pub id: u32,
    pub router: u32,
    pub mask: u32,
    pub metric: u32,
}

/// The areas of the packets.
pub const AREAS: [u32; 6] = [4, 0, 1, 3, 0, 2];

/// The router-LSAs.
pub const ROUTERS: [RouterSample; 8] = [
    RouterSample {
        area: 0,
        options: 2,
        router: 0x0a00_0009,
        links: &BACKBONE,
    },
    RouterSample {
        area: 0,
        options: 2,
        router: 0x0a00_0001,
        links: &[(0x0a00_0009, 0xc000_0202, 1)],
    },
    RouterSample {
        area: 0,
        options: 0,
        router: 0x0a00_0003,
        links: &[(0x0a00_0009, 0xcb00_7202, 1), (0x0a00_0009, 0xcb00_7102, 1)],
    },
    RouterSample {
        area: 1,
        options: 0,
        router: 0x0a00_0009,
        links: &[(0xac10_0102, 0xac10_0101, 2)],
    },
    RouterSample {
        area: 2,
        options: 0,
        router: 0x0a00_0007,
        links: &[(0x0a32_0000, 0xffff_0000, 3)],
    },
    RouterSample {
        area: 4,
        options: 0,
        router: 0x0a00_0009,
        links: &[(0x0a28_0000, 0xffff_0000, 3)],
    },
    RouterSample {
        area: 4,
        options: 0,
        router: 0x0a00_0009,
        links: &[(0x0a28_0002, 0x0a28_0001, 2)],
    },
    RouterSample {
        area: 4,
        options: 0,
        router: 0x0a00_0009,
        links: &[(0x0a28_0003, 0x0a28_0001, 2)],
    },
];

/// The links of the router in the backbone.
///
/// They are a point-to-point link to 10.0.0.1 with its host route, a transit network, and a
/// point-to-point link to 10.0.0.3 with its subnet. Then there are a stub network, a virtual link,
/// and a point-to-point link to a router without a router-LSA.
const BACKBONE: [Fields; 8] = [
    (0x0a00_0001, 0xc000_0201, 1),
    (0xc000_0202, 0xffff_ffff, 3),
    (0xc633_6402, 0xc633_6401, 2),
    (0x0a00_0003, 0xcb00_7101, 1),
    (0xcb00_7100, 0xffff_ff00, 3),
    (0x0a09_0000, 0xffff_0000, 3),
    (0x0a00_0004, 0xc000_024d, 4),
    (0x0a00_0005, 0xc000_0209, 1),
];

/// The summary-LSAs. In area 1 a default route has metric 7, then 9, and then LSInfinity. Area 4
/// has a default route and a network, and area 2 has a default route of another router.
pub const SUMMARIES: [SummarySample; 6] = [
    SummarySample {
        area: 1,
        id: 0,
        router: 0x0a00_0009,
        mask: 0,
        metric: 7,
    },
    SummarySample {
        area: 1,
        id: 0,
        router: 0x0a00_0009,
        mask: 0,
        metric: 9,
    },
    SummarySample {
        area: 1,
        id: 0,
        router: 0x0a00_0009,
        mask: 0,
        metric: 0xff_ffff,
    },
    SummarySample {
        area: 4,
        id: 0,
        router: 0x0a00_0009,
        mask: 0,
        metric: 5,
    },
    SummarySample {
        area: 4,
        id: 0x0a14_0000,
        router: 0x0a00_0009,
        mask: 0xffff_0000,
        metric: 30,
    },
    SummarySample {
        area: 2,
        id: 0,
        router: 0x0a00_0007,
        mask: 0,
        metric: 3,
    },
];
