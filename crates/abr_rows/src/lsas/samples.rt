//! LSAs of the five kinds, with matching checksums (RFC 2328, A.4).

/// The router-LSA of 10.0.0.2 at MaxAge: bits V, E and B, a link of each type, and two TOS entries.
pub(crate) const ROUTER: [u8; 80] = [
    14, 16, 0x22, 1, 10, 0, 0, 2, 10, 0, 0, 2, 0x80, 0, 0, 3, 0x47, 0x1a, 0, 80, 7, 0, 0, 4, 10, 0,
    0, 1, 198, 51, 100, 2, 1, 2, 0, 10, 8, 0, 0, 20, 16, 0, 255, 255, 192, 0, 2, 2, 192, 0, 2, 1,
    2, 0, 0, 1, 192, 0, 2, 0, 255, 255, 255, 0, 3, 0, 0, 10, 10, 0, 0, 3, 198, 51, 100, 9, 4, 0, 0,
    12,
];

/// The network-LSA of 192.0.2.2/24 by 10.0.0.2, with 10.0.0.1 and 10.0.0.2.
pub(crate) const NETWORK: [u8; 32] = [
    0, 1, 2, 2, 192, 0, 2, 2, 10, 0, 0, 2, 0x80, 0, 0, 1, 0x02, 0x70, 0, 32, 255, 255, 255, 0, 10,
    0, 0, 1, 10, 0, 0, 2,
];

/// The summary-LSA of 10.0.0.2 for 10.1.0.0/16.
pub(crate) const SUMMARY: [u8; 28] = [
    0, 1, 2, 3, 10, 1, 0, 0, 10, 0, 0, 2, 0x80, 0, 0, 1, 0xda, 0x61, 0, 28, 255, 255, 0, 0, 0, 0,
    0, 10,
];

/// The summary-LSA of 10.0.0.2 for the AS boundary router 10.0.0.9: LSInfinity, and two TOS
/// entries.
pub(crate) const BOUNDARY: [u8; 36] = [
    0, 60, 0, 4, 10, 0, 0, 9, 10, 0, 0, 2, 0x80, 0, 0, 4, 0xa4, 0x63, 0, 36, 0, 0, 0, 0, 0, 255,
    255, 255, 8, 0, 0, 20, 16, 255, 255, 255,
];

/// The AS-external-LSA of 10.0.0.2 for 203.0.113.0/24. It has all named bits of Options and two
/// others, and a record of TOS 8.
pub(crate) const EXTERNAL: [u8; 48] = [
    0, 1, 0xfe, 5, 203, 0, 113, 0, 10, 0, 0, 2, 0x80, 0, 0, 1, 0x87, 0x29, 0, 48, 255, 255, 255, 0,
    0x80, 0, 0, 20, 0, 0, 0, 0, 0, 0, 0, 0, 8, 255, 255, 255, 192, 0, 2, 9, 0, 0, 253, 233,
];

/// The start of the longest router-LSA, of 65,532 bytes, before its links to one stub network.
pub(crate) const LONGEST: [u8; 24] = [
    0, 1, 2, 1, 10, 0, 0, 1, 10, 0, 0, 1, 0x80, 0, 0, 1, 0xb6, 0xdc, 0xff, 0xfc, 0, 0, 0x15, 0x53,
];

/// The number of links of the longest router-LSA.
pub(crate) const LINKS: u16 = 5459;

/// One of its links: to the stub network 192.0.2.0/24 at metric 10.
pub(crate) const STUB_LINK: [u8; 12] = [192, 0, 2, 0, 255, 255, 255, 0, 3, 0, 0, 10];
