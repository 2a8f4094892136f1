//! Packets with matching checksums (RFC 2328, A.3), and bytes with changes for them.

/// A Hello of 10.0.0.1 in the backbone, from 192.0.2.1/24.
pub(crate) const HELLO: [u8; 44] = [
    2, 1, 0, 44, 10, 0, 0, 1, 0, 0, 0, 0, 48, 156, 0, 0, 0, 0, 0, 0, 0, 0, 0, 0, 255, 255, 255, 0,
    0, 10, 2, 1, 0, 0, 0, 40, 192, 0, 2, 1, 0, 0, 0, 0,
];

/// A Link State Update of 10.0.0.1 in area 0.0.0.1, with the password `password`: a router-LSA and
/// a network-LSA.
pub(crate) const UPDATE: [u8; 96] = [
    2, 4, 0, 96, 10, 0, 0, 1, 0, 0, 0, 1, 10, 126, 0, 1, 112, 97, 115, 115, 119, 111, 114, 100, 0,
    0, 0, 2, 0, 1, 2, 1, 10, 0, 0, 1, 10, 0, 0, 1, 128, 0, 0, 1, 88, 83, 0, 36, 1, 0, 0, 1, 192, 0,
    2, 1, 192, 0, 2, 1, 2, 0, 0, 10, 0, 1, 2, 2, 192, 0, 2, 1, 10, 0, 0, 1, 128, 0, 0, 1, 18, 98,
    0, 32, 255, 255, 255, 0, 10, 0, 0, 1, 10, 0, 0, 2,
];

/// A Link State Update with cryptographic authentication: the network-LSA, and a digest of 16 bytes
/// after the packet.
pub(crate) const SIGNED: [u8; 76] = [
    2, 4, 0, 60, 10, 0, 0, 1, 0, 0, 0, 1, 0, 0, 0, 2, 0, 0, 7, 16, 60, 126, 198, 83, 0, 0, 0, 1, 0,
    1, 2, 2, 192, 0, 2, 1, 10, 0, 0, 1, 128, 0, 0, 1, 18, 98, 0, 32, 255, 255, 255, 0, 10, 0, 0, 1,
    10, 0, 0, 2, 160, 161, 162, 163, 164, 165, 166, 167, 168, 169, 170, 171, 172, 173, 174, 175,
];

/// A Link State Acknowledgment of one byte, of AuType 3.
pub(crate) const ODD: [u8; 25] = [
    2, 5, 0, 25, 10, 0, 0, 2, 0, 0, 0, 1, 234, 219, 0, 3, 1, 2, 3, 4, 5, 6, 7, 8, 9,
];

/// The example of RFC 1071, 3, whose sum is ddf2.
pub(crate) const EXAMPLE: [u8; 8] = [0, 1, 0xf2, 3, 0xf4, 0xf5, 0xf6, 0xf7];

/// An odd number of bytes, whose sum has carries.
pub(crate) const CARRIES: [u8; 17] = [
    255, 255, 255, 255, 255, 255, 255, 255, 255, 255, 255, 255, 255, 255, 255, 255, 1,
];

/// Indices into a Hello, and a byte for each.
pub(crate) const CHANGES: [(usize, u8); 8] = [
    (0, 3),
    (1, 6),
    (1, 0),
    (3, 23),
    (3, 45),
    (43, 1),
    (12, 49),
    (15, 2),
];

/// Indices into a Link State Update of two LSAs, and a byte for each. They change the number of
/// LSAs and the length of the first LSA.
pub(crate) const UPDATE_CHANGES: [(usize, u8); 6] = [
    (27, 0),
    (27, 1),
    (27, 3),
    (46, 1),
    (47, 19),
    (47, 20),
];
