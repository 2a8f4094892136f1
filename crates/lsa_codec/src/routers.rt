//! The Router IDs of a network-LSA (RFC 2328, A.4.3), read from its bytes.

use byteorder::{BigEndian, ByteOrder};
use std::marker::Model;

/// An iterator over the Router IDs of a network-LSA (in host order). A step takes constant time.
#[derive(Drop)]
pub struct Routers<'a> {
    pub(crate) rest: &'a [u8],
}

impl<'a> Model for Routers<'a> {
    ghost use Rattle.std.specs.Prelude.{List, ℕ};
    ghost use Rattle.lsa_codec.specs.Left.{routers_left};

    ghost Value = { List ℕ };

    ghost view = { λ r. routers_left r.rest.now };
}

impl<'a> Iterator for Routers<'a> {
    ghost use Rattle.std.specs.Iterator.{YieldsFirst, item_count};

    type Item = u32;

    ghost next_gives = { YieldsFirst (λ s. s) };

    ghost remaining = { item_count (λ s. s) };

    fn next(&mut self) -> Option<u32> {
        if self.rest.len() < 4 {
            return None;
        }
        let bytes = self.rest;
        self.rest = &bytes[4..];
        Some(BigEndian::read_u32(bytes))
    }
}
