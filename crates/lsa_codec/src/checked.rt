//! LSAs as checked bytes, and the functions that read their fields (RFC 2328, A.4).
ghost use Rattle.std.specs.Prelude.{◌≡◌, ◌≤◌, ◌↔◌, ◌==◌, ◌||◌, IsTrue, length, map, IfOk};
ghost use Rattle.ospf_types.specs.Lsa.{MaxAge, key_of, kind_of};
ghost use Rattle.lsa_codec.specs.Spelling.{IsLegal, body_bytes};
ghost use Rattle.lsa_codec.specs.Readers.{flags_of, links_of, without_tos, link_at, routers_of};
ghost use Rattle.lsa_codec.specs.Readers.{listed_at, prefix_of, metric_of, external_of, with_age};

use crate::header::header_in;
use crate::links::{Links, after_links, front_link};
use crate::metrics::{first_record, metric_in};
use crate::routers::Routers;
use byteorder::{BigEndian, ByteOrder};
use ospf_types::key::Key;
use ospf_types::lsa::{
    AS_EXTERNAL_LSA, ExternalFields, Header, Link, NETWORK_LSA, ROUTER_LSA, SUMMARY_LSA,
};
use ospf_types::memory::Memory;
use ospf_types::prefix::Prefix;
use std::alloc::Global;
use std::marker::Model;

/// An LSA whose bytes were checked: they are sound (RFC 2328, 12.1.7) and in the grammar (A.4).
///
/// It stores the bytes. Contracts see the LSA that they spell.
#[derive(Debug)]
pub struct Checked {
    pub(crate) bytes: Vec<u8>,
}

// proof: a value is dropped by one call, not part by part at each exit of a function.
impl Drop for Checked {
    fn drop(self) {
        let Checked { bytes: _bytes } = self;
    }
}

impl Model for Checked {
    ghost use Rattle.ospf_types.specs.Lsa.{Lsa};
    ghost use Rattle.lsa_codec.specs.Decoding.{lsa_of};
    ghost use Rattle.lsa_codec.specs.Kept.{IsKept};

    ghost Value = { Lsa };

    ghost view = { λ c. lsa_of c.bytes.items };

    ghost invariant = { λ c. IsKept c.bytes.items };
}

impl Checked {
    /// Returns the header. The age is in seconds, and numbers are in host order.
    pub fn header(&self) -> Header
        ensures value { result ≡ self.now.header }
        ensures legal { IsLegal self.now }
    {
        header_in(&self.bytes)
    }

    /// Returns the key: LS type, Link State ID and Advertising Router (RFC 2328, 12.1).
    pub fn key(&self) -> Key
        ensures value { result ≡ key_of self.now }
        ensures legal { IsLegal self.now }
    {
        let header = self.header();
        Key {
            kind: header.kind,
            id: header.id,
            router: header.router,
        }
    }

    /// Returns the bytes after the header.
    pub fn body(&self) -> &[u8]
        ensures { result.now ≡ body_bytes self.now.body }
    {
        &self.bytes[20..]
    }

    // Returns the LS type.
    fn kind(&self) -> u8
        ensures { result ≡ kind_of self.now.body }
    {
        self.bytes[3]
    }

    /// Returns the byte with the bits V, E and B of a router-LSA (RFC 2328, A.4.2), or `None` for
    /// any other LS type.
    pub fn flags(&self) -> Option<u8>
        ensures { result ≡ flags_of self.now.body }
    {
        if self.kind() != ROUTER_LSA {
            return None;
        }
        Some(self.bytes[20])
    }

    /// Returns the number of links of a router-LSA, or 0 for any other LS type.
    pub fn link_count(&self) -> usize
        ensures { result ≡ length (links_of self.now.body) }
    {
        if self.kind() != ROUTER_LSA {
            return 0;
        }
        usize::from(BigEndian::read_u16(&self.bytes[22..]))
    }

    /// Returns the link at index `n`, without its TOS metrics, or `None` past the last link.
    ///
    /// It takes constant time if no link has TOS metrics. Otherwise it walks over the links before
    /// it.
    pub fn link(&self, n: usize) -> Option<Link>
        ensures { result ≡ link_at self.now.body n }
    {
        let count = self.link_count();
        if n >= count {
            return None;
        }
        let links = &self.bytes[24..];
        let front = if links.len() == 12 * count {
            &links[12 * n..]
        } else {
            after_links(n, links)
        };
        Some(front_link(front))
    }

    /// Returns an iterator over the links of a router-LSA, each without its TOS metrics. It is
    /// empty for any other LS type. The links are the same as those that `link` returns at 0, 1 and
    /// so on.
    pub fn links(&self) -> Links<'_>
        ensures { result ≡ map without_tos (links_of self.now.body) }
    {
        Links {
            left: self.link_count(),
            rest: &self.bytes[24..],
        }
    }

    /// Returns the Router ID (in host order) at index `n` of a network-LSA (RFC 2328, A.4.3), or
    /// `None` past the last one.
    pub fn listed(&self, n: usize) -> Option<u32>
        ensures { result ≡ listed_at self.now.body n }
    {
        if self.kind() != NETWORK_LSA {
            return None;
        }
        let routers = &self.bytes[24..];
        if n >= routers.len() / 4 {
            return None;
        }
        Some(BigEndian::read_u32(&routers[4 * n..]))
    }

    /// Returns an iterator over the Router IDs of a network-LSA (RFC 2328, A.4.3). It is empty for
    /// any other LS type. The Router IDs are the same as those that `listed` returns at 0, 1 and so
    /// on.
    pub fn routers(&self) -> Routers<'_>
        ensures { result ≡ routers_of self.now.body }
    {
        let start = if self.kind() == NETWORK_LSA {
            24
        } else {
            self.bytes.len()
        };
        Routers {
            rest: &self.bytes[start..],
        }
    }

    /// Returns the network that a network-LSA, a type 3 summary-LSA or an AS-external-LSA
    /// describes: its Link State ID under its mask (RFC 2328, 12.1.4). Returns `None` for any other
    /// LS type.
    pub fn prefix(&self) -> Option<Prefix>
        ensures { result ≡ prefix_of self.now }
    {
        if !has_network(self.kind()) {
            return None;
        }
        Some(Prefix::from_mask(
            BigEndian::read_u32(&self.bytes[4..]),
            BigEndian::read_u32(&self.bytes[20..]),
        ))
    }

    /// Returns the metric of a summary-LSA, or of the first record of an AS-external-LSA (RFC 2328,
    /// A.4.4, A.4.5). Returns `None` for any other LS type.
    pub fn metric(&self) -> Option<u32>
        ensures { result ≡ metric_of self.now.body }
    {
        if self.kind() < SUMMARY_LSA {
            return None;
        }
        Some(metric_in(&self.bytes))
    }

    /// Returns the first record of an AS-external-LSA without its metric (RFC 2328, A.4.5), or
    /// `None` for any other LS type.
    pub fn external(&self) -> Option<ExternalFields>
        ensures { result ≡ external_of self.now.body }
    {
        if self.kind() != AS_EXTERNAL_LSA {
            return None;
        }
        Some(first_record(&self.bytes))
    }

    /// Returns true if both LSAs have the same Options and body.
    pub fn same_contents(&self, other: &Checked) -> bool
        ensures { IsTrue result ↔ ((self.now.header.options ≡ other.now.header.options) × (self.now.body ≡ other.now.body)) }
    {
        self.bytes[2..4] == other.bytes[2..4] && self.bytes[20..] == other.bytes[20..]
    }

    /// Sets the LS age, in seconds. The checksum does not cover it.
    pub fn set_age(&mut self, age: u16)
        requires { age ≤ MaxAge }
        ensures { self.new ≡ with_age self.old age }
    {
        BigEndian::write_u16(&mut self.bytes, age);
    }

    /// Returns a copy.
    pub fn copy(&self, alloc: Global) -> Result<Checked, Memory>
        ensures { IfOk result (λ c. c ≡ self.now) }
    {
        Ok(Checked {
            bytes: Vec::from_slice(alloc, &self.bytes)?,
        })
    }
}

/// Returns true if LSAs of this LS type describe a network.
fn has_network(kind: u8) -> bool
    ensures { result ≡ ((kind == 2) || (kind == 3) || (kind == 5)) }
{
    kind == NETWORK_LSA || kind == SUMMARY_LSA || kind == AS_EXTERNAL_LSA
}
