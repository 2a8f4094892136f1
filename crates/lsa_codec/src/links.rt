//! The links of a router-LSA (RFC 2328, A.4.2), read from its bytes.

ghost use Rattle.std.specs.Prelude.{◌≡◌, ◌≤◌, true, ◌+◌, ◌*◌, ◌==◌, ◌||◌, not, nat_lt, length};
ghost use Rattle.std.specs.List.{list_any};
ghost use Rattle.lsa_codec.specs.Faults.{walk, raw_entries, raw_link, is_whole as is_whole_test};
ghost use Rattle.lsa_codec.specs.Faults.{link_size as size_of_link, has_reserved_entry};
ghost use Rattle.lsa_codec.specs.Faults.{has_wrong_mask, is_unknown, is_incomplete};
ghost use Rattle.lsa_codec.specs.Decoding.{kind_of_number, link_of as decoded_link};
ghost use Rattle.lsa_codec.specs.Readers.{without_tos};

use crate::findings::{Findings, NO_FINDING};
use crate::mask::is_mask;
use byteorder::{BigEndian, ByteOrder};
use ospf_types::lsa::{Link, LinkKind};
use std::marker::Model;

/// An iterator over the links of a router-LSA, in order, each without its TOS metrics. A step takes
/// constant time.
#[derive(Drop)]
pub struct Links<'a> {
    pub(crate) left: usize,
    pub(crate) rest: &'a [u8],
}

impl<'a> Model for Links<'a> {
    ghost use Rattle.std.specs.Prelude.{List};
    ghost use Rattle.ospf_types.specs.declared.lsa.Link.{Link};
    ghost use Rattle.lsa_codec.specs.Left.{links_left, AreThere};

    ghost Value = { List Link };

    ghost view = { λ l. links_left l.left l.rest.now };

    ghost invariant = { λ l. AreThere l.left l.rest.now };
}

impl<'a> Iterator for Links<'a> {
    ghost use Rattle.std.specs.Iterator.{YieldsFirst, item_count};

    type Item = Link;

    ghost next_gives = { YieldsFirst (λ s. s) };

    ghost remaining = { item_count (λ s. s) };

    fn next(&mut self) -> Option<Link> {
        if self.left == 0 {
            return None;
        }
        let bytes = self.rest;
        self.left -= 1;
        self.rest = &bytes[link_size(bytes)..];
        Some(front_link(bytes))
    }
}

/// Returns the number of bytes of the first link, including its TOS metrics.
fn link_size(bytes: &[u8]) -> usize
    requires { 12 ≤ length bytes.now }
    ensures { result ≡ size_of_link bytes.now }
{
    12 + 4 * usize::from(bytes[9])
}

/// Returns true if the bytes contain the whole first link, including its TOS metrics.
fn is_whole(bytes: &[u8]) -> bool
    ensures { result ≡ is_whole_test bytes.now }
{
    bytes.len() >= 12 && bytes.len() >= link_size(bytes)
}

/// Returns true if one of the first `count` TOS metrics has a reserved byte that is not zero.
fn has_reserved(count: u8, bytes: &[u8]) -> bool
    requires { 4 * count ≤ length bytes.now }
    ensures { result ≡ list_any (λ t. not (t.reserved == 0)) (raw_entries count bytes.now) }
{
    let mut rest = bytes;
    for _ in 0..count {
        if rest[1] != 0 {
            return true;
        }
        rest = &rest[4..];
    }
    false
}

/// Returns the faults of the links. There should be `count` links, and no bytes after them.
pub(crate) fn links_findings(count: u16, bytes: &[u8]) -> Findings
    ensures reserved { result.reserved ≡ list_any has_reserved_entry (walk count bytes.now).met }
    ensures mask { result.mask ≡ list_any has_wrong_mask (walk count bytes.now).met }
    ensures link_type { result.link_type ≡ list_any is_unknown (walk count bytes.now).met }
    ensures shape { result.shape ≡ is_incomplete count (walk count bytes.now) }
{
    let mut found = NO_FINDING;
    let mut rest = bytes;
    for _ in 0..count {
        if !is_whole(rest) {
            return Findings {
                shape: true,
                ..found
            };
        }
        found = with_link(found, rest);
        rest = &rest[link_size(rest)..];
    }
    Findings {
        shape: !rest.is_empty(),
        ..found
    }
}

/// Adds the faults of the first link to the faults found before.
fn with_link(found: Findings, bytes: &[u8]) -> Findings
    requires { is_whole_test bytes.now ≡ true }
    ensures reserved { result.reserved ≡ (found.reserved || has_reserved_entry (raw_link bytes.now)) }
    ensures mask { result.mask ≡ (found.mask || has_wrong_mask (raw_link bytes.now)) }
    ensures link_type { result.link_type ≡ (found.link_type || is_unknown (raw_link bytes.now)) }
{
    Findings {
        reserved: found.reserved || has_reserved(bytes[9], &bytes[12..]),
        mask: found.mask || is_wrong_mask(bytes),
        link_type: found.link_type || is_unknown_type(bytes[8]),
        shape: found.shape,
    }
}

/// Returns true if the first link is a stub link whose Link Data is not a valid mask.
fn is_wrong_mask(bytes: &[u8]) -> bool
    requires { 12 ≤ length bytes.now }
    ensures { result ≡ has_wrong_mask (raw_link bytes.now) }
{
    bytes[8] == 3 && !is_mask(BigEndian::read_u32(&bytes[4..]))
}

fn is_unknown_type(number: u8) -> bool
    ensures { result ≡ (nat_lt number 1 || nat_lt 4 number) }
{
    number < 1 || number > 4
}

/// Returns the bytes after the first `count` links, or after all whole links if there are fewer.
pub(crate) fn after_links(count: usize, bytes: &[u8]) -> &[u8]
    ensures { result.now ≡ (walk count bytes.now).left }
{
    let mut rest = bytes;
    for _ in 0..count {
        if !is_whole(rest) {
            return rest;
        }
        rest = &rest[link_size(rest)..];
    }
    rest
}

fn link_kind(number: u8) -> LinkKind
    ensures { result ≡ kind_of_number number }
{
    match number {
        1 => LinkKind::PointToPoint,
        2 => LinkKind::Transit,
        3 => LinkKind::Stub,
        _ => LinkKind::Virtual,
    }
}

/// Returns the first link, without its TOS metrics.
pub(crate) fn front_link(bytes: &[u8]) -> Link
    requires { 12 ≤ length bytes.now }
    ensures { result ≡ without_tos (decoded_link (raw_link bytes.now)) }
{
    Link {
        id: BigEndian::read_u32(bytes),
        detail: BigEndian::read_u32(&bytes[4..]),
        kind: link_kind(bytes[8]),
        metric: BigEndian::read_u16(&bytes[10..]),
    }
}
