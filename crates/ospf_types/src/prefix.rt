//! Networks: a network number and a prefix length.
ghost use Rattle.std.specs.Prelude.{◌≡◌, ◌==◌, ◌≤◌, ◌↔◌, IsTrue, IsSome, IfSome};
ghost use Rattle.ospf_types.specs.Address.{network_around};
ghost use Rattle.ospf_types.specs.Masks.{masked};
ghost use Rattle.ospf_types.specs.Network.{network_cmp, network_word};
ghost use Rattle.ospf_types.specs.Lsa.{network_of};
ghost use Rattle.ospf_types.specs.Summaries.{default_route};

use std::cmp::Ordering;
use std::hash::{Hash, Hasher};
use std::marker::Model;

/// A network: a network number and a prefix length. All bits past the length are zero.
///
/// Prefixes are ordered by network number and then by length.
#[derive(Clone, Copy, Debug, PartialEq, Eq, PartialOrd, Ord)]
pub struct Prefix {
    address: u32,
    length: u8,
}

impl Model for Prefix {
    ghost use Rattle.std.specs.Prelude.{◌≡◌, ◌≤◌};
    ghost use Rattle.ospf_types.specs.Network.{Network};
    ghost use Rattle.ospf_types.specs.Masks.{masked};

    ghost Value = { Network };

    ghost view = { λ p. record { address = p.address; length = p.length } };

    ghost invariant = { λ p. (p.length ≤ 32) × (masked p.address p.length ≡ p.address) };

    ghost inverse = { λ n. record { address = n.address; length = n.length } };
}

impl Prefix {
    ghost use Rattle.ospf_types.specs.Address.{HasAddress, Covers};

    /// Returns the prefix of the given length that contains the address (in host order), or `None`
    /// if the length is above 32.
    pub fn new(address: u32, length: u8) -> Option<Prefix>
        ensures valid { IsSome result ↔ (length ≤ 32) }
        ensures masked { IfSome result (λ p. p ≡ record { address = masked address length; length = length }) }
    {
        if length > 32 {
            return None;
        }
        Some(Prefix::around(address, length))
    }

    /// Returns the network of the given length that contains the address (in host order).
    pub fn around(address: u32, length: u8) -> Prefix
        requires { length ≤ 32 }
        ensures { result ≡ network_around address length }
    {
        Prefix {
            address: first_bits(address, length),
            length,
        }
    }

    /// Returns the prefix given by an address and a mask, both in host order.
    ///
    /// The length is the number of ones in the mask, even if they do not all come first.
    pub fn from_mask(address: u32, mask: u32) -> Prefix
        ensures { result ≡ network_of address mask }
    {
        Prefix::around(address, mask.count_ones() as u8)
    }

    /// Returns the network number, in host order.
    pub fn address(self) -> u32
        ensures value { result ≡ self.address }
        ensures masked { masked result self.length ≡ result }
    {
        self.address
    }

    /// Returns the prefix length, at most 32.
    pub fn length(self) -> u8
        ensures value { result ≡ self.length }
        ensures bound { result ≤ 32 }
    {
        self.length
    }

    /// Returns true if it is the destination of the default route, 0.0.0.0/0.
    pub fn is_default(self) -> bool
        ensures value { IsTrue result ↔ (self ≡ default_route) }
        ensures length { result ≡ (self.length == 0) }
    {
        self.length == 0
    }

    /// Compares two prefixes by network number and then by length.
    pub fn compare(self, other: Prefix) -> Ordering
        ensures { result ≡ network_cmp self other }
    {
        self.cmp(&other)
    }

    /// Returns true if the network contains the address (in host order).
    pub fn contains(self, address: u32) -> bool
        ensures { IsTrue result ↔ HasAddress self address }
    {
        first_bits(address, self.length) == self.address
    }

    /// Returns true if this network contains all of the other one.
    pub fn covers(self, other: Prefix) -> bool
        ensures { IsTrue result ↔ Covers self other }
    {
        self.length <= other.length && self.contains(other.address)
    }

    // Returns a number that no other network has.
    pub(crate) fn word(self) -> u64
        ensures { result ≡ network_word self }
    {
        u64::from(self.address) * 256 + u64::from(self.length)
    }
}

// A network is hashed as one word: the longest match of an address hashes one network for each
// length that it tries.
impl Hash for Prefix {
    ghost use Rattle.std.specs.Hash as fed;
    ghost use Rattle.std.specs.Cmp.Rules.{hashing};
    ghost use Rattle.std.proofs.Common.{rules};
    ghost use Rattle.ospf_types.specs.Network.{network_word};

    ghost hash_input = { λ p. fed.u64 (network_word p) };

    ghost respects_eq = { Prim.search (hashing, rules) };

    fn hash<H: Hasher>(&self, state: &mut H) {
        self.word().hash(state);
    }
}

// Returns the address with all bits past the length set to zero.
fn first_bits(address: u32, length: u8) -> u32
    requires { length ≤ 32 }
    ensures { result ≡ masked address length }
{
    let host = 32 - u32::from(length);
    if host == 32 {
        return 0;
    }
    (address >> host) << host
}
