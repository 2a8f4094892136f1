//! The area border routers and AS boundary routers that are reached in an area (RFC 2328, 16.1).
ghost use Rattle.std.specs.Prelude.{◌≡◌, ◌↔◌, ◌<◌, ◌^◌, IfOk, IfSome, IsTrue, bit_and};
ghost use Rattle.std.specs.List.Sorted.{IsStrictlySortedBy};
ghost use Rattle.ospf_types.specs.Hops.{hop_cmp};
ghost use Rattle.ospf_types.specs.Intra.{B, E};
ghost use Rattle.route_choice.specs.ReachedRouter.{reached_by, is_abr_or_asbr};

use crate::Same;
use ospf_types::hop::NextHop;
use ospf_types::memory::Memory;
use std::alloc::Global;
use std::marker::Model;

// Bit B of a router-LSA: an area border router (RFC 2328, A.4.2).
const BORDER: u8 = 1;

// Bit E of a router-LSA: an AS boundary router (RFC 2328, A.4.2).
const BOUNDARY: u8 = 2;

/// An area border router or AS boundary router that is reached, with its distance and next hops.
pub struct ReachedRouter {
    flags: u8,
    distance: u32,
    hops: Vec<NextHop>,
}

// proof: a value is dropped by one call, not part by part at each exit of a function.
impl Drop for ReachedRouter {
    fn drop(self) {
        let ReachedRouter {
            flags: _,
            distance: _,
            hops: _hops,
        } = self;
    }
}

impl Model for ReachedRouter {
    ghost use Rattle.std.specs.Prelude.{◌<◌, ◌^◌};
    ghost use Rattle.route_choice.specs.ReachedRouter.{ReachedValue};

    ghost Value = { ReachedValue };

    ghost view = { λ r. record { flags = r.flags; distance = r.distance; hops = r.hops.items } };

    ghost invariant = { λ r. r.distance < 2 ^ 30 };
}

impl ReachedRouter {
    /// Returns true if it is an area border router (bit B of its router-LSA).
    pub fn is_abr(&self) -> bool
        ensures { IsTrue result ↔ (0 < bit_and self.now.flags B) }
    {
        self.flags & BORDER > 0
    }

    /// Returns true if it is an AS boundary router (bit E of its router-LSA).
    pub fn is_asbr(&self) -> bool
        ensures { IsTrue result ↔ (0 < bit_and self.now.flags E) }
    {
        self.flags & BOUNDARY > 0
    }

    /// Returns its distance, a sum of metrics.
    pub fn distance(&self) -> u32
        ensures value { result ≡ self.now.distance }
        ensures bounded { self.now.distance < 2 ^ 30 }
    {
        self.distance
    }

    /// Returns its next hops.
    pub fn hops(&self) -> &[NextHop]
        ensures { result.now ≡ self.now.hops }
    {
        self.hops.as_slice()
    }

    // Returns true if the bits and the distance are equal.
    fn has_numbers_of(&self, other: &ReachedRouter) -> bool
        ensures { IsTrue result ↔ ((self.now.flags ≡ other.now.flags) × (self.now.distance ≡ other.now.distance)) }
    {
        self.flags == other.flags && self.distance == other.distance
    }
}

impl Same for ReachedRouter {
    fn is_same(&self, other: &ReachedRouter) -> bool {
        self.has_numbers_of(other) && self.hops == other.hops
    }
}

/// A router as the tree of an area has it.
#[derive(Clone, Copy)]
pub struct RouterReach<'a> {
    /// The Router ID.
    pub router: u32,
    /// The distance, a sum of metrics, or `None` if the router is not reached.
    pub distance: Option<u32>,
    /// The next hops.
    pub hops: &'a [NextHop],
}

/// Returns the router as a reached border router. `flags` are the bits of its router-LSA, if it has
/// one.
///
/// Returns `None` for the root, for a router that is not reached, and for a router without bits B
/// and E.
pub fn reached_abr_or_asbr(
    alloc: Global,
    root: u32,
    flags: Option<u8>,
    reach: RouterReach<'_>,
) -> Result<Option<ReachedRouter>, Memory>
    requires { IfSome reach.distance (λ distance. distance < 2 ^ 30) }
    ensures { IfOk result (λ kept. kept
        ≡ reached_by root reach.entry.router flags reach.entry.distance reach.entry.hops.now) }
{
    let (Some(flags), Some(distance)) = (flags, reach.distance) else {
        return Ok(None);
    };
    if reach.router == root || !is_abr_or_asbr(flags) {
        return Ok(None);
    }
    let hops = Vec::from_slice(alloc, reach.hops)?;
    Ok(Some(ReachedRouter {
        flags,
        distance,
        hops,
    }))
}

/// Returns true if bit B or bit E is set.
pub fn is_abr_or_asbr(flags: u8) -> bool
    ensures { result ≡ is_abr_or_asbr flags }
{
    flags & BORDER > 0 || flags & BOUNDARY > 0
}
