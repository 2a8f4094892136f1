//! The numbers that a vector has lanes of.
ghost use Rattle.std.specs.Prelude.{◌≡◌, ℕ, length};
ghost use Rattle.std.specs.List.{list_any};

use std::simd::prelude::*;

pub(crate) const LANES: usize = 32;

pub(crate) trait Lane: PartialEq + Copy {
    // Returns true if a lane of the vector has the value.
    fn is_among(lanes: &[Self], value: Self) -> bool
        requires { length lanes.now ≡ 32 }
        ensures { result ≡ list_any (λ x. Self.eq x value) lanes.now };
}

impl Lane for u16 {
    fn is_among(lanes: &[u16], value: u16) -> bool {
        let hits = u16x32::from_slice(lanes).simd_eq(u16x32::splat(value));
        hits.to_bitmask() != 0
    }
}

impl Lane for u32 {
    fn is_among(lanes: &[u32], value: u32) -> bool {
        let hits = u32x32::from_slice(lanes).simd_eq(u32x32::splat(value));
        hits.to_bitmask() != 0
    }
}
