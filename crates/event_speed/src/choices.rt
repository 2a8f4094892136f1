//! Random choices.

use rand_core::Rng;
use rand_xoshiro::Xoshiro256PlusPlus;

/// Returns a number below a bound, or 0 if the bound is 0.
pub fn below(random: &mut Xoshiro256PlusPlus, bound: u32) -> u32 {
    random.next_u32().checked_rem(bound).unwrap_or(0)
}

/// Returns true with one chance in `chances`.
pub fn one_in(random: &mut Xoshiro256PlusPlus, chances: u32) -> bool {
    below(random, chances) == 0
}

/// Returns a metric below a bound.
pub fn metric_below(random: &mut Xoshiro256PlusPlus, bound: u32) -> u16 {
    u16::try_from(below(random, bound)).unwrap_or(1)
}
