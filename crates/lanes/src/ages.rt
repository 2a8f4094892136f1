//! The ages of LSAs, in seconds.
ghost use Rattle.std.specs.Prelude.{◌≡◌, ℕ, ◌≤◌, All, length, map, count_by};
ghost use Rattle.lanes.specs.Ages.{MaxAge, next_age, comes_to_max_age};

use crate::lane::LANES;
use std::simd::prelude::*;

const MAX_AGE: u16 = 3600;

/// Ages all LSAs by one second (RFC 2328, 14): each age below MaxAge, 3600 seconds, rises by one.
/// Returns the number of ages that reached MaxAge.
pub fn second(ages: &mut [u16]) -> usize
    requires { All (λ age. age ≤ MaxAge) ages.old }
    ensures aged { ages.new ≡ map next_age ages.old }
    ensures came { result ≡ count_by comes_to_max_age ages.old }
{
    let mut came = 0;
    let mut first = 0;
    while LANES <= ages.len() - first {
        came += second_of_lanes(&mut ages[first..first + LANES]);
        first += LANES;
    }
    came + second_one_by_one(&mut ages[first..])
}

// Ages one vector of LSAs by one second. Returns the number of ages that reached MaxAge.
fn second_of_lanes(ages: &mut [u16]) -> usize
    requires full { length ages.old ≡ LANES }
    requires small { All (λ age. age ≤ MaxAge) ages.old }
    ensures aged { ages.new ≡ map next_age ages.old }
    ensures came { result ≡ count_by comes_to_max_age ages.old }
{
    let max_age = u16x32::splat(MAX_AGE);
    let next = u16x32::from_slice(ages) + u16x32::splat(1);
    next.simd_min(max_age).copy_to_slice(ages);
    next.simd_eq(max_age).to_bitmask().count_ones() as usize
}

// Ages LSAs by one second, one at a time. Returns the number of ages that reached MaxAge.
fn second_one_by_one(ages: &mut [u16]) -> usize
    requires { All (λ age. age ≤ MaxAge) ages.old }
    ensures aged { ages.new ≡ map next_age ages.old }
    ensures came { result ≡ count_by comes_to_max_age ages.old }
{
    let mut came = 0;
    for age in ages.iter_mut() {
        if second_of(age) {
            came += 1;
        }
    }
    came
}

// Ages one LSA by one second. Returns true if its age reached MaxAge.
fn second_of(age: &mut u16) -> bool
    requires { age.old ≤ MaxAge }
    ensures aged { age.new ≡ next_age age.old }
    ensures came { result ≡ comes_to_max_age age.old }
{
    // 14: the age rises by one, but not past MaxAge.
    let next = *age + 1;
    *age = next.min(MAX_AGE);
    next == MAX_AGE
}
