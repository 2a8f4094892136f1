//! The comparison of two instances of an LSA, which finds the newer one (RFC 2328, 13.1).
ghost use Rattle.std.specs.Prelude.{◌≡◌};
ghost use Rattle.ospf_types.specs.Instances.{newer_of, age_cmp, swapped};

use ospf_types::lsa::{Header, MAX_AGE, Newer};
use std::cmp::Ordering;

/// MaxAgeDiff, in seconds: ages count as the same if they differ by no more (RFC 2328, appendix B).
const MAX_AGE_DIFF: u16 = 900;

/// Returns the newer one of two instances of an LSA (RFC 2328, 13.1), by the first of these rules
/// that decides:
///
/// 1. the higher LS sequence number, as a signed number,
/// 2. the higher LS checksum,
/// 3. the only one at MaxAge,
/// 4. the lower age, if the ages differ by more than 900 seconds.
///
/// It compares nothing else: the caller has to pass two instances of the same LSA.
///
/// The rules give no total order. Of three instances that differ only in their ages of 0, 600 and
/// 1200, the first is newer than the last. The second is the same as either.
#[tactic(auto, using(crate::proofs::Swapping::other_way))]
pub fn newer(first: &Header, second: &Header) -> Newer
    ensures value { result ≡ newer_of first.now second.now }
    // With the instances swapped, the result means the same instance: `First` becomes `Second`,
    // `Second` becomes `First`, and `Same` stays.
    ensures other_way { newer_of second.now first.now ≡ swapped result }
{
    let by_seq = first.seq.cast_signed().cmp(&second.seq.cast_signed());
    let by_sum = first.sum.cmp(&second.sum);
    let by_age = compare_ages(first.age, second.age);
    match by_seq.then(by_sum.then(by_age)) {
        Ordering::Greater => Newer::First,
        Ordering::Less => Newer::Second,
        Ordering::Equal => Newer::Same,
    }
}

// Compares two ages. The greater one, in this order, is of the newer instance.
fn compare_ages(first: u16, second: u16) -> Ordering
    ensures { result ≡ age_cmp first second }
{
    if first == second {
        Ordering::Equal
    } else if first == MAX_AGE {
        Ordering::Greater
    } else if second == MAX_AGE {
        Ordering::Less
    } else if u32::from(first) + u32::from(MAX_AGE_DIFF) < u32::from(second) {
        Ordering::Greater
    } else if u32::from(second) + u32::from(MAX_AGE_DIFF) < u32::from(first) {
        Ordering::Less
    } else {
        Ordering::Equal
    }
}
