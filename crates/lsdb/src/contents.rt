//! The check that an installed LSA changes what calculations use (RFC 2328, 13.2).
ghost use Rattle.lsdb.specs.Contents.{TellsUseBeside};

use lsa_codec::Checked;
use lsa_order::contents_differ;
use ospf_types::lsa::MAX_AGE;

/// Returns true if installing the LSA changes what calculations use: Options and body (RFC 2328,
/// 13.2).
///
/// `held` is the database instance with its present age in seconds. An instance at MaxAge is not
/// used.
pub(crate) fn is_used_otherwise(held: Option<(&Checked, u16)>, lsa: &Checked) -> bool
    ensures { TellsUseBeside held.entry lsa.now result }
{
    let age = lsa.header().age;
    let is_used = age < MAX_AGE;
    match held {
        None => is_used,
        Some((held, held_age)) => {
            // proof: the instance is in the grammar, so its length follows from its body.
            prove!(held.header().age <= MAX_AGE);
            let was_used = held_age < MAX_AGE;
            was_used != is_used || was_used && contents_differ(held, held_age, lsa, age)
        }
    }
}
