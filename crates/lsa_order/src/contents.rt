//! The comparison of the contents of two instances of an LSA (RFC 2328, 13.2).
ghost use Rattle.std.specs.Prelude.{◌≡◌, ◌↔◌, false};
ghost use Rattle.ospf_types.specs.Instances.{HaveSameContents};
ghost use Rattle.lsa_codec.specs.Readers.{with_age};

use lsa_codec::Checked;
use ospf_types::lsa::MAX_AGE;

/// Returns true if the contents of two instances of an LSA differ (RFC 2328, 13.2).
///
/// They differ in Options, length or body, or because only one instance is at MaxAge. The ages, in
/// seconds, are passed separately: an LSA in a database may be older than its header says.
pub fn contents_differ(first: &Checked, first_age: u16, second: &Checked, second_age: u16) -> bool
    ensures { (result ≡ false) ↔ HaveSameContents (with_age first.now first_age) (with_age second.now second_age) }
{
    let same_end = (first_age == MAX_AGE) == (second_age == MAX_AGE);
    let same_length = first.header().length == second.header().length;
    !(same_end && same_length && first.same_contents(second))
}
