//! The comparison of an old and a new result.
ghost use Rattle.std.specs.Prelude.{◌≡◌, ◌↔◌, IsTrue, option_copied};

use ospf_types::entry::Entry;

/// A type whose values can be compared as a whole.
pub trait Same {
    /// Returns true if the values are equal.
    fn is_same(&self, other: &Self) -> bool
        ensures { IsTrue result ↔ (self.now ≡ other.now) };
}

impl Same for Entry {
    fn is_same(&self, other: &Entry) -> bool {
        Entry::is_same(self, other)
    }
}

impl Same for u32 {
    fn is_same(&self, other: &u32) -> bool {
        *self == *other
    }
}

/// Returns true if the values are equal, or both are absent.
pub fn are_same<T: Same>(a: Option<&T>, b: Option<&T>) -> bool
    ensures { IsTrue result ↔ (option_copied a.entry ≡ option_copied b.entry) }
{
    match (a, b) {
        (Some(a), Some(b)) => a.is_same(b),
        (None, None) => true,
        _ => false,
    }
}
