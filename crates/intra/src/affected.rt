//! The prefixes and routers that an update may change.
ghost use Rattle.std.specs.Prelude.{◌≡◌, []};

use ospf_types::prefix::Prefix;
use std::alloc::Global;

/// The prefixes and routers that an update may change. Its memory is kept from one update to the
/// next.
#[derive(Drop)]
pub(crate) struct Affected {
    /// Prefixes whose entry may change.
    pub(crate) prefixes: Vec<Prefix>,
    /// Routers whose kept value changed in some area.
    pub(crate) routers: Vec<u32>,
}

impl Affected {
    /// Creates an empty value.
    pub(crate) fn new(alloc: Global) -> Affected
        ensures prefixes { result.prefixes.items ≡ [] }
        ensures routers { result.routers.items ≡ [] }
    {
        Affected {
            prefixes: Vec::new(alloc),
            routers: Vec::new(alloc),
        }
    }

    /// Removes all prefixes and routers.
    pub(crate) fn clear(&mut self)
        ensures prefixes { self.new.prefixes.items ≡ [] }
        ensures routers { self.new.routers.items ≡ [] }
    {
        self.prefixes.clear();
        self.routers.clear();
    }
}
