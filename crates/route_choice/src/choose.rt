//! The choice of a result, as a layer of routes defines it.
ghost use Rattle.std.specs.Prelude.{IfOk};

use ospf_types::memory::Memory;
use std::alloc::Global;

/// A layer's rule for the result at a key, with the inputs that offer something to the key.
pub trait Choose<K, V> {
    ghost use Rattle.std.specs.Prelude.{Option};

    // The result that is right at the key, by the present inputs.
    ghost IsChosen: { Self → K → Option V → Type 0 };

    /// Returns the result at the key, or `None` if nothing is offered to it.
    ///
    /// `standing` is the present result at the key. It may hint at what to look up first, and the
    /// returned result does not depend on it.
    fn choose(&self, alloc: Global, key: K, standing: Option<&V>) -> Result<Option<V>, Memory>
        ensures { IfOk result (IsChosen self.now key) };
}
