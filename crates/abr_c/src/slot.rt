//! The type that C knows as `abr`.
ghost use Rattle.std.specs.Prelude.{◌≡◌, Some, None, IfOk, IfErr, IfSome, IsNone, is_some};

use crate::handle::Handle;
use event_core::Core;
use std::alloc::Global;
use std::mem::{ManuallyDrop, replace};

/// Evaluates to `$ask` for the core in the slot, and puts the core back. Returns `$none` from the
/// function if the slot has no core.
macro_rules! with_core {
    ($alloc:ident, $slot:ident, $none:expr, |$core:ident| $ask:expr) => {{
        let Some($core) = $slot.take($alloc) else {
            return $none;
        };
        let answer = $ask;
        $slot.put($core);
        answer
    }};
    ($alloc:ident, $slot:ident, $none:expr, |mut $core:ident| $ask:expr) => {{
        let Some(mut $core) = $slot.take($alloc) else {
            return $none;
        };
        let answer = $ask;
        $slot.put($core);
        answer
    }};
}

pub(crate) use with_core;

/// `abr`: a core, or none. C may move it, but does not change it.
#[repr(C)]
pub struct Slot {
    handle: Handle,
    is_open: bool,
    ghost agrees: { is_some handle.inside ≡ is_open },
}

impl Drop for Slot {
    fn drop(self) {
        match self.into_core() {
            Ok(core) => drop(core),
            Err(slot) => slot.leave(),
        }
    }
}

impl Slot {
    ghost use Rattle.abr_c.specs.Slots.{core_in};

    pub(crate) fn of(core: Box<Core>) -> Slot
        ensures { core_in result ≡ Some core.value }
    {
        Slot {
            handle: Handle::of(core),
            is_open: true,
        }
    }

    pub(crate) fn none(alloc: Global) -> Slot
        ensures { core_in result ≡ None }
    {
        Slot {
            handle: Handle::none(alloc),
            is_open: false,
        }
    }

    /// Returns the core, or the slot if it has none.
    pub(crate) fn into_core(self) -> Result<Box<Core>, Slot>
        ensures some { IfOk result (λ core. core_in self ≡ Some core.value) }
        ensures none { IfErr result (λ slot. (core_in slot ≡ None) × (core_in self ≡ None)) }
    {
        let Slot { handle, is_open } = self;
        if is_open {
            Ok(handle.into_box())
        } else {
            Err(Slot { handle, is_open })
        }
    }

    /// Removes and returns the core, if there is one.
    pub(crate) fn take(&mut self, alloc: Global) -> Option<Box<Core>>
        ensures some { IfSome result (λ core. core_in self.old ≡ Some core.value) }
        ensures none { IsNone result → core_in self.old ≡ None }
        ensures left { core_in self.new ≡ None }
    {
        match replace(self, Slot::none(alloc)).into_core() {
            Ok(core) => Some(core),
            Err(slot) => {
                slot.leave();
                None
            }
        }
    }

    /// Puts a core into the slot. A core that was there is closed.
    pub(crate) fn put(&mut self, core: Box<Core>)
        ensures { core_in self.new ≡ Some core.value }
    {
        *self = Slot::of(core);
    }

    // proof: a slot without a core owns nothing, and so need not be dropped.
    fn leave(self)
        requires { core_in self ≡ None }
    {
        let _none = unsafe { ManuallyDrop::new_unchecked(self) };
    }
}
