//! The pointer to a core that C has.
ghost use Rattle.std.specs.Prelude.{◌≡◌, Option, Some, None, is_some, true};
ghost use Rattle.event_core.specs.Cores.{CoreValue};
ghost use Rattle.abr_c.specs.Owned.{core_coded, handle_owns};

use crate::taken::RawBox;
use event_core::Core;
use std::alloc::Global;
use std::marker::Model;
use std::ptr::null_mut;

/// A pointer to a core, or null.
#[repr(C)]
pub struct Handle {
    at: *mut u8,
    alloc: Global,
    pub ghost inside: { Option CoreValue } by { core_coded },
}

impl Model for Handle {
    ghost also_owns = { λ h. handle_owns h.alloc h.at h.inside };
}

impl Handle {
    pub(crate) fn of(core: Box<Core>) -> Handle
        ensures { result.inside ≡ Some core.value }
    {
        Handle::of_taken(RawBox::of(core))
    }

    pub(crate) fn into_box(self) -> Box<Core>
        requires { is_some self.inside ≡ true }
        ensures { self.inside ≡ Some result.value }
    {
        self.into_taken().into_box()
    }

    pub(crate) fn none(alloc: Global) -> Handle
        ensures { result.inside ≡ None }
    {
        Handle {
            at: null_mut(),
            alloc,
        }
    }

    fn of_taken(taken: RawBox<Core, Global>) -> Handle
        ensures { result.inside ≡ Some taken.inside }
    {
        let RawBox { at, alloc } = taken;
        Handle {
            at: at as *mut u8,
            alloc,
        }
    }

    fn into_taken(self) -> RawBox<Core, Global>
        requires { is_some self.inside ≡ true }
        ensures { self.inside ≡ Some result.inside }
    {
        let Handle { at, alloc } = self;
        RawBox {
            at: at as *mut Core,
            alloc,
        }
    }
}

// A core may move from thread to thread, as one call at a time uses it.
unsafe impl Send for Handle {}
