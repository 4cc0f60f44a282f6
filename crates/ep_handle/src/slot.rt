//! A kernel on the heap whose type C doesn't see, or nothing.
ghost use Rattle.std.specs.Prelude.{◌≡◌, IsSome, None, Option, Some};
ghost use Rattle.ep_kernel.specs.ReadyBook.{ReadyBook};
ghost use Rattle.ep_handle.specs.Slots.{slot_owns};

use crate::bare::Bare;
use ep_kernel::ReadyKernel;
use std::alloc::Global;
use std::marker::Model;
use std::ptr::null_mut;

/// A pointer to a kernel that it owns, or to nothing. It isn't `Drop`: if it goes out of use its kernel is taken
/// out, or it is shown to have none, so no kernel is left behind.
#[repr(C)]
pub struct Slot {
    at: *mut u8,
    alloc: Global,
    pub ghost kernel: { Option ReadyBook },
}

impl Model for Slot {
    ghost also_owns = { λ s. slot_owns s.alloc s.at s.kernel };
}

impl Slot {
    /// Nothing.
    pub(crate) fn empty(alloc: Global) -> Slot
        ensures { result.kernel ≡ None }
    {
        Slot {
            at: null_mut(),
            alloc,
        }
    }

    /// The kernel of a box that was taken apart.
    pub(crate) fn of(kernel: Bare<ReadyKernel, Global>) -> Slot
        ensures { result.kernel ≡ Some kernel.held }
    {
        let Bare { at, alloc } = kernel;
        Slot {
            at: at as *mut u8,
            alloc,
        }
    }

    /// Its kernel, for a box.
    pub(crate) fn into_bare(self) -> Bare<ReadyKernel, Global>
        requires { IsSome self.kernel }
        ensures { self.kernel ≡ Some result.held }
    {
        let Slot { at, alloc } = self;
        Bare {
            at: at as *mut ReadyKernel,
            alloc,
        }
    }

    /// Lets it go if it has no kernel.
    pub(crate) fn forget(self)
        requires { self.kernel ≡ None }
    {
        let Slot { at: _, alloc: _ } = self;
    }
}

unsafe impl Send for Slot {}
