//! What C keeps of a kernel.
ghost use Rattle.std.specs.Prelude.{◌≡◌, MatchOption, None, Some, eqb, is_some};

use crate::bare::Bare;
use crate::slot::Slot;
use ep_kernel::ReadyKernel;
use std::alloc::Global;
use std::mem::replace;

/// The first word of a handle that has a kernel. A handle with any other is empty, so C makes an empty one of zeros.
const OPEN: u64 = 0x6e65706f_72746320;

/// A kernel that C keeps, or nothing. C neither reads nor changes its words, and hands each handle to one call at a
/// time. A copy of a handle is no handle: both would free the kernel.
#[repr(C)]
pub struct Handle {
    mark: u64,
    /// Where the kernel is. Contracts see it as `state.kernel`.
    pub state: Slot,
    ghost fits: { eqb mark 7954887940783760160 ≡ is_some state.kernel },
}

impl Handle {
    /// An empty handle.
    pub fn empty(alloc: Global) -> Handle
        ensures { result.state.kernel ≡ None }
    {
        Handle {
            mark: 0,
            state: Slot::empty(alloc),
        }
    }

    /// A handle of this kernel.
    pub fn of(kernel: Box<ReadyKernel>) -> Handle
        ensures { result.state.kernel ≡ Some kernel.value }
    {
        Handle {
            mark: OPEN,
            state: Slot::of(Bare::of(kernel)),
        }
    }

    /// Whether it has a kernel.
    pub fn is_open(&self) -> bool
        ensures { result ≡ is_some self.now.state.kernel }
    {
        self.mark == OPEN
    }

    /// Its kernel, if it has one.
    pub fn into_box(self) -> Option<Box<ReadyKernel>>
        ensures { MatchOption result (self.state.kernel ≡ None)
            (λ kernel. self.state.kernel ≡ Some kernel.value) }
    {
        let Handle { mark, state } = self;
        if mark == OPEN {
            Some(state.into_bare().into_box())
        } else {
            state.forget();
            None
        }
    }

    /// Takes its kernel out, if it has one, and leaves it empty. It takes no memory.
    pub fn take(&mut self, alloc: Global) -> Option<Box<ReadyKernel>>
        ensures taken { MatchOption result (self.old.state.kernel ≡ None)
            (λ kernel. self.old.state.kernel ≡ Some kernel.value) }
        ensures empty { self.new.state.kernel ≡ None }
    {
        replace(self, Handle::empty(alloc)).into_box()
    }

    /// Puts a kernel into an empty handle. It takes no memory.
    pub fn put(&mut self, kernel: Box<ReadyKernel>)
        requires { self.old.state.kernel ≡ None }
        ensures { self.new.state.kernel ≡ Some kernel.value }
    {
        let Handle {
            mark: _,
            state: empty,
        } = replace(self, Handle::of(kernel));
        empty.forget();
    }
}
