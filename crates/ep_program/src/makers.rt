//! What makes a kernel for each order.
ghost use Rattle.std.specs.Prelude.{◌≡◌};

use ep_base::Limits;
use ep_kernel::ReadyKernel;
use ep_orders::Makes;
use ep_plain::PlainKernel;
use std::alloc::{AllocError, Global};

/// Makes kernels that scan, under these limits.
#[derive(Clone, Copy)]
pub(crate) struct Plain {
    pub(crate) limits: Limits,
}

impl Makes<PlainKernel> for Plain {
    ghost limits = { λ m. m.limits };

    fn make(&self, alloc: Global) -> Result<PlainKernel, AllocError> {
        PlainKernel::new(alloc, self.limits)
    }
}

/// Makes kernels with ready lists, under these limits.
#[derive(Clone, Copy)]
pub(crate) struct Ready {
    pub(crate) limits: Limits,
}

impl Makes<ReadyKernel> for Ready {
    ghost limits = { λ m. m.limits };

    fn make(&self, alloc: Global) -> Result<ReadyKernel, AllocError> {
        ReadyKernel::new(alloc, self.limits)
    }
}
