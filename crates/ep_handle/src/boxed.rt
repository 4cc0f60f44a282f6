//! The making of a kernel on the heap and its end, in functions of their own: a function that does either takes long
//! to prove.
ghost use Rattle.std.specs.Prelude.{◌≡◌, [], IfOk};

use ep_base::Limits;
use ep_kernel::ReadyKernel;
use std::alloc::{AllocError, Global};

/// A kernel in its opening state, on the heap. An `Err` is want of memory.
pub fn new_kernel(alloc: Global, limits: Limits) -> Result<Box<ReadyKernel>, AllocError>
    ensures { IfOk result (λ kernel. kernel.value ≡ record {
      book = record { limits = limits; past = []; taken = []; capacity = 0 };
      lists = [];
    }) }
{
    let kernel = ReadyKernel::new(alloc, limits)?;
    Ok(Box::new(alloc, kernel)?)
}

/// Frees a kernel.
pub fn free_kernel(kernel: Box<ReadyKernel>) {
    drop(kernel);
}
