//! Makes the steps that records tell of.
ghost use Rattle.std.specs.Prelude.{◌≡◌, ◌↔◌, IfOk, IsTrue, OnOk, false};
ghost use Rattle.ep_base.specs.Answer.{is_no_memory};
ghost use Rattle.ep_calls.specs.Book.{state_of};
ghost use Rattle.ep_audit.specs.Audit.{Follows, HasMade};
ghost use Rattle.ep_audit.specs.Kept.{StaysOrGrows};

use ep_base::{Answer, Record};
use ep_plain::{Kernel, PlainKernel};
use std::alloc::AllocError;

/// Whether a step was answered as a record says. An `Err`: it found no memory.
fn is_answered(answer: &Answer, next: &Record) -> Result<bool, AllocError>
    ensures real { IfOk result (λ _. is_no_memory answer.now ≡ false) }
    ensures same { IfOk result (λ same. IsTrue same ↔ answer.now ≡ next.now.answer) }
{
    if answer.is_no_memory() {
        return Err(AllocError);
    }
    Ok(answer.is_same(&next.answer))
}

/// Makes the step that the machine has here for the event of a record, whatever it reports. An `Err` is want of memory.
fn make_step(kernel: &mut PlainKernel, next: &Record) -> Result<(), AllocError>
    ensures limits { kernel.new.limits ≡ kernel.old.limits }
    ensures taken { kernel.new.taken ≡ kernel.old.taken }
    ensures grows { StaysOrGrows kernel.old.past kernel.new.past }
    ensures made { OnOk result
        (HasMade kernel.old.limits (state_of kernel.old) next.now kernel.new.past) }
{
    let event = next.event.copy()?;
    if kernel.step(next.caller, event).is_no_memory() {
        return Err(AllocError);
    }
    Ok(())
}

/// Makes the step that a record tells of: whether the machine has it here, with the record's answer. If not, the kernel
/// has made a step of the same event that the machine has here: with the record's report, if there is one with that.
/// After an `Err`, which is want of memory, the kernel is in any state.
pub(crate) fn follow(kernel: &mut PlainKernel, next: &Record) -> Result<bool, AllocError>
    ensures limits { kernel.new.limits ≡ kernel.old.limits }
    ensures taken { kernel.new.taken ≡ kernel.old.taken }
    ensures grows { StaysOrGrows kernel.old.past kernel.new.past }
    ensures goes { IfOk result
        (Follows kernel.old.limits (state_of kernel.old) (state_of kernel.new) next.now) }
    ensures made { IfOk result (λ goes. goes ≡ false
        → HasMade kernel.old.limits (state_of kernel.old) next.now kernel.new.past) }
{
    let event = next.event.copy()?;
    let step = kernel.step_with(next.caller, event, next.picked.as_slice());
    match step {
        None => {
            make_step(kernel, next)?;
            Ok(false)
        }
        Some(answer) => is_answered(&answer, next),
    }
}
