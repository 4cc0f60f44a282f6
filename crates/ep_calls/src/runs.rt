//! Lists of events, and what holds after each.
ghost use Rattle.std.specs.Prelude.{◌≡◌, ℕ, IfOk, OnErr, false, true};
ghost use Rattle.ep_machine.specs.Exclusive.{is_guarded};
ghost use Rattle.ep_machine.specs.Readiness.{is_ready};
ghost use Rattle.ep_machine.specs.Waits.{is_marked_at, waits_at};
ghost use Rattle.ep_calls.specs.Acts.{Answers};

use crate::Kernel;
use ep_base::{Answer, CallerId, Event};
use ep_law::laws;
use std::alloc::AllocError;

/// One answer for each event, in order. An `Err`, for want of memory for the answers, has made no step;
/// an event that is answered ENOMEM has changed nothing, and the later ones are still asked.
pub fn run<K: Kernel>(
    kernel: &mut K,
    events: Vec<(CallerId, Event)>,
) -> Result<Vec<Answer>, AllocError>
    ensures limits { K.bounds kernel.new ≡ K.bounds kernel.old }
    ensures ok { IfOk result
        (λ answers. Answers (K.bounds kernel.old) events.items answers.items (K.state kernel.old)
        (K.state kernel.new) (K.past kernel.old) (K.past kernel.new)) }
    ensures err { OnErr result (kernel.new ≡ kernel.old) }
{
    let mut answers = Vec::with_capacity(*events.allocator(), events.len())?;
    for (caller, event) in events {
        answers.push_reserved(kernel.step(caller, event));
    }
    Ok(answers)
}

/// No waiter is forgotten: at each instance that is ready and has waiters, one of them is marked, whatever events came
/// before, unless an exclusive registration is in it or in an instance beneath it. A fact for proofs.
pub fn ready_waiters_are_marked<K: Kernel>(kernel: &K)
    ensures { (instance : ℕ) → waits_at (K.state kernel.now).waiters instance ≡ true
        → is_ready (K.state kernel.now) instance ≡ true
        → is_guarded (K.state kernel.now) instance ≡ false
        → is_marked_at (K.state kernel.now).waiters instance ≡ true }
{
    let _past = kernel.history();
    laws::ready_waiters_are_marked();
}
