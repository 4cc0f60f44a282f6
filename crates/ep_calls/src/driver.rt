//! What goes on by itself: whoever is marked, and the clock.
ghost use Rattle.std.specs.Prelude.{◌≡◌};
ghost use Rattle.std.specs.Option.{option_map};
ghost use Rattle.ep_machine.specs.State.{State};
ghost use Rattle.ep_view.specs.AtRest.{AtRest};
ghost use Rattle.ep_calls.specs.Arrivals.{TellsArrival};
ghost use Rattle.ep_calls.specs.Driver.{TellsNext, first_marked};
ghost use Rattle.ep_calls.specs.Moves.{StandFor};

use crate::Parts;
use ep_base::{CallerId, Moment};
use ep_park::earlier;

impl Parts {
    /// The first moment after now at which a tick to it raises a bit or marks a caller; `None` if no tick does.
    /// `arrival`: the first moment after now at which the clock raises a bit, or `None` if it raises none. The cost is
    /// constant.
    pub fn next_moment_with(&self, arrival: Option<u64>) -> Option<Moment>
        requires { TellsArrival self.now.tables.files self.now.clock arrival }
        ensures { (s : State) → AtRest s → StandFor self.now s → TellsNext s result }
    {
        let moment = earlier(arrival, self.waiters.first_deadline())?;
        Moment::new(moment)
    }

    /// Of the marked callers the one that was parked first; `None` if none is marked. It looks at waiters up to
    /// that one.
    pub fn first_marked(&self) -> Option<CallerId>
        ensures { (s : State) → StandFor self.now s
            → option_map (λ c. c.0) result ≡ first_marked s }
    {
        self.waiters.first_marked()
    }
}
