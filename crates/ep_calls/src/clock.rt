//! The simulated clock.
ghost use Rattle.std.specs.Prelude.{◌≡◌, []};
ghost use Rattle.ep_calls.specs.Raising.{IsRaising};
ghost use Rattle.ep_calls.specs.Clock.{Sets, Ticks};

use crate::raising::Raising;
use crate::{Outcome, Parts};
use ep_base::{Answer, Errno, Span};

impl Parts {
    /// The clock goes on by `n`. EINVAL, and it stays, if that takes it past its last moment.
    pub fn tick(&mut self, n: Span) -> Outcome
        ensures ticks { Ticks self.old.clock n self.new.clock result.answer }
        ensures picked { result.picked ≡ [] }
        ensures raising { Sets self.old.clock n result.raising }
        ensures moment { IsRaising result.raising self.old.tables }
        ensures others { self.new ≡ record self.old { clock = self.new.clock } }
    {
        let since = self.clock;
        let Some(now) = since.later(n) else {
            return Outcome::refused(Errno::Einval);
        };
        self.clock = now;
        Outcome::settled(Answer::Done, Raising::Clock { since })
    }
}
