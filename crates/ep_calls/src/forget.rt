//! What was passed on in an event is forgotten at its end.
ghost use Rattle.std.specs.Prelude.{◌≡◌, map};
ghost use Rattle.ep_interest.specs.Registrations.{settled};

use crate::Parts;

impl Parts {
    /// Forgets what registrations passed on in an event. Only those that did are visited.
    pub fn forget_passed(&mut self)
        ensures entries { self.new.interest.entries ≡ map settled self.old.interest.entries }
        ensures keys { self.new.interest.keys ≡ self.old.interest.keys }
        ensures added { self.new.interest.added ≡ self.old.interest.added }
        ensures others { self.new ≡ record self.old { interest = self.new.interest } }
    {
        self.interest.settle();
    }
}
