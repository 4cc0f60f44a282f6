//! What holds of the moments of timers, as a contract of a function that does nothing.
ghost use Rattle.ep_alarms.specs.Law.{BurialLaw};

/// Where each timer has its moment, and those that nothing names or holds are taken out before they die, each timer
/// that is left has its moment. This does nothing: its contract is the law.
pub fn burial_leaves_alarms()
    ensures { BurialLaw }
{}
