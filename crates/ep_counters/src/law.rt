//! What holds of the definitions, as contracts of functions that do nothing.
ghost use Rattle.ep_counters.specs.Law.{CounterReadLaw, CounterWriteLaw, NextIsOne, NextIsOver, NextStays};
ghost use Rattle.ep_counters.specs.Law.{NextTellsAdvance, TimerAdvanceLaw, TimerReadLaw, TimerSettimeLaw};

/// A bit that begins to hold is raised: by a read and a write of an eventfd, by a read and a settime of a timer,
/// and as the clock goes on. This does nothing: its contract is the law, of every eventfd and timer.
pub fn arrivals_are_raised()
    ensures counter_read { CounterReadLaw }
    ensures counter_write { CounterWriteLaw }
    ensures timer_read { TimerReadLaw }
    ensures timer_settime { TimerSettimeLaw }
    ensures timer_advance { TimerAdvanceLaw }
{}

/// What `Timer::next` ensures is met by one answer alone. As the clock goes on, the timer raises exactly where
/// that moment has come; until then the answer stays, and from then on there is no further such moment,
/// until a read or a new setting. This does nothing: its contract is the law, of every timer.
pub fn next_arrivals()
    ensures one { NextIsOne }
    ensures advance { NextTellsAdvance }
    ensures stays { NextStays }
    ensures over { NextIsOver }
{}
