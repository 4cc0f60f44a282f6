//! Times of the simulated clock: moments, spans and timeouts.
ghost use Rattle.std.specs.Prelude.{◌≡◌, ◌+◌, ◌≤◌, ◌↔◌, IfSome, IsSome, IsTrue, pos};
ghost use Rattle.ep_base.specs.Time.{last_moment};

use std::marker::Model;

/// The last moment of the simulated clock, in microseconds since it began.
pub const LAST_MOMENT: u64 = 1_000_000_000_000_000;

/// A moment of the simulated clock: so many microseconds since it began, at most `LAST_MOMENT`.
#[derive(Clone, Copy, Debug, PartialEq, Eq)]
pub struct Moment {
    at: u64,
}

impl Model for Moment {
    ghost use Rattle.std.specs.Prelude.{◌≤◌, ℕ};
    ghost use Rattle.ep_base.specs.Time.{last_moment};

    ghost Value = { ℕ };

    ghost view = { λ m. m.at };

    ghost invariant = { λ m. m.at ≤ last_moment };

    ghost inverse = { λ n. record { at = n } };
}

impl Moment {
    /// The moment at which the clock begins.
    pub fn first() -> Moment
        ensures { result ≡ 0 }
    {
        Moment { at: 0 }
    }

    /// The moment so many microseconds after the clock began. `None` past the last one.
    pub fn new(at: u64) -> Option<Moment>
        ensures there { IsSome result ↔ (at ≤ last_moment) }
        ensures at { IfSome result (λ m. m ≡ at) }
    {
        if at > LAST_MOMENT {
            return None;
        }
        Some(Moment { at })
    }

    /// The moment that follows after a span. `None` past the last one.
    pub fn later(self, by: Span) -> Option<Moment>
        ensures there { IsSome result ↔ (self + by ≤ last_moment) }
        ensures at { IfSome result (λ m. m ≡ self + by) }
    {
        if by.0 > LAST_MOMENT - self.at {
            return None;
        }
        Some(Moment { at: self.at + by.0 })
    }

    /// How many microseconds after the clock began it is, at most `LAST_MOMENT`.
    pub fn at(self) -> u64
        ensures at { result ≡ self }
        ensures bound { result ≤ last_moment }
    {
        self.at
    }
}

/// A span of time: so many microseconds. A caller may ask for any that 64 bits hold.
#[derive(Clone, Copy, Debug, PartialEq, Eq)]
pub struct Span(pub u64);

impl Model for Span {
    ghost use Rattle.std.specs.Prelude.{ℕ};

    ghost Value = { ℕ };

    ghost view = { λ s. s.0 };

    ghost inverse = { λ n. record { 0 = n } };
}

/// How long a wait lasts at most, in microseconds: 0 not at all, and below 0 without end.
#[derive(Clone, Copy, Debug, PartialEq, Eq)]
pub struct Timeout(pub i64);

impl Model for Timeout {
    ghost use Rattle.std.specs.Prelude.{ℤ};

    ghost Value = { ℤ };

    ghost view = { λ t. t.0 };

    ghost inverse = { λ n. record { 0 = n } };
}

impl Timeout {
    /// Whether a wait ends at once.
    pub fn is_zero(self) -> bool
        ensures { IsTrue result ↔ self ≡ pos 0 }
    {
        self.0 == 0
    }
}
