//! Whose turn it is, and the rules by which turns come.
ghost use Rattle.std.specs.Prelude.{◌≡◌, ◌↔◌, IsTrue};

/// Whose turn it is.
#[derive(Clone, Copy, Debug, PartialEq, Eq)]
pub enum Turn {
    /// That of the caller whose line has this number, counted from 0.
    Line(usize),
    /// That of the clock, which goes to the next moment at which something happens.
    Clock,
}

impl Turn {
    /// Whether two turns are the same one's.
    pub fn is_same(self, other: Turn) -> bool
        ensures { IsTrue result ↔ self ≡ other }
    {
        match (self, other) {
            (Turn::Line(a), Turn::Line(b)) => a == b,
            (Turn::Clock, Turn::Clock) => true,
            _ => false,
        }
    }
}

/// When the clock may have a turn: only if something happens at a later moment, and
#[derive(Clone, Copy, Debug, PartialEq, Eq)]
pub enum ClockTurns {
    /// only while no caller can go on.
    Idle,
    /// at any point.
    Any,
}

/// Which orders are run.
#[derive(Clone, Copy, Debug)]
pub struct Rules {
    /// When time may pass.
    pub clock: ClockTurns,
    /// How many pre-emptions an order may have: turns of another while whoever went last could go on, and turns of the
    /// clock while a caller could. `None` is any number.
    pub bound: Option<u64>,
}
