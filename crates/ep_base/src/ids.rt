//! Numbers and keys, each with a type of its own.
ghost use Rattle.std.specs.Prelude.{◌≡◌, nat_lt};

use std::marker::Model;

/// The number of a process, in order of creation. The first is 1, and none is used again.
#[derive(Clone, Copy, Debug, PartialEq, Eq)]
pub struct Pid(pub u64);

/// A descriptor number, as a caller gives it: a negative one names nothing.
#[derive(Clone, Copy, Debug, PartialEq, Eq)]
pub struct Fd(pub i32);

/// Who makes a call: a number that the driver hands in.
#[derive(Clone, Copy, Debug, PartialEq, Eq)]
pub struct CallerId(pub u32);

/// The key of an open file description, which is used again once the description is dead.
#[derive(Clone, Copy, Debug, PartialEq, Eq, Hash)]
pub struct DescId(pub usize);

/// The key of a registration, which is used again once the registration is gone.
#[derive(Clone, Copy, Debug, PartialEq, Eq, Hash)]
pub struct EntryId(pub usize);

/// The number of a registration, in order of its ADD. The first is 1, and none is used again.
#[derive(Clone, Copy, Debug, Default, PartialEq, Eq)]
pub struct EntryNumber(pub u64);

impl Model for EntryNumber {
    ghost use Rattle.std.specs.Prelude.{ℕ};

    ghost Value = { ℕ };

    ghost view = { λ e. e.0 };

    ghost inverse = { λ n. record { 0 = n } };
}

/// The number of an event, in the order of the history. The first is 1, and 0 stands for none.
#[derive(Clone, Copy, Debug, Default, PartialEq, Eq)]
pub struct EventNumber(pub u64);

impl Model for EventNumber {
    ghost use Rattle.std.specs.Prelude.{ℕ};

    ghost Value = { ℕ };

    ghost view = { λ e. e.0 };

    ghost inverse = { λ n. record { 0 = n } };
}

impl EventNumber {
    /// Whether it is the number of an event, and not 0.
    pub fn is_event(self) -> bool
        ensures { result ≡ nat_lt 0 self }
    {
        self.0 > 0
    }
}
