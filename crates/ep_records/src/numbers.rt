//! The numbers of what a record reports.
ghost use Rattle.std.specs.Prelude.{◌≡◌, [], ◌∷◌, IfOk};

use ep_base::{EntryNumber, Picked};
use smallvec::SmallVec;
use std::alloc::{AllocError, Global};
use std::marker::Model;

/// How numbers are held.
#[derive(Clone, Copy)]
enum Held<'a> {
    /// The only one.
    Alone([EntryNumber; 1]),
    /// Where they stand.
    Beside(&'a [EntryNumber]),
}

/// The numbers of the registrations that a record reports. They take no memory. Contracts see the list.
#[derive(Drop)]
pub struct Numbers<'a> {
    held: Held<'a>,
}

impl<'a> Model for Numbers<'a> {
    ghost use Rattle.std.specs.Prelude.{List, ℕ};
    ghost use Rattle.ep_records.specs.Numbers.{held_numbers};

    ghost Value = { List ℕ };

    ghost view = { λ numbers. held_numbers numbers.held };
}

impl<'a> Numbers<'a> {
    /// No number.
    pub fn none() -> Numbers<'a>
        ensures { result ≡ [] }
    {
        Numbers::these(&[])
    }

    /// One number.
    pub(crate) fn one(number: EntryNumber) -> Numbers<'a>
        ensures { result ≡ number ∷ [] }
    {
        Numbers {
            held: Held::Alone([number]),
        }
    }

    /// These numbers.
    pub(crate) fn these(numbers: &'a [EntryNumber]) -> Numbers<'a>
        ensures { result ≡ numbers.now }
    {
        Numbers {
            held: Held::Beside(numbers),
        }
    }

    /// The numbers as a slice.
    pub fn as_slice(&self) -> &[EntryNumber]
        ensures { result.now ≡ self.now }
    {
        match &self.held {
            Held::Alone(one) => one,
            Held::Beside(many) => many,
        }
    }

    /// The numbers, in memory of their own. An `AllocError` comes where memory is refused, which is asked for more
    /// than 4 of them.
    pub fn to_picked(&self, alloc: Global) -> Result<Picked, AllocError>
        ensures { IfOk result (λ picked. picked ≡ self.now) }
    {
        Ok(Picked::new(SmallVec::from_slice(alloc, self.as_slice())?))
    }
}
