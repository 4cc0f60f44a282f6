//! The registrations that an event reports, as they go through a kernel.
ghost use Rattle.std.specs.Prelude.{◌≡◌, ◌∷◌, [], IfSome, true};

use ep_base::{EntryNumber, Picked};
use smallvec::SmallVec;
use std::alloc::Global;
use std::marker::Model;
use std::slice;

/// What is kept of them.
#[derive(Drop)]
enum Few {
    None,
    One(EntryNumber),
    Many(Box<Picked>),
}

/// The numbers of the registrations that an event reports, in the order of its answer. One stands in place, and several
/// in a box: so it takes 16 bytes. Contracts see it as the list.
#[derive(Drop)]
pub struct Picks {
    few: Few,
}

const _: () = prove!(size_of::<Picks>() == 16);

impl Model for Picks {
    ghost use Rattle.std.specs.Prelude.{List, ℕ};
    ghost use Rattle.ep_calls.specs.Reply.{numbers_in};

    ghost Value = { List ℕ };

    ghost view = { λ picks. numbers_in picks.few };
}

impl Picks {
    /// No registration.
    #[inline(always)]
    pub fn none() -> Picks
        ensures { result ≡ [] }
    {
        Picks { few: Few::None }
    }

    /// One registration.
    #[inline(always)]
    pub fn one(number: EntryNumber) -> Picks
        ensures { result ≡ number ∷ [] }
    {
        Picks {
            few: Few::One(number),
        }
    }

    /// Those of a box.
    pub fn many(picked: Box<Picked>) -> Picks
        ensures { result ≡ picked.value }
    {
        Picks {
            few: Few::Many(picked),
        }
    }

    /// The number of the registration, if there is one and no other.
    #[inline(always)]
    pub fn only(&self) -> Option<EntryNumber>
        ensures { IfSome result (λ n. self.now ≡ n ∷ []) }
    {
        match &self.few {
            Few::One(number) => Some(*number),
            _ => None,
        }
    }

    /// Whether there is no registration. `false` of a box, whatever it has.
    #[inline(always)]
    pub fn is_none(&self) -> bool
        ensures { result ≡ true → self.now ≡ [] }
    {
        matches!(self.few, Few::None)
    }

    /// The numbers as a slice.
    #[inline(always)]
    pub fn as_slice(&self) -> &[EntryNumber]
        ensures { result.now ≡ self.now }
    {
        match &self.few {
            Few::None => &[],
            Few::One(number) => slice::from_ref(number),
            Few::Many(picked) => picked.as_slice(),
        }
    }

    /// The numbers as a list of a record. It takes no memory.
    pub fn into_picked(self, alloc: Global) -> Picked
        ensures { result ≡ self }
    {
        let Picks { few } = self;
        match few {
            Few::None => Picked::empty(alloc),
            Few::One(number) => {
                let mut picked = SmallVec::new(alloc);
                picked.push_reserved(number);
                Picked::new(picked)
            }
            Few::Many(picked) => Box::into_inner(picked),
        }
    }
}
