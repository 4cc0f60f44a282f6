//! Names that are taken, in three spaces.
ghost use Rattle.std.specs.Prelude.{◌≡◌, ℕ, None, OnErr, OnOk, Some, if◌then◌else◌};
ghost use Rattle.ep_base.specs.declared.socket.Name.{Name as the_name};
ghost use Rattle.ep_machine.specs.Names.{free_name, given, same_name};
ghost use Rattle.ep_names.specs.Names.{holds, no_names, numbers_in, owner_of};

use crate::blocks::GIVEN_END;
use crate::numbers::Numbers;
use ep_base::{Name, Space};
use std::alloc::{AllocError, Allocator, Global};
use std::marker::Model;

/// The names that are taken, each with an owner, as the key of the object that has it. Contracts see the numbers and
/// their owners, space by space, in lists whose order says nothing. Memory comes from `A`.
#[derive(Drop)]
pub struct Names<A: Allocator = Global> {
    v4: Numbers<A>,
    v6: Numbers<A>,
    local: Numbers<A>,
}

impl<A: Allocator> Model for Names<A> {
    ghost use Rattle.ep_names.specs.Names.{Taken};

    ghost Value = { Taken };

    ghost view = { λ n. record { v4 = n.v4; v6 = n.v6; local = n.local } };
}

impl<A: Allocator> Names<A> {
    /// No name is taken, which takes no memory.
    pub fn new(alloc: A) -> Self
    where
        A: Copy,
        ensures { result ≡ no_names }
    {
        Names {
            v4: Numbers::new(alloc),
            v6: Numbers::new(alloc),
            local: Numbers::new(alloc),
        }
    }

    /// The numbers of a space that are taken.
    fn numbers(&self, space: Space) -> &Numbers<A>
        ensures { result.now ≡ numbers_in self.now space }
    {
        match space {
            Space::V4 => &self.v4,
            Space::V6 => &self.v6,
            Space::Local => &self.local,
        }
    }

    /// Who has a name, `None` if it isn't taken. It takes constant time.
    pub fn owner(&self, name: Name) -> Option<usize>
        ensures { result ≡ owner_of self.now name }
    {
        self.numbers(name.space).owner(name.number)
    }

    /// The name of the lowest number of a space that can be given, from 32,768 to 60,999, and isn't taken. `None` if
    /// each of them is taken, and only then. It takes constant time.
    pub fn given(&self, space: Space) -> Option<Name>
        ensures { result ≡ given (holds self.now) space }
    {
        let number = self.numbers(space).lowest();
        if number < GIVEN_END {
            Some(Name { space, number })
        } else {
            None
        }
    }

    /// The name that is asked for, `None` if it is taken. Number 0 asks for any, and gets what `given` gives. It takes
    /// constant time.
    pub fn free(&self, name: Name) -> Option<Name>
        ensures { result ≡ free_name (holds self.now) name }
    {
        if name.number == 0 {
            return self.given(name.space);
        }
        match self.owner(name) {
            Some(_) => None,
            None => Some(name),
        }
    }

    /// Takes a name for an owner. If it is taken, it gets this owner in place of its own. `AllocError` if there is no
    /// memory, and then nothing has changed. It takes constant time, unless a table grows or the name was what `given`
    /// gives. Then it looks for the next free number, in blocks of 128. It passes over a block that it found full
    /// before, unless a number of it was freed since. So that takes constant time over many calls.
    pub fn insert(&mut self, name: Name, owner: usize) -> Result<(), AllocError>
        ensures taken { OnOk result
            ((n : the_name) → owner_of self.new n
            ≡ (if same_name name n then Some owner else owner_of self.old n)) }
        ensures kept { OnErr result (self.new ≡ self.old) }
    {
        match name.space {
            Space::V4 => self.v4.insert(name.number, owner),
            Space::V6 => self.v6.insert(name.number, owner),
            Space::Local => self.local.insert(name.number, owner),
        }
    }

    /// Frees a name. Nothing changes if it isn't taken. It takes constant time and no memory.
    pub fn remove(&mut self, name: Name)
        ensures { (n : the_name) → owner_of self.new n
            ≡ (if same_name name n then None else owner_of self.old n) }
    {
        match name.space {
            Space::V4 => self.v4.remove(name.number),
            Space::V6 => self.v6.remove(name.number),
            Space::Local => self.local.remove(name.number),
        }
    }
}
