//! Lists that are short as a rule, which contracts see as lists.
ghost use Rattle.std.specs.Prelude.{◌≡◌, ◌≤◌, [], IfOk, IsOk, length};

use crate::answer::Report;
use crate::ids::EntryNumber;
use smallvec::SmallVec;
use std::alloc::{AllocError, Global};
use std::marker::Model;

/// A list of which `N` values take no memory.
#[derive(Drop)]
pub struct ShortList<T, const N: usize> {
    values: SmallVec<T, N>,
}

/// The bytes that a read gave: 16 of them take no memory.
pub type Bytes = ShortList<u8, 16>;

/// What a wait reports: 4 reports take no memory.
pub type Reports = ShortList<Report, 4>;

/// The numbers of the registrations that a wait reports, counted from 1: 4 of them take no memory.
pub type Picked = ShortList<EntryNumber, 4>;

impl<T, const N: usize> Model for ShortList<T, N> {
    ghost use Rattle.std.specs.Prelude.{List};

    ghost Value = { List T };

    ghost view = { λ list. list.values.items };
}

impl<T: PartialEq, const N: usize> PartialEq for ShortList<T, N> {
    ghost use Rattle.std.specs.Cmp.Lexicographic.{pointwise, lists_per};

    ghost eq = { pointwise T.eq };

    ghost laws = { lists_per T.laws };

    fn eq(&self, other: &ShortList<T, N>) -> bool {
        self.values == other.values
    }
}

impl<T: Eq, const N: usize> Eq for ShortList<T, N> {
    ghost use Rattle.std.specs.Cmp.Lexicographic.{lists_equiv};

    ghost laws = { lists_equiv T.Eq.laws };
}

impl<T: Copy + Default, const N: usize> ShortList<T, N> {
    /// The values of a small vector.
    pub fn new(values: SmallVec<T, N>) -> ShortList<T, N>
        ensures { result ≡ values.items }
    {
        ShortList { values }
    }

    /// No values, which takes no memory.
    pub fn empty(alloc: Global) -> ShortList<T, N>
        ensures { result ≡ [] }
    {
        ShortList {
            values: SmallVec::new(alloc),
        }
    }

    /// The values as a slice.
    pub fn as_slice(&self) -> &[T]
        ensures { result.now ≡ self.now }
    {
        self.values.as_slice()
    }

    /// The same values once more; it can fail above `N` of them alone.
    pub fn copy(&self) -> Result<ShortList<T, N>, AllocError>
        ensures ok { IfOk result (λ copy. copy ≡ self.now) }
        ensures inline { length self.now ≤ N → IsOk result }
    {
        Ok(ShortList {
            values: SmallVec::from_slice(*self.values.allocator(), self.as_slice())?,
        })
    }
}
