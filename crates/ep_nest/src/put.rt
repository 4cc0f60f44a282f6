//! A value at the end of a list, in room that is there.
ghost use Rattle.std.specs.Prelude.{◌≡◌, ◌<◌, ◌≤◌, ◌++◌, ◌∷◌, ◌+◌, [], vec_capacity, vec_len};

use std::alloc::Allocator;

/// Puts a value at the end, in room that is there.
pub fn put<T: Copy + Drop, A: Allocator>(values: &mut Vec<T, A>, value: T)
    requires { vec_len values.old < vec_capacity values.old }
    ensures items { values.new.items ≡ values.old.items ++ value ∷ [] }
    ensures len { vec_len values.new ≡ vec_len values.old + 1 }
    ensures room { vec_capacity values.old ≤ vec_capacity values.new }
{
    let _done = values.push(value);
}
