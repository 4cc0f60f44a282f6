//! The numbers that are given, in blocks, and marks of the blocks that are full.
ghost use Rattle.std.specs.Prelude.{◌≡◌, ◌≤◌, ◌<◌, OnOk, length, slice_set, ℕ};
ghost use Rattle.ep_names.specs.Numbers.{IsInBlock, block_end, is_marked};

use std::alloc::{AllocError, Allocator};

/// The first number that is given to what asks for any.
pub const FIRST_GIVEN: u32 = 32_768;

/// The number behind the last that is given.
pub const GIVEN_END: u32 = 61_000;

/// How many numbers a block has. The last block has fewer.
const BLOCK_SIZE: u32 = 128;

/// How many blocks the numbers make that are given.
const BLOCK_COUNT: usize = 221;

/// A mark for each block, or none before a number that can be given was taken. A mark that is set says that each number
/// of the block is taken. One that isn't says nothing.
pub type Marks<A> = Vec<bool, A>;

/// The block of a number. The first block is 0.
pub fn block_of(number: u32) -> u32
    requires { 32768 ≤ number }
    ensures { IsInBlock number result }
{
    (number - FIRST_GIVEN) / BLOCK_SIZE
}

/// The number behind the last of a block.
pub fn end_of(block: u32) -> u32
    requires { block < 221 }
    ensures { result ≡ block_end block }
{
    GIVEN_END.min(FIRST_GIVEN + BLOCK_SIZE * (block + 1))
}

/// Makes the marks, if there are none yet and the number is one that can be given. No new mark is set. `AllocError` if
/// there is no memory, and then the marks are as before.
pub fn make_marks<A: Allocator>(marks: &mut Marks<A>, number: u32) -> Result<(), AllocError>
    ensures same { (block : ℕ) →
        is_marked marks.new.items block ≡ is_marked marks.old.items block }
    ensures room { 32768 ≤ number → number < 61000 →
        OnOk result (221 ≤ length marks.new.items) }
{
    let is_given = FIRST_GIVEN <= number && number < GIVEN_END;
    if is_given && marks.len() < BLOCK_COUNT {
        marks.resize(BLOCK_COUNT, false)?;
    }
    Ok(())
}

/// Whether the mark of a block is set.
pub fn has_mark<A: Allocator>(marks: &Marks<A>, block: u32) -> bool
    ensures { result ≡ is_marked marks.now.items block }
{
    marks.get(block as usize).copied().unwrap_or(false)
}

/// Sets the mark of a block, or takes it back. Does nothing if there are no marks yet.
pub fn set_mark<A: Allocator>(marks: &mut Marks<A>, block: u32, full: bool)
    ensures { marks.new.items ≡ slice_set marks.old.items block full }
{
    if let Some(mark) = marks.get_mut(block as usize) {
        *mark = full;
    }
}
