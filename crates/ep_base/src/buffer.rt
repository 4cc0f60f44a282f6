//! The bytes of a write, which contracts see as a list.
ghost use Rattle.std.specs.Prelude.{◌≡◌, ◌↔◌, ◌==◌, [], length, replicate, slice_index, EachIndex, IfOk, IsOk, IsTrue};
ghost use Rattle.std.specs.Cmp.Lexicographic.{pointwise};
ghost use Rattle.ep_base.specs.Buffer.{content_bytes};

use std::alloc::AllocError;
use std::marker::Model;

/// What a buffer keeps.
#[derive(Drop)]
enum Kept {
    Listed(Vec<u8>),
    Filled(u8, usize),
}

/// The bytes of a buffer, as it keeps them.
#[derive(Clone, Copy)]
pub enum Content<'a> {
    /// These bytes.
    Listed(&'a [u8]),
    /// This byte, so many times.
    Filled(u8, usize),
}

/// The bytes of a write: a list of them, or one byte and how often it comes, which takes no memory.
#[derive(Drop)]
pub struct Buffer {
    kept: Kept,
}

impl Model for Buffer {
    ghost use Rattle.std.specs.Prelude.{List, ℕ};
    ghost use Rattle.ep_base.specs.Buffer.{kept_bytes};

    ghost Value = { List ℕ };

    ghost view = { λ buffer. kept_bytes buffer.kept };
}

impl PartialEq for Buffer {
    ghost use Rattle.std.proofs.Common.{rules};
    ghost use Rattle.std.specs.Cmp.Rules.{comparing};

    ghost eq = { pointwise ◌==◌ };

    ghost laws = { Prim.search (comparing, rules) };

    fn eq(&self, other: &Buffer) -> bool {
        match (self.content(), other.content()) {
            (Content::Listed(mine), Content::Listed(theirs)) => mine == theirs,
            (Content::Listed(mine), Content::Filled(byte, count)) => is_filled(mine, byte, count),
            (Content::Filled(byte, count), Content::Listed(theirs)) => {
                is_filled(theirs, byte, count)
            }
            (Content::Filled(byte, count), Content::Filled(other_byte, other_count)) => {
                count == other_count && (count == 0 || byte == other_byte)
            }
        }
    }
}

impl Eq for Buffer {
    ghost use Rattle.std.proofs.Common.{rules};
    ghost use Rattle.std.specs.Cmp.Rules.{comparing};

    ghost laws = { Prim.search (comparing, rules) };
}

/// Whether all bytes of a list are this one.
fn are_all(list: &[u8], byte: u8) -> bool
    ensures { IsTrue result ↔ EachIndex list.now (λ k. slice_index list.now k ≡ byte) }
{
    list.iter().all(|each| *each == byte)
}

/// Whether a list is this byte, so many times. It looks at the bytes up to the first that is another.
pub fn is_filled(list: &[u8], byte: u8, count: usize) -> bool
    ensures { result ≡ pointwise ◌==◌ list.now (replicate count byte) }
{
    list.len() == count && are_all(list, byte)
}

impl Buffer {
    /// The bytes of a vector, which takes no memory.
    pub fn new(values: Vec<u8>) -> Buffer
        ensures { result ≡ values.items }
    {
        Buffer {
            kept: Kept::Listed(values),
        }
    }

    /// This byte, so many times, which takes no memory.
    pub fn filled(byte: u8, count: usize) -> Buffer
        ensures { result ≡ replicate count byte }
    {
        Buffer {
            kept: Kept::Filled(byte, count),
        }
    }

    /// The bytes, as they are kept.
    pub fn content(&self) -> Content<'_>
        ensures { content_bytes result ≡ self.now }
    {
        match &self.kept {
            Kept::Listed(values) => Content::Listed(values),
            Kept::Filled(byte, count) => Content::Filled(*byte, *count),
        }
    }

    /// How many bytes there are.
    pub fn len(&self) -> usize
        ensures { result ≡ length self.now }
    {
        match &self.kept {
            Kept::Listed(values) => values.len(),
            Kept::Filled(_, count) => *count,
        }
    }

    /// Whether there are no bytes.
    pub fn is_empty(&self) -> bool
        ensures { result ≡ (length self.now == 0) }
    {
        self.len() == 0
    }

    /// The same bytes in another buffer. It can fail only for a list that isn't empty.
    pub fn copy(&self) -> Result<Buffer, AllocError>
        ensures ok { IfOk result (λ copy. copy ≡ self.now) }
        ensures no_bytes { self.now ≡ [] → IsOk result }
    {
        match &self.kept {
            Kept::Listed(values) => {
                let mut copied = Vec::new(*values.allocator());
                copied.extend_from_slice(values)?;
                Ok(Buffer::new(copied))
            }
            Kept::Filled(byte, count) => Ok(Buffer::filled(*byte, *count)),
        }
    }
}
