//! Reads many texts.
ghost use Rattle.std.specs.Prelude.{◌≡◌, IfOk, option_map};
ghost use Rattle.json.specs.Lex.{tokens};
ghost use Rattle.serde_json.specs.View.{view};
ghost use Rattle.ep_json.specs.Text.{text_data};

use crate::tree::whole_tree;
use json::{Reader, Scratch};
use serde_json::Value;
use std::alloc::{AllocError, Global};

/// The longest text whose room a `ValueReader` keeps.
pub const LONGEST_KEPT: usize = 16_384;

/// Reads JSON texts one after another. It keeps the room that this takes from text to text, for texts of
/// `LONGEST_KEPT` bytes at most. A longer one leaves no room behind.
#[derive(Drop)]
pub struct ValueReader {
    alloc: Global,
    // It takes 16 KiB, so it stands in no frame.
    scratch: Option<Box<Scratch>>,
}

/// It has a frame of its own, in which the scratch stands for a moment.
#[inline(never)]
fn new_scratch(alloc: Global) -> Result<Box<Scratch>, AllocError> {
    Ok(Box::new(alloc, Scratch::new(alloc))?)
}

impl ValueReader {
    /// It has no room yet, and takes it as texts need it.
    pub fn new(alloc: Global) -> ValueReader {
        ValueReader {
            alloc,
            scratch: None,
        }
    }

    /// The value that a text is, or `None` exactly where it is no JSON. What nests deeper than 127 is none, nor is what
    /// has a number too large for a float. `AllocError` is want of memory. The time grows with the text, and as the
    /// logarithm of the members of an object for each of them.
    pub fn read(&mut self, alloc: Global, text: &[u8]) -> Result<Option<Value>, AllocError>
        ensures { IfOk result (λ r. option_map view r ≡ text_data text.now) }
    {
        if text.len() > LONGEST_KEPT {
            self.read_long(alloc, text)
        } else {
            self.read_kept(alloc, text)
        }
    }

    /// The tokens of a text. The room for them is kept, however long it is.
    pub fn tokens<'a>(&'a mut self, text: &'a str) -> Result<Reader<'a>, AllocError>
        ensures { IfOk result (λ reader. reader ≡ tokens text.now) }
    {
        let scratch = match self.scratch.take() {
            Some(kept) => kept,
            None => new_scratch(self.alloc)?,
        };
        Reader::new(text, self.scratch.insert(scratch))
    }

    fn read_kept(&mut self, alloc: Global, text: &[u8]) -> Result<Option<Value>, AllocError>
        ensures { IfOk result (λ r. option_map view r ≡ text_data text.now) }
    {
        let Ok(text) = std::str::from_utf8(text) else {
            return Ok(None);
        };
        let mut reader = self.tokens(text)?;
        whole_tree(alloc, &mut reader)
    }

    /// The room that is kept goes first, so that no more is asked for than the text has bytes.
    fn read_long(&mut self, alloc: Global, text: &[u8]) -> Result<Option<Value>, AllocError>
        ensures { IfOk result (λ r. option_map view r ≡ text_data text.now) }
    {
        self.scratch = None;
        let found = self.read_kept(alloc, text);
        self.scratch = None;
        found
    }
}
