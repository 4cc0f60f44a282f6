//! Answers that are not written yet.
ghost use Rattle.std.specs.Prelude.{◌≤◌, length};

/// The answers to the last lines, which are not written yet: of at most so many bytes as there is room for.
#[derive(Drop)]
pub(crate) struct Gathered {
    pub(crate) bytes: Vec<u8>,
    pub(crate) room: usize,
    ghost within: { length bytes.items ≤ room },
}
