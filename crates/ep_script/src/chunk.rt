//! The bytes that were read and not yet used.
ghost use Rattle.std.specs.Prelude.{◌≡◌, ◌≤◌, vec_len};
ghost use Rattle.ep_script.specs.Lines.{most_read};

/// A chunk of the input, of which the bytes from `start` to `end` are not yet used.
#[derive(Drop)]
pub(crate) struct Input {
    pub(crate) chunk: Vec<u8>,
    pub(crate) start: usize,
    pub(crate) end: usize,
    ghost ordered: { start ≤ end },
    ghost within: { end ≤ vec_len chunk },
    ghost is_full_size: { vec_len chunk ≡ most_read },
}
