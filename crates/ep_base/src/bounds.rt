//! Bounds that are the same for every kernel.

/// How many instances a chain of nested instances may have, both ends counted.
pub const LONGEST_CHAIN: u8 = 5;
