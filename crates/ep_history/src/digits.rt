//! Bytes from their digits, if these are written as `print_record` writes them.

use std::alloc::Global;
use std::simd::prelude::*;

/// As many digits as are looked at at once.
const BLOCK: usize = 32;

/// Whether the printer writes these digits, which it does of no capital.
fn is_printed(digits: &[u8; BLOCK]) -> bool {
    let digits = u8x32::from_slice(digits);
    let numerals = digits.simd_ge(u8x32::splat(b'0')) & digits.simd_le(u8x32::splat(b'9'));
    let letters = digits.simd_ge(u8x32::splat(b'a')) & digits.simd_le(u8x32::splat(b'f'));
    (numerals | letters).all()
}

/// Whether the printer writes all of these digits. Of less than a block it says nothing: these are soon decoded.
fn may_be_printed(digits: &[u8]) -> bool {
    let (blocks, _) = digits.as_chunks::<BLOCK>();
    for block in blocks {
        if !is_printed(block) {
            return false;
        }
    }
    match digits.last_chunk::<BLOCK>() {
        Some(block) => is_printed(block),
        None => true,
    }
}

/// Whether the printer writes these digits, more than a block, and they are those of one byte over and over.
fn are_of_one_byte(digits: &[u8]) -> bool {
    digits.len() > BLOCK
        && digits[2..] == digits[..digits.len() - 2]
        && match digits.first_chunk::<BLOCK>() {
            Some(block) => is_printed(block),
            None => false,
        }
}

/// The bytes of such digits, of which the first two tell all.
fn run_of(alloc: Global, digits: &[u8]) -> Option<Vec<u8>> {
    let first = digits.first_chunk::<2>()?;
    let mut byte = [0];
    hex::decode_to_slice(first.as_slice(), &mut byte).ok()?;
    vec![in alloc; byte[0]; digits.len() / 2].ok()
}

/// The bytes of these digits. If the printer doesn't write such digits, none is decoded. What a long `fill` wrote is
/// read as one byte over and over, which is decoded once.
pub(crate) fn decoded(alloc: Global, digits: &[u8]) -> Option<Vec<u8>> {
    if are_of_one_byte(digits) {
        return run_of(alloc, digits);
    }
    if !may_be_printed(digits) {
        return None;
    }
    hex::decode(alloc, digits).ok()
}
