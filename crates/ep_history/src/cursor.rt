//! What is left of a line.

use memchr::memchr;

/// As many digits as the greatest number of 64 bits has.
const MOST_DIGITS: u32 = 20;

/// So many bytes are looked at one by one, since most texts are short: `memchr` is faster from there on.
const NEAR: usize = 32;

/// What is left of a line. Nothing that it reads is an error: it takes what looks right.
#[derive(Drop)]
pub(crate) struct Cursor<'a> {
    /// The bytes that are left.
    pub(crate) rest: &'a [u8],
}

/// The value of a decimal digit, or more than 9 of another byte.
fn digit(byte: u8) -> u8 {
    byte.wrapping_sub(b'0')
}

/// The signed number of the same bits.
fn signed(number: u64) -> i64 {
    i64::from_ne_bytes(number.to_ne_bytes())
}

impl<'a> Cursor<'a> {
    /// Goes behind this text if it comes next, and answers whether it did.
    pub(crate) fn take(&mut self, text: &[u8]) -> bool {
        match self.rest.strip_prefix(text) {
            Some(rest) => {
                self.rest = rest;
                true
            }
            None => false,
        }
    }

    /// The same, for `?`.
    pub(crate) fn expect(&mut self, text: &[u8]) -> Option<()> {
        if self.take(text) { Some(()) } else { None }
    }

    /// The number that comes next, or `None` if no digit does; any number if it is above 2^64.
    pub(crate) fn natural(&mut self) -> Option<u64> {
        let mut number: u64 = 0;
        let mut rest = self.rest;
        for _ in 0..MOST_DIGITS {
            let Some((byte, behind)) = rest.split_first() else {
                break;
            };
            let digit = digit(*byte);
            if digit > 9 {
                break;
            }
            number = number.wrapping_mul(10).wrapping_add(u64::from(digit));
            rest = behind;
        }
        if rest.len() == self.rest.len() {
            return None;
        }
        self.rest = rest;
        Some(number)
    }

    /// The number that comes next, if it has 32 bits.
    pub(crate) fn natural32(&mut self) -> Option<u32> {
        u32::try_from(self.natural()?).ok()
    }

    /// The number that comes next, perhaps with a minus, or `None` if no digit does; any number if it is none of 64
    /// bits.
    pub(crate) fn integer(&mut self) -> Option<i64> {
        if self.take(b"-") {
            return Some(signed(self.natural()?.wrapping_neg()));
        }
        Some(signed(self.natural()?))
    }

    /// The number that comes next, perhaps with a minus, if it has 32 bits.
    pub(crate) fn integer32(&mut self) -> Option<i32> {
        i32::try_from(self.integer()?).ok()
    }

    /// The truth value that comes next.
    pub(crate) fn flag(&mut self) -> Option<bool> {
        if self.take(b"true") {
            return Some(true);
        }
        self.expect(b"false")?;
        Some(false)
    }

    /// The bytes up to the next quotation mark, which is then behind.
    pub(crate) fn text(&mut self) -> Option<&'a [u8]> {
        let line = self.rest;
        let near = &line[..line.len().min(NEAR)];
        let end = match near.iter().position(|byte| *byte == b'"') {
            Some(end) => end,
            None => memchr(b'"', line)?,
        };
        let (text, rest) = line.split_at_checked(end)?;
        self.rest = rest;
        self.expect(b"\"")?;
        Some(text)
    }
}
