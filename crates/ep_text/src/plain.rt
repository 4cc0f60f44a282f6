//! The commonest commands as most lines write them: with no blank, `op` first, then `by` if it is there, then the other
//! keys in the order of docs/script.md, and no `pid`. Each is read in one pass, and not a token at a time.
ghost use Rattle.std.specs.Fmt.{signed_decimal};
ghost use Rattle.std.specs.Int.{w32};
ghost use Rattle.std.specs.Prelude.{◌≡◌, ◌++◌, ◌<◌, ◌≤◌, ◌+◌, ◌^◌, FitsSigned, IfOk, IfSome, Some, codes, decimal, true};
ghost use Rattle.ep_text.specs.Event.{as_written};
ghost use Rattle.ep_text.specs.Plain.{IsShort, by_text, call_command, read_rest, wait_rest, write_rest};

use ep_base::{Buffer, Call, CallerId, Event, Fd, Pid, Timeout};
use hex::FromHexError;
use std::alloc::{AllocError, Global};
use std::simd::prelude::*;

/// One more digit would take a greater number too near to 64 bits.
const MOST_BEFORE_A_DIGIT: u64 = 99_999_999_999_999_999;

/// Where the operation of such a line begins.
const FIRST_LETTER: usize = 7;

/// As many hexadecimal digits as are looked at at once.
const BLOCK: usize = 32;

/// What stands behind this text.
#[inline(always)]
fn behind<'a, const N: usize>(rest: &'a [u8], text: &[u8; N]) -> Option<&'a [u8]>
    ensures { IfSome result (λ left. rest.now ≡ text.now ++ left.now) }
{
    let (front, left) = rest.split_first_chunk::<N>()?;
    if front == text { Some(left) } else { None }
}

/// What stands before this text, which comes last.
#[inline(always)]
fn before<'a, const N: usize>(rest: &'a [u8], text: &[u8; N]) -> Option<&'a [u8]>
    ensures { IfSome result (λ left. rest.now ≡ left.now ++ text.now) }
{
    let (left, end) = rest.split_last_chunk::<N>()?;
    if end == text { Some(left) } else { None }
}

/// The value of a decimal digit.
#[inline(always)]
fn digit(byte: u8) -> Option<u8>
    ensures { IfSome result (λ value. (value ≤ 9) × (byte ≡ 48 + value)) }
{
    if byte < b'0' || byte > b'9' {
        return None;
    }
    Some(byte - b'0')
}

/// The number that comes next, of 18 digits at most and written as it is printed, and what stands behind it.
#[inline(always)]
fn natural<'a>(rest: &'a [u8]) -> Option<(u64, &'a [u8])>
    ensures text { IfSome result (λ p. rest.now ≡ decimal p.0 ++ p.1.now) }
    ensures short { IfSome result (λ p. p.0 < 10 ^ 18) }
{
    let (first, behind) = rest.split_first()?;
    let mut number = u64::from(digit(*first)?);
    let mut left = behind;
    'digits: while let Some((byte, after)) = left.split_first() {
        let Some(value) = digit(*byte) else {
            break;
        };
        if number == 0 || number > MOST_BEFORE_A_DIGIT {
            return None;
        }
        number = number * 10 + u64::from(value);
        left = after;
    }
    Some((number, left))
}

/// The same of a number that may have a minus.
#[inline(always)]
fn integer<'a>(rest: &'a [u8]) -> Option<(i64, &'a [u8])>
    ensures text { IfSome result (λ p. rest.now ≡ signed_decimal p.0 ++ p.1.now) }
    ensures short { IfSome result (λ p. IsShort p.0) }
{
    let Some(digits) = behind(rest, b"-") else {
        let (number, left) = natural(rest)?;
        return Some((number as i64, left));
    };
    let (number, left) = natural(digits)?;
    if number == 0 {
        // `-0` is a float.
        return None;
    }
    Some((-(number as i64), left))
}

/// The number of 64 bits behind this text, and what stands behind it.
#[inline(always)]
fn field<'a, const N: usize>(rest: &'a [u8], text: &[u8; N]) -> Option<(i64, &'a [u8])>
    ensures text { IfSome result (λ p. rest.now ≡ text.now ++ (signed_decimal p.0 ++ p.1.now)) }
    ensures short { IfSome result (λ p. IsShort p.0) }
{
    integer(behind(rest, text)?)
}

/// The number of 32 bits behind this text, and what stands behind it.
#[inline(always)]
fn short_field<'a, const N: usize>(rest: &'a [u8], text: &[u8; N]) -> Option<(i32, &'a [u8])>
    ensures text { IfSome result (λ p. rest.now ≡ text.now ++ (signed_decimal p.0 ++ p.1.now)) }
    ensures fits { IfSome result (λ p. FitsSigned w32 p.0) }
{
    let (number, left) = field(rest, text)?;
    match i32::try_from(number) {
        Ok(number) => Some((number, left)),
        Err(_) => None,
    }
}

/// The number of 32 bits and without a sign that comes next, and what stands behind it.
#[inline(always)]
fn short_natural<'a>(rest: &'a [u8]) -> Option<(u32, &'a [u8])>
    ensures text { IfSome result (λ p. rest.now ≡ decimal p.0 ++ p.1.now) }
    ensures fits { IfSome result (λ p. p.0 < 2 ^ 32) }
{
    let (number, left) = natural(rest)?;
    match u32::try_from(number) {
        Ok(number) => Some((number, left)),
        Err(_) => None,
    }
}

/// Who asks, if `by` comes next, and what stands behind it.
#[inline(always)]
fn caller<'a>(rest: &'a [u8]) -> Option<(Option<u32>, &'a [u8])>
    ensures text { IfSome result (λ p. rest.now ≡ by_text p.0 ++ p.1.now) }
    ensures fits { IfSome result (λ p. IfSome p.0 (λ n. n < 2 ^ 32)) }
{
    let Some(number) = behind(rest, b",\"by\":") else {
        return Some((None, rest));
    };
    let (by, left) = short_natural(number)?;
    Some((Some(by), left))
}

/// Whether an object ends here, and nothing comes behind it.
#[inline(always)]
fn is_end(rest: &[u8]) -> bool
    ensures { result ≡ true → rest.now ≡ codes "}" }
{
    rest == b"}".as_slice()
}

/// The command of a call of the first process.
#[inline(always)]
fn command(by: Option<u32>, call: Call) -> (CallerId, Event)
    ensures { result ≡ call_command by call }
{
    (CallerId(by.unwrap_or(0)), Event::Call { pid: Pid(1), call })
}

/// The command of a line that has this behind its operation `wait`.
#[inline(never)]
fn wait_command(rest: &[u8]) -> Option<(CallerId, Event)>
    ensures { IfSome result (λ c. as_written (codes "{\"op\":\"wait\"" ++ rest.now) ≡ Some c) }
{
    let (by, behind_by) = caller(rest)?;
    let (epfd, behind_ep) = short_field(behind_by, b",\"ep\":")?;
    let (max, behind_max) = short_field(behind_ep, b",\"max\":")?;
    let (timeout, end) = field(behind_max, b",\"timeout\":")?;
    if !is_end(end) {
        return None;
    }
    Some(command(
        by,
        Call::EpollWait {
            epfd: Fd(epfd),
            max,
            timeout: Timeout(timeout),
        },
    ))
}

/// The command of a line that has this behind its operation `read`.
#[inline(never)]
fn read_command(rest: &[u8]) -> Option<(CallerId, Event)>
    ensures { IfSome result (λ c. as_written (codes "{\"op\":\"read\"" ++ rest.now) ≡ Some c) }
{
    let (by, behind_by) = caller(rest)?;
    let (fd, behind_fd) = short_field(behind_by, b",\"fd\":")?;
    let (n, end) = short_natural(behind(behind_fd, b",\"n\":")?)?;
    if !is_end(end) {
        return None;
    }
    Some(command(by, Call::Read { fd: Fd(fd), n }))
}

/// Whether all of these may be hexadecimal digits. It lets a few signs pass.
#[inline(always)]
fn look_like_hex(block: &[u8; BLOCK]) -> bool {
    let small = u8x32::from_slice(block) | u8x32::splat(b' ');
    (small.simd_ge(u8x32::splat(b'0')) & small.simd_le(u8x32::splat(b'f'))).all()
}

/// Whether all of these may be hexadecimal digits, so that a long text with another byte isn't decoded up to there. Of
/// less than a block it says nothing: these are soon decoded.
#[inline(always)]
fn may_be_hex(text: &[u8]) -> bool {
    let (blocks, _) = text.as_chunks::<BLOCK>();
    for block in blocks {
        if !look_like_hex(block) {
            return false;
        }
    }
    match text.last_chunk::<BLOCK>() {
        Some(block) => look_like_hex(block),
        None => true,
    }
}

/// Who writes, to which descriptor, and the digits of the bytes, if this is what a line has behind its operation
/// `write`. That these are hexadecimal digits is not looked at.
#[inline(always)]
fn write_parts<'a>(rest: &'a [u8]) -> Option<(Option<u32>, i32, &'a [u8])>
    ensures text { IfSome result (λ p. rest.now ≡ write_rest p.0 p.1 p.2.now) }
    ensures by { IfSome result (λ p. IfSome p.0 (λ n. n < 2 ^ 32)) }
    ensures fd { IfSome result (λ p. FitsSigned w32 p.1) }
{
    let (by, behind_by) = caller(rest)?;
    let (fd, behind_fd) = short_field(behind_by, b",\"fd\":")?;
    let text = behind(behind_fd, b",\"hex\":\"")?;
    let digits = before(text, b"\"}")?;
    Some((by, fd, digits))
}

/// The command of a line that has this behind its operation `write`.
#[inline(never)]
fn write_command(alloc: Global, rest: &[u8]) -> Result<Option<(CallerId, Event)>, AllocError>
    ensures { IfOk result (λ r. IfSome r
        (λ c. as_written (codes "{\"op\":\"write\"" ++ rest.now) ≡ Some c)) }
{
    let Some((by, fd, digits)) = write_parts(rest) else {
        return Ok(None);
    };
    if !may_be_hex(digits) {
        return Ok(None);
    }
    match hex::decode(alloc, digits) {
        Ok(bytes) => Ok(Some(command(
            by,
            Call::Write {
                fd: Fd(fd),
                bytes: Buffer::new(bytes),
            },
        ))),
        Err(FromHexError::OutOfMemory) => Err(AllocError),
        Err(_) => Ok(None),
    }
}

/// Whether a line may be one that `plain_command` reads, by the letters of its operation.
#[inline(always)]
pub(crate) fn may_be_plain(line: &[u8]) -> bool {
    match line.get(FIRST_LETTER) {
        Some(b'w') => true,
        Some(b'r') => line.get(FIRST_LETTER + 2).copied() == Some(b'a'),
        _ => false,
    }
}

/// The command of a line that writes one of the commonest commands as most lines do. `None` doesn't say that it is no
/// command. Each operation has a frame of its own.
pub(crate) fn plain_command(
    alloc: Global,
    line: &[u8],
) -> Result<Option<(CallerId, Event)>, AllocError>
    ensures { IfOk result (λ r. IfSome r (λ c. as_written line.now ≡ Some c)) }
{
    match line.get(FIRST_LETTER).copied() {
        Some(b'r') => match behind(line, b"{\"op\":\"read\"") {
            Some(rest) => Ok(read_command(rest)),
            None => Ok(None),
        },
        Some(b'w') => {
            if let Some(rest) = behind(line, b"{\"op\":\"wait\"") {
                return Ok(wait_command(rest));
            }
            match behind(line, b"{\"op\":\"write\"") {
                Some(rest) => write_command(alloc, rest),
                None => Ok(None),
            }
        }
        _ => Ok(None),
    }
}
