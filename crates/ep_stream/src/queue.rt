//! Bytes that wait to be read, in a circular buffer.
ghost use Rattle.std.specs.Prelude.{◌≡◌, ◌≤◌, ◌-◌, ◌++◌, drop, length, min, replicate, take, IfOk, IsOk, OnErr, OnOk};
ghost use Rattle.circular_buffer.specs.Buffer.{buffer};

use circular_buffer::HeapCircularBuffer;
use ep_base::{Buffer, Bytes, Content};
use smallvec::SmallVec;
use std::alloc::AllocError;

/// How many bytes of a run are put at once.
const CHUNK: usize = 256;

/// The first `count` bytes, which stay. At most 16 of them take no memory.
#[inline(always)]
#[tactic(auto, using(crate::proofs::Prefixes::take_parts))]
fn first_bytes(queue: &HeapCircularBuffer<u8>, count: usize) -> Result<SmallVec<u8, 16>, AllocError>
    requires { count ≤ length queue.now.items }
    ensures ok { IfOk result (λ bytes. bytes.items ≡ take count queue.now.items) }
    ensures inline { count ≤ 16 → IsOk result }
{
    let (front, back) = queue.as_slices();
    let from_front = front.len().min(count);
    let mut bytes = SmallVec::with_capacity(*queue.allocator(), count)?;
    bytes.extend_from_slice(&front[..from_front])?;
    bytes.extend_from_slice(&back[..count - from_front])?;
    Ok(bytes)
}

/// Takes the first bytes out, at most `n` of them. At most 16 take no memory; where there is none
/// all bytes stay.
pub(crate) fn take_front(queue: &mut HeapCircularBuffer<u8>, n: u32) -> Result<Bytes, AllocError>
    ensures ok { IfOk result (λ bytes. bytes ≡ take n queue.old.items) }
    ensures rest { OnOk result (queue.new ≡ buffer (drop n queue.old.items) queue.old.capacity) }
    ensures err { OnErr result (queue.new ≡ queue.old) }
    ensures inline { min n (length queue.old.items) ≤ 16 → IsOk result }
{
    let count = queue.len().min(n as usize);
    let bytes = first_bytes(queue, count)?;
    queue.truncate_front(queue.len() - count);
    Ok(Bytes::new(bytes))
}

/// The first bytes, at most `n` of them, which stay. At most 16 take no memory.
pub(crate) fn peek_front(queue: &HeapCircularBuffer<u8>, n: u32) -> Result<Bytes, AllocError>
    ensures ok { IfOk result (λ bytes. bytes ≡ take n queue.now.items) }
    ensures inline { min n (length queue.now.items) ≤ 16 → IsOk result }
{
    let count = queue.len().min(n as usize);
    Ok(Bytes::new(first_bytes(queue, count)?))
}

/// Puts this byte behind the others, so many times or as often as it fits, and answers how often. It stands out of the
/// way of listed bytes, which most writes have.
#[inline(never)]
fn put_run(queue: &mut HeapCircularBuffer<u8>, byte: u8, count: usize) -> usize
    ensures count { result ≡ min count (queue.old.capacity - length queue.old.items) }
    ensures items { queue.new ≡ buffer (queue.old.items ++ replicate result byte) queue.old.capacity }
{
    let fitting = count.min(queue.capacity() - queue.len());
    let chunk = [byte; CHUNK];
    let mut left = fitting;
    while left > 0 {
        let put = left.min(CHUNK);
        queue.fill_from_slice(&chunk[..put]);
        left -= put;
    }
    fitting
}

/// Puts these bytes behind the others, as many as fit, and answers how many.
#[inline(always)]
pub(crate) fn put_back(queue: &mut HeapCircularBuffer<u8>, bytes: &Buffer) -> usize
    ensures count { result ≡ min (length bytes.now) (queue.old.capacity - length queue.old.items) }
    ensures items { queue.new ≡ buffer (queue.old.items ++ take result bytes.now) queue.old.capacity }
{
    match bytes.content() {
        Content::Listed(listed) => queue.fill_from_slice(listed),
        Content::Filled(byte, count) => put_run(queue, byte, count),
    }
}
