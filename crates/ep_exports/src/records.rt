//! The history.
ghost use Rattle.std.specs.Prelude.{◌≡◌, ◌<◌, ◌≤◌, ◌^◌, IfOk, OnErr, OnOk, length};
ghost use Rattle.ep_history.specs.Records.{record_line};
ghost use Rattle.ep_records.specs.Said.{said_answer};
ghost use Rattle.ep_exports.specs.Events.{IsLaidOut};
ghost use Rattle.ep_exports.specs.Records.{AskedRecords, Checked, Forgets, Forgot, IsPrinted, Printed, Recorded};

use crate::status::{EBADF, EBADMSG, EINVAL, EMSGSIZE, ENOMEM, EOVERFLOW};
use ep_audit::{AuditFault, audit_history};
use ep_calls::Kernel;
use ep_flat::{FlatReply, FlatReport, put_answer, put_bytes, put_given, put_told};
use ep_handle::Handle;
use ep_history::print_record;
use ep_kernel::ReadyKernel;
use ep_records::{Entry, History, Said, TooManyEvents};
use std::alloc::{AllocError, Global};

/// How many records are there: one for each event that wasn't answered ENOMEM since `ep_forget`. 0 and the count, or
/// -EBADF.
#[unsafe(no_mangle)]
pub extern "C" fn ep_records(alloc: Global, handle: &mut Handle, count: &mut usize) -> i32
    ensures { AskedRecords handle.old.state.kernel handle.new.state.kernel count.old count.new
        result }
{
    match handle.take(alloc) {
        None => -EBADF,
        Some(kernel) => {
            *count = kernel.history().len();
            handle.put(kernel);
            0
        }
    }
}

/// Lays out what a record was answered at this moment, as `put_answer` does.
fn put_said(
    said: &Said<'_>,
    now: u64,
    reply: &mut FlatReply,
    bytes: &mut [u8],
    reports: &mut [FlatReport],
)
    ensures { IsLaidOut (said_answer said.now) now
        (record { reply = reply.old; bytes = bytes.old; reports = reports.old })
        (record { reply = reply.new; bytes = bytes.new; reports = reports.new }) }
{
    match said {
        Said::Made(answer) => put_answer(answer, now, reply, bytes, reports),
        Said::Kept(answer) => put_answer(answer, now, reply, bytes, reports),
        Said::Bytes(given) => put_given(given, now, reply, bytes),
        Said::Reports(given) => put_told(given, now, reply, reports),
    }
}

/// Lays out the answer of a record once more, counted from 0, as `ep_call` did, but at the present moment; what
/// doesn't fit is cut. 0, or with nothing changed -EBADF, or -EINVAL if the history has no such record.
#[unsafe(no_mangle)]
pub extern "C" fn ep_recorded(
    alloc: Global,
    handle: &mut Handle,
    place: usize,
    reply: &mut FlatReply,
    bytes: &mut [u8],
    reports: &mut [FlatReport],
) -> i32
    ensures { Recorded handle.old.state.kernel place handle.new.state.kernel
        (record { reply = reply.old; bytes = bytes.old; reports = reports.old })
        (record { reply = reply.new; bytes = bytes.new; reports = reports.new }) result }
{
    match handle.take(alloc) {
        None => -EBADF,
        Some(kernel) => {
            let result = match kernel.history().get(place) {
                None => -EINVAL,
                Some(entry) => {
                    put_said(&entry.answer(), kernel.now().at(), reply, bytes, reports);
                    0
                }
            };
            handle.put(kernel);
            result
        }
    }
}

/// The line of a record. An `Err` is want of memory.
fn line_of(alloc: Global, entry: &Entry<'_>) -> Result<Vec<u8>, AllocError>
    ensures { IfOk result (λ line. line.items ≡ record_line entry.now) }
{
    print_record(alloc, &entry.copy()?)
}

/// Puts the line of a record into the room, as `ep_line` says.
fn put_line(alloc: Global, entry: &Entry<'_>, line: &mut [u8], size: &mut usize) -> i32
    ensures { IsPrinted (record_line entry.now) line.old size.old line.new size.new result }
{
    match line_of(alloc, entry) {
        Err(_) => -ENOMEM,
        Ok(text) => {
            *size = text.len();
            if line.len() < text.len() {
                return -EMSGSIZE;
            }
            put_bytes(text.as_slice(), line);
            0
        }
    }
}

/// The line of a record, counted from 0, as `epaudit` reads it, without the byte 10 that ends it: 0, and it stands at
/// the beginning of `line`, `size` bytes of it. -EMSGSIZE if `line` is too short: then `size` tells what it takes,
/// and `line` stays. With nothing changed -EBADF, -EINVAL if the history has no such record, -ENOMEM.
#[unsafe(no_mangle)]
pub extern "C" fn ep_line(
    alloc: Global,
    handle: &mut Handle,
    place: usize,
    line: &mut [u8],
    size: &mut usize,
) -> i32
    ensures { Printed handle.old.state.kernel place handle.new.state.kernel line.old size.old
        line.new size.new result }
{
    match handle.take(alloc) {
        None => -EBADF,
        Some(kernel) => {
            let result = match kernel.history().get(place) {
                None => -EINVAL,
                Some(entry) => put_line(alloc, &entry, line, size),
            };
            handle.put(kernel);
            result
        }
    }
}

/// Takes the records out of a kernel and forgets them. Their room stays. An `Err` leaves them.
fn forget(alloc: Global, kernel: &mut ReadyKernel) -> Result<(), TooManyEvents>
    ensures few { OnOk result (length kernel.old.book.past ≤ 2 ^ 62) }
    ensures forgets { OnOk result (Forgets kernel.old kernel.new) }
    ensures many { OnErr result (2 ^ 62 < length kernel.old.book.past) }
    ensures err { OnErr result (kernel.new ≡ kernel.old) }
{
    let mut out = History::new(alloc);
    kernel.swap_history(&mut out)?;
    out.clear();
    match kernel.swap_history(&mut out) {
        Ok(()) => Ok(()),
        // No event came between, so there are as few as before.
        Err(_) => unreachable!(),
    }
}

/// Forgets the records that are there, so that they take no more memory however long the kernel runs. Who wants them
/// takes their lines before. Events are numbered on, and there is no less room for records. `ep_check` tells nothing of
/// use from then on. 0, or with nothing changed -EBADF, or -EOVERFLOW past 2^62 events. It takes no memory.
#[unsafe(no_mangle)]
pub extern "C" fn ep_forget(alloc: Global, handle: &mut Handle) -> i32
    ensures { Forgot handle.old.state.kernel handle.new.state.kernel result }
{
    match handle.take(alloc) {
        None => -EBADF,
        Some(mut kernel) => {
            let result = match forget(alloc, &mut kernel) {
                Ok(()) => 0,
                Err(_) => -EOVERFLOW,
            };
            handle.put(kernel);
            result
        }
    }
}

/// Makes each record that is there again on a kernel that scans: 0 if the machine allows them all, or -EBADF, or
/// -ENOMEM, or -EBADMSG if it doesn't. The contract of the kernel rules that out, as long as none was forgotten. The
/// kernel stays.
#[unsafe(no_mangle)]
pub extern "C" fn ep_check(alloc: Global, handle: &mut Handle) -> i32
    ensures { Checked handle.old.state.kernel handle.new.state.kernel result }
{
    match handle.take(alloc) {
        None => -EBADF,
        Some(kernel) => {
            let result = match audit_history(alloc, kernel.limits(), kernel.history()) {
                Ok(()) => 0,
                Err(AuditFault::Memory) => -ENOMEM,
                Err(AuditFault::Illegal(_)) => -EBADMSG,
            };
            handle.put(kernel);
            result
        }
    }
}
