//! A write as an object, its bytes as digits or as a run.
ghost use Rattle.std.specs.Prelude.{◌≡◌, ◌≤◌, ◌++◌, OnOk, false, replicate, true};
ghost use Rattle.serde_json.specs.Written.{compact_text};
ghost use Rattle.ep_base.specs.declared.call.Call.TheVariants.{Write};
ghost use Rattle.ep_history.specs.Bytes.{is_run};
ghost use Rattle.ep_history.specs.Calls.{call_data, of_write};
ghost use Rattle.ep_history.specs.Fits.{CallFits};

use crate::push::{push_descriptor, push_hex, push_natural};
use ep_base::{Buffer, Content, Fd, is_filled};
use std::alloc::AllocError;

/// One byte, so many times or more, is told by itself and its count.
const SHORTEST_RUN: usize = 16;

/// Whether a list is such a run.
fn is_run(list: &[u8]) -> bool
    ensures { result ≡ is_run list.now }
{
    list.len() >= SHORTEST_RUN && is_filled(list, list[0], list.len())
}

fn push_run(out: &mut Vec<u8>, fd: Fd, byte: u8, count: usize) -> Result<(), AllocError>
    requires { 16 ≤ count }
    ensures text { OnOk result (out.new.items
        ≡ out.old.items ++ compact_text (of_write fd.0 (replicate count byte) true)) }
    ensures fits { OnOk result (CallFits (Write fd (replicate count byte))) }
{
    push_descriptor(out, b"{\"fd\":", fd)?;
    push_natural(out, b",\"fill\":[", u64::from(byte))?;
    push_natural(out, b",", count as u64)?;
    out.extend_from_slice(b"],\"op\":\"write\"}")?;
    Ok(())
}

fn push_digits(out: &mut Vec<u8>, fd: Fd, bytes: &[u8]) -> Result<(), AllocError>
    ensures text { OnOk result (out.new.items
        ≡ out.old.items ++ compact_text (of_write fd.0 bytes.now false)) }
    ensures fits { OnOk result (CallFits (Write fd bytes.now)) }
{
    push_descriptor(out, b"{\"fd\":", fd)?;
    push_hex(out, b",\"hex\":\"", bytes)?;
    out.extend_from_slice(b"\",\"op\":\"write\"}")?;
    Ok(())
}

/// Puts the object of a write of these bytes.
fn push_listed(out: &mut Vec<u8>, fd: Fd, bytes: &[u8]) -> Result<(), AllocError>
    ensures text { OnOk result (out.new.items
        ≡ out.old.items ++ compact_text (call_data (Write fd bytes.now))) }
    ensures fits { OnOk result (CallFits (Write fd bytes.now)) }
{
    if is_run(bytes) {
        push_run(out, fd, bytes[0], bytes.len())
    } else {
        push_digits(out, fd, bytes)
    }
}

/// Puts the object of a write of this byte, so many times.
fn push_filled(out: &mut Vec<u8>, fd: Fd, byte: u8, count: usize) -> Result<(), AllocError>
    ensures text { OnOk result (out.new.items
        ≡ out.old.items ++ compact_text (call_data (Write fd (replicate count byte)))) }
    ensures fits { OnOk result (CallFits (Write fd (replicate count byte))) }
{
    if count < SHORTEST_RUN {
        push_digits(out, fd, &[byte; SHORTEST_RUN][..count])
    } else {
        push_run(out, fd, byte, count)
    }
}

/// Puts the object of a write.
pub(crate) fn push_write(out: &mut Vec<u8>, fd: Fd, bytes: &Buffer) -> Result<(), AllocError>
    ensures text { OnOk result (out.new.items
        ≡ out.old.items ++ compact_text (call_data (Write fd bytes.now))) }
    ensures fits { OnOk result (CallFits (Write fd bytes.now)) }
{
    match bytes.content() {
        Content::Listed(list) => push_listed(out, fd, list),
        Content::Filled(byte, count) => push_filled(out, fd, byte, count),
    }
}
