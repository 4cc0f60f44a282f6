//! Numbers, truth values and bytes as text behind a line.
ghost use Rattle.std.specs.Prelude.{◌≡◌, ◌++◌, OnOk, decimal};
ghost use Rattle.hex.specs.Hex.{encode_lower};
ghost use Rattle.serde_json.specs.Data.{boolean};
ghost use Rattle.serde_json.specs.Written.{compact_text};
ghost use Rattle.ep_history.specs.Fields.{integer};

use ep_base::Fd;
use itoa::Buffer;
use std::alloc::AllocError;

/// Puts this text. One byte is pushed by itself, which is faster.
#[inline(always)]
fn push_text(out: &mut Vec<u8>, text: &[u8]) -> Result<(), AllocError>
    ensures { OnOk result (out.new.items ≡ out.old.items ++ text.now) }
{
    if let [byte] = text {
        out.push(*byte)?;
        return Ok(());
    }
    out.extend_from_slice(text)
}

/// Puts this text and then a number.
pub(crate) fn push_natural(out: &mut Vec<u8>, text: &[u8], n: u64) -> Result<(), AllocError>
    ensures { OnOk result (out.new.items ≡ out.old.items ++ (text.now ++ decimal n)) }
{
    push_text(out, text)?;
    // Most numbers of a record have one digit.
    if n < 10 {
        out.push(b'0' + n as u8)?;
        return Ok(());
    }
    let mut buffer = Buffer::new();
    out.extend_from_slice(buffer.format(n).as_bytes())
}

/// Puts this text and then a number, which may be below 0.
pub(crate) fn push_integer(out: &mut Vec<u8>, text: &[u8], z: i64) -> Result<(), AllocError>
    ensures { OnOk result (out.new.items
        ≡ out.old.items ++ (text.now ++ compact_text (integer z))) }
{
    if z < 0 {
        out.extend_from_slice(text)?;
        push_natural(out, b"-", z.unsigned_abs())
    } else {
        push_natural(out, text, z.unsigned_abs())
    }
}

/// Puts this text and then the number of a descriptor.
pub(crate) fn push_descriptor(out: &mut Vec<u8>, text: &[u8], fd: Fd) -> Result<(), AllocError>
    ensures { OnOk result (out.new.items
        ≡ out.old.items ++ (text.now ++ compact_text (integer fd.0))) }
{
    push_integer(out, text, i64::from(fd.0))
}

/// Puts this text and then a truth value.
pub(crate) fn push_flag(out: &mut Vec<u8>, text: &[u8], flag: bool) -> Result<(), AllocError>
    ensures { OnOk result (out.new.items
        ≡ out.old.items ++ (text.now ++ compact_text (boolean flag))) }
{
    out.extend_from_slice(text)?;
    if flag {
        out.extend_from_slice(b"true")
    } else {
        out.extend_from_slice(b"false")
    }
}

/// Puts this text and then two hexadecimal digits for each byte. Room for all of them is made at once.
pub(crate) fn push_hex(out: &mut Vec<u8>, text: &[u8], bytes: &[u8]) -> Result<(), AllocError>
    ensures { OnOk result (out.new.items ≡ out.old.items ++ (text.now ++ encode_lower bytes.now)) }
{
    out.extend_from_slice(text)?;
    // For the prover: no slice is so long that this saturates, and with the room made the sum below fits.
    let digits = bytes.len().saturating_mul(2);
    out.reserve(digits)?;
    let start = out.len();
    out.resize(start + digits, 0)?;
    hex::encode_to_slice(bytes, &mut out[start..]).unwrap();
    Ok(())
}
