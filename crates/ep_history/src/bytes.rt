//! The bytes of a write or of an answer.
ghost use Rattle.std.specs.Prelude.{◌≡◌, IfOk, codes, option_map};
ghost use Rattle.serde_json.specs.Find.{get};
ghost use Rattle.serde_json.specs.View.{view};
ghost use Rattle.ep_history.specs.Bytes.{byte_value, fill_value, hex_value, written};

use crate::fields::pair_of;
use ep_base::Buffer;
use hex::FromHexError;
use serde_json::Value;
use std::alloc::{AllocError, Global};

/// The bytes of a text, or `None` if the value is no text of two digits for each byte.
pub(crate) fn hex_bytes(alloc: Global, value: &Value) -> Result<Option<Vec<u8>>, AllocError>
    ensures { IfOk result (λ b. option_map (λ v. v.items) b ≡ hex_value (view value.now)) }
{
    let Some(text) = value.as_str() else {
        return Ok(None);
    };
    match hex::decode(alloc, text) {
        Ok(bytes) => Ok(Some(bytes)),
        Err(FromHexError::OutOfMemory) => Err(AllocError),
        Err(_) => Ok(None),
    }
}

fn byte_value(value: &Value) -> Option<u8>
    ensures { result ≡ byte_value (view value.now) }
{
    u8::try_from(value.as_u64()?).ok()
}

/// A run from its byte and its count.
fn fill_bytes(value: &Value) -> Option<Buffer>
    ensures { result ≡ fill_value (view value.now) }
{
    let (byte, count) = pair_of(value)?;
    let byte = byte_value(byte)?;
    Some(Buffer::filled(byte, count.as_u64()? as usize))
}

/// The bytes that an object has under `hex`, or else under `fill`.
pub(crate) fn written(alloc: Global, value: &Value) -> Result<Option<Buffer>, AllocError>
    ensures { IfOk result
        (λ b. b ≡ written (get (codes "hex") (view value.now)) (get (codes "fill") (view value.now))) }
{
    if let Some(hex) = value.get("hex") {
        return match hex_bytes(alloc, hex)? {
            Some(bytes) => Ok(Some(Buffer::new(bytes))),
            None => Ok(None),
        };
    }
    match value.get("fill") {
        Some(fill) => Ok(fill_bytes(fill)),
        None => Ok(None),
    }
}
