//! The bytes of a write.
ghost use Rattle.std.specs.Prelude.{◌≡◌, IfOk, option_map, replicate};
ghost use Rattle.serde_json.specs.View.{items_view};
ghost use Rattle.ep_text.specs.Bytes.{bytes_in, fill_value, hex_value, one_of, repeated};
ghost use Rattle.ep_text.specs.Source.{found_data, pair_items, source_data};

use crate::fields::fit;
use crate::key::Key;
use crate::reason::Reason;
use crate::source::{Found, Source};
use crate::value_kind::ValueKind;
use ep_base::Buffer;
use hex::FromHexError;
use serde_json::Value;
use std::alloc::{AllocError, Global};

/// The greatest count of a `fill`.
const MAX_FILL: u64 = 1_048_576;

fn hex_bytes(alloc: Global, value: &Found<'_>) -> Result<Option<Buffer>, AllocError>
    ensures { IfOk result (λ b. b ≡ hex_value (found_data value.now)) }
{
    let Some(text) = value.as_str() else {
        return Ok(None);
    };
    match hex::decode(alloc, text) {
        Ok(bytes) => Ok(Some(Buffer::new(bytes))),
        Err(FromHexError::OutOfMemory) => Err(AllocError),
        Err(_) => Ok(None),
    }
}

/// These two numbers, if they are a byte and a count that a `fill` may have.
fn byte_and_count(byte: u64, count: u64) -> Option<(u8, usize)>
    ensures { option_map (λ p. replicate p.1 p.0) result ≡ repeated (pair_items byte count) }
{
    let byte = u8::try_from(byte).ok()?;
    if count <= MAX_FILL {
        Some((byte, count as usize))
    } else {
        None
    }
}

/// The byte and the count of a list, if it is a `fill`.
fn byte_and_count_of(items: &Vec<Value>) -> Option<(u8, usize)>
    ensures { option_map (λ p. replicate p.1 p.0) result ≡ repeated (items_view items.now.items) }
{
    if items.len() != 2 {
        return None;
    }
    byte_and_count(items[0].as_u64()?, items[1].as_u64()?)
}

fn fill_bytes(value: &Found<'_>) -> Option<Buffer>
    ensures { result ≡ fill_value (found_data value.now) }
{
    let (byte, count) = match value {
        Found::Pair(byte, count) => byte_and_count(*byte, *count)?,
        Found::Tree(value) => byte_and_count_of(value.as_array()?)?,
        _ => return None,
    };
    Some(Buffer::filled(byte, count))
}

fn one_of(
    alloc: Global,
    hex: Option<Found<'_>>,
    fill: Option<Found<'_>>,
) -> Result<Result<Buffer, Reason>, AllocError>
    ensures { IfOk result (λ b. b
        ≡ one_of (option_map found_data hex.entry) (option_map found_data fill.entry)) }
{
    match (hex, fill) {
        (Some(hex), None) => {
            let bytes = hex_bytes(alloc, &hex)?;
            Ok(fit(bytes, &hex, Key::Hex, ValueKind::Hex))
        }
        (None, Some(fill)) => {
            let bytes = fill_bytes(&fill);
            Ok(fit(bytes, &fill, Key::Fill, ValueKind::Fill))
        }
        (None, None) => Ok(Err(Reason::NeitherHexNorFill)),
        (Some(_), Some(_)) => Ok(Err(Reason::HexAndFill)),
    }
}

/// The bytes that `hex` or `fill` says, where just one of them is there.
pub(crate) fn bytes_in(
    alloc: Global,
    line: &Source<'_>,
) -> Result<Result<Buffer, Reason>, AllocError>
    ensures { IfOk result (λ b. b ≡ bytes_in (source_data line.now)) }
{
    one_of(alloc, line.get(Key::Hex), line.get(Key::Fill))
}
