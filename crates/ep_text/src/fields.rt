//! The values of the keys of a line.
ghost use Rattle.std.specs.Prelude.{◌≡◌, ok_or};
ghost use Rattle.ep_text.specs.Keys.{flag, optional, required, signed32, signed64, unsigned32, unsigned64};
ghost use Rattle.ep_text.specs.Reason.{unfit};
ghost use Rattle.ep_text.specs.Source.{found_data, source_data};
ghost use Rattle.ep_text.specs.Values.{i32_value, u32_value};

use crate::key::Key;
use crate::reason::{Reason, unfit};
use crate::source::{Found, Source};
use crate::value_kind::ValueKind;

/// What was read of a value, or why nothing was.
pub(crate) fn fit<T: Drop>(
    read: Option<T>,
    value: &Found<'_>,
    key: Key,
    kind: ValueKind,
) -> Result<T, Reason>
    ensures { result ≡ ok_or read (unfit key kind (found_data value.now)) }
{
    match read {
        Some(read) => Ok(read),
        None => Err(unfit(value, key, kind)),
    }
}

pub(crate) fn u32_value(value: &Found<'_>) -> Option<u32>
    ensures { result ≡ u32_value (found_data value.now) }
{
    u32::try_from(value.as_u64()?).ok()
}

pub(crate) fn i32_value(value: &Found<'_>) -> Option<i32>
    ensures { result ≡ i32_value (found_data value.now) }
{
    i32::try_from(value.as_i64()?).ok()
}

pub(crate) fn required_i32(line: &Source<'_>, key: Key) -> Result<i32, Reason>
    ensures { result ≡ required signed32 key (source_data line.now) }
{
    match line.get(key) {
        None => Err(Reason::Missing(key)),
        Some(value) => fit(i32_value(&value), &value, key, ValueKind::Signed32),
    }
}

pub(crate) fn required_i64(line: &Source<'_>, key: Key) -> Result<i64, Reason>
    ensures { result ≡ required signed64 key (source_data line.now) }
{
    match line.get(key) {
        None => Err(Reason::Missing(key)),
        Some(value) => fit(value.as_i64(), &value, key, ValueKind::Signed64),
    }
}

pub(crate) fn required_u32(line: &Source<'_>, key: Key) -> Result<u32, Reason>
    ensures { result ≡ required unsigned32 key (source_data line.now) }
{
    match line.get(key) {
        None => Err(Reason::Missing(key)),
        Some(value) => fit(u32_value(&value), &value, key, ValueKind::Unsigned32),
    }
}

pub(crate) fn required_u64(line: &Source<'_>, key: Key) -> Result<u64, Reason>
    ensures { result ≡ required unsigned64 key (source_data line.now) }
{
    match line.get(key) {
        None => Err(Reason::Missing(key)),
        Some(value) => fit(value.as_u64(), &value, key, ValueKind::Unsigned64),
    }
}

pub(crate) fn u32_or(line: &Source<'_>, key: Key, missing: u32) -> Result<u32, Reason>
    ensures { result ≡ optional unsigned32 missing key (source_data line.now) }
{
    match line.get(key) {
        None => Ok(missing),
        Some(value) => fit(u32_value(&value), &value, key, ValueKind::Unsigned32),
    }
}

pub(crate) fn u64_or(line: &Source<'_>, key: Key, missing: u64) -> Result<u64, Reason>
    ensures { result ≡ optional unsigned64 missing key (source_data line.now) }
{
    match line.get(key) {
        None => Ok(missing),
        Some(value) => fit(value.as_u64(), &value, key, ValueKind::Unsigned64),
    }
}

/// A truth value, which is false where it is left out.
pub(crate) fn flag(line: &Source<'_>, key: Key) -> Result<bool, Reason>
    ensures { result ≡ flag key (source_data line.now) }
{
    match line.get(key) {
        None => Ok(false),
        Some(value) => fit(value.as_bool(), &value, key, ValueKind::Truth),
    }
}
