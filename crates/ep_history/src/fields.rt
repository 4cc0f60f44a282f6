//! The values under the keys of an object.
ghost use Rattle.std.specs.Prelude.{◌≡◌, option_map};
ghost use Rattle.serde_json.specs.Find.{as_bool};
ghost use Rattle.serde_json.specs.View.{view};
ghost use Rattle.ep_history.specs.Fields.{i32_value, i64_value, pair_of, required, single, size, u32_value, u64_value};

use serde_json::Value;

pub(crate) fn i32_value(value: &Value) -> Option<i32>
    ensures { result ≡ i32_value (view value.now) }
{
    i32::try_from(value.as_i64()?).ok()
}

pub(crate) fn u32_value(value: &Value) -> Option<u32>
    ensures { result ≡ u32_value (view value.now) }
{
    u32::try_from(value.as_u64()?).ok()
}

pub(crate) fn required_i32(value: &Value, key: &str) -> Option<i32>
    ensures { result ≡ required key.now i32_value (view value.now) }
{
    i32_value(value.get(key)?)
}

pub(crate) fn required_u32(value: &Value, key: &str) -> Option<u32>
    ensures { result ≡ required key.now u32_value (view value.now) }
{
    u32_value(value.get(key)?)
}

pub(crate) fn required_i64(value: &Value, key: &str) -> Option<i64>
    ensures { result ≡ required key.now i64_value (view value.now) }
{
    value.get(key)?.as_i64()
}

pub(crate) fn required_u64(value: &Value, key: &str) -> Option<u64>
    ensures { result ≡ required key.now u64_value (view value.now) }
{
    value.get(key)?.as_u64()
}

pub(crate) fn required_flag(value: &Value, key: &str) -> Option<bool>
    ensures { result ≡ required key.now as_bool (view value.now) }
{
    value.get(key)?.as_bool()
}

/// How many members an object has; 0 if it is none.
pub(crate) fn size(value: &Value) -> usize
    ensures { result ≡ size (view value.now) }
{
    match value.as_object() {
        Some(members) => members.len(),
        None => 0,
    }
}

/// The two items of a list of two.
pub(crate) fn pair_of(value: &Value) -> Option<(&Value, &Value)>
    ensures { option_map (λ p. (view p.0.now, view p.1.now)) result ≡ pair_of (view value.now) }
{
    let items = value.as_array()?;
    if items.len() != 2 {
        return None;
    }
    Some((&items[0], &items[1]))
}

/// The key and the value of an object of one member.
pub(crate) fn single(value: &Value) -> Option<(&str, &Value)>
    ensures { option_map (λ m. (m.0.now, view m.1.now)) result ≡ single (view value.now) }
{
    let members = value.as_object()?;
    if members.len() != 1 {
        return None;
    }
    let (key, value) = members.first_key_value()?;
    Some((key.as_str(), value))
}
