//! Masks and operations of epoll_ctl(2), each a number or a text.
ghost use Rattle.std.specs.Prelude.{◌≡◌, option_map};
ghost use Rattle.ep_text.specs.Keys.{ok_map, optional, required};
ghost use Rattle.ep_text.specs.Mask.{mask, mask_value, operation, operation_value};
ghost use Rattle.ep_text.specs.Source.{found_data, source_data};

use crate::fields::{fit, i32_value, u32_value};
use crate::key::Key;
use crate::reason::Reason;
use crate::source::{Found, Source};
use crate::value_kind::ValueKind;
use bitflags::parser::from_str_strict;
use ep_base::Mask;

fn mask_value(value: &Found<'_>) -> Option<Mask>
    ensures { option_map (λ m. m.0) result ≡ mask_value (found_data value.now) }
{
    match value.as_str() {
        Some(text) => from_str_strict::<Mask>(text).ok(),
        None => Some(Mask(u32_value(value)?)),
    }
}

/// The mask of the key `mask`, which is empty where it is left out.
pub(crate) fn mask_or_empty(line: &Source<'_>) -> Result<Mask, Reason>
    ensures { ok_map (λ m. m.0) result ≡ optional mask 0 Key.Mask (source_data line.now) }
{
    match line.get(Key::Mask) {
        None => Ok(Mask(0)),
        Some(value) => fit(mask_value(&value), &value, Key::Mask, ValueKind::Mask),
    }
}

fn operation_value(value: &Found<'_>) -> Option<i32>
    ensures { result ≡ operation_value (found_data value.now) }
{
    match value.as_str() {
        Some("add") => Some(1),
        Some("del") => Some(2),
        Some("mod") => Some(3),
        Some(_) => None,
        None => i32_value(value),
    }
}

/// The operation of the key `act`.
pub(crate) fn required_operation(line: &Source<'_>) -> Result<i32, Reason>
    ensures { result ≡ required operation Key.Act (source_data line.now) }
{
    match line.get(Key::Act) {
        None => Err(Reason::Missing(Key::Act)),
        Some(value) => fit(
            operation_value(&value),
            &value,
            Key::Act,
            ValueKind::Operation,
        ),
    }
}
