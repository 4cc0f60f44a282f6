//! The numbers of picked registrations from a list.
ghost use Rattle.std.specs.Prelude.{◌≡◌, IfOk};
ghost use Rattle.serde_json.specs.View.{view};
ghost use Rattle.ep_history.specs.Fields.{each_of, u64_value};

use ep_base::{EntryNumber, Picked};
use serde_json::Value;
use smallvec::SmallVec;
use std::alloc::{AllocError, Global};

/// The numbers of a list, or `None` if it is no list of such numbers.
pub(crate) fn picks_of(alloc: Global, value: &Value) -> Result<Option<Picked>, AllocError>
    ensures { IfOk result (λ p. p ≡ each_of u64_value (view value.now)) }
{
    let Some(items) = value.as_array() else {
        return Ok(None);
    };
    let mut picked = SmallVec::new(alloc);
    for item in items {
        let Some(number) = item.as_u64() else {
            return Ok(None);
        };
        picked.push(EntryNumber(number))?;
    }
    Ok(Some(Picked::new(picked)))
}
