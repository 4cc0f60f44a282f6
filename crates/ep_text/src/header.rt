//! The first line of a script, which may name a version.
ghost use Rattle.std.specs.Prelude.{◌≡◌, IfOk, IsNone, IsSome};
ghost use Rattle.serde_json.specs.View.{view};
ghost use Rattle.ep_text.specs.Event.{event};
ghost use Rattle.ep_text.specs.Header.{header, header_data, without_op};

use crate::key::Key;
use crate::reason::Reason;
use ep_version::{Version, numbered};
use serde_json::Value;
use std::alloc::{AllocError, Global};

pub(crate) fn header_in(value: &Value) -> Option<Version>
    ensures { result ≡ header_data (view value.now) }
{
    let members = value.as_object()?;
    if members.len() != 1 {
        return None;
    }
    numbered(value.get("version")?.as_u64()?)
}

/// Why an object without `op` is no command.
pub(crate) fn without_op(value: &Value) -> Reason
    ensures { result ≡ without_op (view value.now) }
{
    if value.get("version").is_none() {
        Reason::Missing(Key::Op)
    } else if header_in(value).is_some() {
        Reason::LateHeader
    } else {
        Reason::UnknownVersion
    }
}

/// The version that a line names, or `None` exactly if it is no header. A header is an object whose
/// only key is `version`, with the whole number 1 or 2. It is no command. Whether the line is the
/// first of a script, the caller looks at. `AllocError` is want of memory.
pub fn read_header(alloc: Global, line: &[u8]) -> Result<Option<Version>, AllocError>
    ensures named { IfOk result (λ v. v ≡ header line.now) }
    ensures no_command { (version : Version)
        → IfOk result (λ v. IsSome v → IsNone (event version line.now)) }
{
    match Value::from_slice(alloc, line) {
        Ok(value) => Ok(header_in(&value)),
        Err(error) => {
            if error.is_memory() {
                Err(AllocError)
            } else {
                Ok(None)
            }
        }
    }
}
