//! The words of sockets: what is shut, families, and spaces of names.
ghost use Rattle.std.specs.Prelude.{◌≡◌};
ghost use Rattle.serde_json.specs.View.{view};
ghost use Rattle.ep_history.specs.Sockets.{family_value, how_value, space_text, space_value};

use ep_base::{Family, How, Space};
use serde_json::Value;

/// The word for a space.
pub(crate) fn space_text(space: Space) -> &'static str
    ensures { result.now ≡ space_text space }
{
    match space {
        Space::V4 => "v4",
        Space::V6 => "v6",
        Space::Local => "local",
    }
}

pub(crate) fn how_value(value: &Value) -> Option<How>
    ensures { result ≡ how_value (view value.now) }
{
    match value.as_str()? {
        "rd" => Some(How::Read),
        "wr" => Some(How::Write),
        "rdwr" => Some(How::Both),
        _ => None,
    }
}

pub(crate) fn family_value(value: &Value) -> Option<Family>
    ensures { result ≡ family_value (view value.now) }
{
    match value.as_str()? {
        "tcp" => Some(Family::Tcp),
        "unix" => Some(Family::Unix),
        _ => None,
    }
}

pub(crate) fn space_value(value: &Value) -> Option<Space>
    ensures { result ≡ space_value (view value.now) }
{
    match value.as_str()? {
        "v4" => Some(Space::V4),
        "v6" => Some(Space::V6),
        "local" => Some(Space::Local),
        _ => None,
    }
}
