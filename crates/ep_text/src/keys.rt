//! Which keys an object has.
ghost use Rattle.std.specs.Prelude.{◌≡◌, ◌∷◌, option_map};
ghost use Rattle.serde_json.specs.View.{members_view};
ghost use Rattle.ep_text.specs.Keys.{first_other, is_among};

use crate::key::Key;
use serde_json::{Map, Value};

fn is_among(keys: &[Key], name: &str) -> bool
    ensures { result ≡ is_among keys.now name.now }
{
    for key in keys {
        if key.name() == name {
            return true;
        }
    }
    false
}

fn is_known(keys: &[Key], name: &str) -> bool
    ensures { result ≡ is_among (Key.Op ∷ Key.By ∷ keys.now) name.now }
{
    Key::Op.name() == name || Key::By.name() == name || is_among(keys, name)
}

/// The first member whose name is none of these keys, and not `op` or `by`.
pub(crate) fn first_other<'a>(keys: &[Key], members: &'a Map<String, Value>) -> Option<&'a str>
    ensures { option_map (λ n. n.now) result
        ≡ first_other (Key.Op ∷ Key.By ∷ keys.now) (members_view members.now.entries) }
{
    for (name, _) in members.iter() {
        if !is_known(keys, name.as_str()) {
            return Some(name.as_str());
        }
    }
    None
}
