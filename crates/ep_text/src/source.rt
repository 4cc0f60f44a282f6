//! What a line of a script has under its keys.
ghost use Rattle.std.specs.Prelude.{◌≡◌, is_some, option_map};
ghost use Rattle.serde_json.specs.Find.{as_array, as_bool, as_number, as_str, get, get_member};
ghost use Rattle.serde_json.specs.Data.{no_members};
ghost use Rattle.ep_text.specs.Key.{key_name};
ghost use Rattle.ep_text.specs.Source.{found_data, put_all, source_data};
ghost use Rattle.ep_text.specs.Values.{i64_value, u64_value};

use crate::key::Key;
use serde_json::{Number, Value};

/// The value of a key.
#[derive(Clone, Copy)]
pub(crate) enum Found<'a> {
    Truth(bool),
    Number(Number),
    Text(&'a str),
    /// A list of two whole numbers of 64 bits.
    Pair(u64, u64),
    /// Any value, as a tree.
    Tree(&'a Value),
}

impl<'a> Found<'a> {
    pub(crate) fn as_bool(&self) -> Option<bool>
        ensures { result ≡ as_bool (found_data self.now) }
    {
        match self {
            Found::Truth(is_true) => Some(*is_true),
            Found::Tree(value) => value.as_bool(),
            _ => None,
        }
    }

    pub(crate) fn as_u64(&self) -> Option<u64>
        ensures { result ≡ u64_value (found_data self.now) }
    {
        match self {
            Found::Number(number) => number.as_u64(),
            Found::Tree(value) => value.as_u64(),
            _ => None,
        }
    }

    pub(crate) fn as_i64(&self) -> Option<i64>
        ensures { result ≡ i64_value (found_data self.now) }
    {
        match self {
            Found::Number(number) => number.as_i64(),
            Found::Tree(value) => value.as_i64(),
            _ => None,
        }
    }

    pub(crate) fn as_str(&self) -> Option<&'a str>
        ensures { option_map (λ s. s.now) result ≡ as_str (found_data self.now) }
    {
        match self {
            Found::Text(text) => Some(*text),
            Found::Tree(value) => value.as_str(),
            _ => None,
        }
    }

    pub(crate) fn is_boolean(&self) -> bool
        ensures { result ≡ is_some (as_bool (found_data self.now)) }
    {
        self.as_bool().is_some()
    }

    pub(crate) fn is_string(&self) -> bool
        ensures { result ≡ is_some (as_str (found_data self.now)) }
    {
        self.as_str().is_some()
    }

    pub(crate) fn is_array(&self) -> bool
        ensures { result ≡ is_some (as_array (found_data self.now)) }
    {
        match self {
            Found::Pair(_, _) => true,
            Found::Tree(value) => value.is_array(),
            _ => false,
        }
    }

    pub(crate) fn is_number(&self) -> bool
        ensures { result ≡ is_some (as_number (found_data self.now)) }
    {
        match self {
            Found::Number(_) => true,
            Found::Tree(value) => value.is_number(),
            _ => false,
        }
    }
}

/// A key with its value.
#[derive(Clone, Copy)]
pub(crate) struct Member<'a> {
    pub(crate) key: Key,
    pub(crate) value: Found<'a>,
}

impl<'a> Default for Member<'a> {
    fn default() -> Member<'a> {
        Member {
            key: Key::Op,
            value: Found::Truth(false),
        }
    }
}

/// An object, as a tree or as its members in the order of the line. Of a key that comes twice the
/// last value holds.
#[derive(Clone, Copy)]
pub(crate) enum Source<'a> {
    Tree(&'a Value),
    Flat(&'a [Member<'a>]),
}

/// The value of the last member under this key.
fn last_of<'a>(members: &[Member<'a>], key: Key) -> Option<Found<'a>>
    ensures { option_map found_data result
        ≡ get_member (key_name key) (put_all no_members members.now) }
{
    let mut left = members.len();
    'members: while left > 0 {
        left -= 1;
        let member = &members[left];
        if member.key.number() == key.number() {
            return Some(member.value);
        }
    }
    None
}

impl<'a> Source<'a> {
    /// The value of a key.
    pub(crate) fn get(&self, key: Key) -> Option<Found<'a>>
        ensures { option_map found_data result ≡ get (key_name key) (source_data self.now) }
    {
        match self {
            Source::Flat(members) => last_of(members, key),
            Source::Tree(value) => match value.get(key.name()) {
                Some(value) => Some(Found::Tree(value)),
                None => None,
            },
        }
    }
}
