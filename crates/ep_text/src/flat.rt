//! Objects whose values need no memory, read a token at a time.
ghost use Rattle.std.specs.Prelude.{◌≡◌, ◌<◌, ◌-◌, IfOk, None, OnOk, Some, [], length};
ghost use Rattle.json.specs.Json.{after_end_array, items, members, value};
ghost use Rattle.serde_json.specs.Data.{no_members, number, unsigned};
ghost use Rattle.serde_json.specs.Read.{converted, max_depth, of_items, of_json, of_members};
ghost use Rattle.ep_json.specs.Text.{whole};
ghost use Rattle.ep_text.specs.Flat.{flat_depth};
ghost use Rattle.ep_text.specs.Source.{flat_data, found_data, pair_items, put_all};

use crate::key::Key;
use crate::source::{Found, Member};
use arrayvec::ArrayVec;
use ep_json::parse_number;
use json::{Reader, Token};

/// As many members as any operation may have.
pub(crate) const MOST_MEMBERS: usize = 8;

pub(crate) type Members<'a> = ArrayVec<Member<'a>, MOST_MEMBERS>;

/// A text is no such object. It may be another, or no JSON.
#[derive(Clone, Copy)]
pub(crate) struct NotFlat;

/// A number without a sign, a point or an exponent that has 64 bits.
fn whole_number(reader: &mut Reader<'_>) -> Result<u64, NotFlat>
    ensures value { IfOk result (λ n. converted of_json (value (flat_depth - 1) reader.old)
        ≡ Some (number (unsigned n), reader.new)) }
    ensures item { OnOk result (after_end_array reader.old ≡ None) }
    ensures shorter { OnOk result (length reader.new < length reader.old) }
{
    let Some(Token::Number(text)) = reader.next() else {
        return Err(NotFlat);
    };
    let Some(number) = parse_number(text) else {
        return Err(NotFlat);
    };
    match number.as_u64() {
        Some(whole) => Ok(whole),
        None => Err(NotFlat),
    }
}

/// The rest of a list of just two whole numbers, behind the bracket that opens it. It stands out of the way of the
/// other values, since few lines have a list.
#[inline(never)]
fn number_pair(reader: &mut Reader<'_>) -> Result<(u64, u64), NotFlat>
    ensures value { IfOk result (λ p. converted of_items
        (items (value (flat_depth - 1)) (length reader.old) reader.old)
        ≡ Some (pair_items p.0 p.1, reader.new)) }
    ensures shorter { OnOk result (length reader.new < length reader.old) }
{
    let first = whole_number(reader)?;
    let second = whole_number(reader)?;
    if reader.take_end_array() {
        Ok((first, second))
    } else {
        Err(NotFlat)
    }
}

/// A truth value, a number, a text, or a list of two whole numbers.
fn plain_value<'a>(reader: &mut Reader<'a>) -> Result<Found<'a>, NotFlat>
    ensures value { IfOk result (λ found. converted of_json (value flat_depth reader.old)
        ≡ Some (found_data found, reader.new)) }
    ensures shorter { OnOk result (length reader.new < length reader.old) }
{
    let Some(token) = reader.next() else {
        return Err(NotFlat);
    };
    match token {
        Token::String(text) => Ok(Found::Text(text)),
        Token::Number(text) => match parse_number(text) {
            Some(number) => Ok(Found::Number(number)),
            None => Err(NotFlat),
        },
        Token::Bool(is_true) => Ok(Found::Truth(is_true)),
        Token::BeginArray => {
            let (first, second) = number_pair(reader)?;
            Ok(Found::Pair(first, second))
        }
        _ => Err(NotFlat),
    }
}

/// Puts the members up to the end of an object behind those of `found`, where all of them are keys with such values.
fn read_members<'a>(reader: &mut Reader<'a>, found: &mut Members<'a>) -> Result<(), NotFlat>
    requires { found.old.items ≡ [] }
    ensures { OnOk result
        (converted (λ ms. of_members ms no_members)
        (members (value flat_depth) (length reader.old) reader.old)
        ≡ Some (put_all no_members found.new.items, reader.new)) }
{
    'members: loop {
        let Ok(key) = reader.next_key() else {
            return Err(NotFlat);
        };
        let Some(name) = key else {
            return Ok(());
        };
        let Some(key) = Key::named(name) else {
            return Err(NotFlat);
        };
        let value = plain_value(reader)?;
        match found.try_push(Member { key, value }) {
            Ok(()) => {}
            Err(_) => return Err(NotFlat),
        }
    }
}

/// Reads an object of such members, behind which nothing comes. They are then in `found`.
pub(crate) fn read_flat<'a>(reader: &mut Reader<'a>, found: &mut Members<'a>) -> Result<(), NotFlat>
    requires { found.old.items ≡ [] }
    ensures { OnOk result (whole (value max_depth reader.old) ≡ Some (flat_data found.new.items)) }
{
    let Some(Token::BeginObject) = reader.next() else {
        return Err(NotFlat);
    };
    read_members(reader, found)?;
    match reader.next() {
        None => Ok(()),
        Some(_) => Err(NotFlat),
    }
}
