//! Reads a value a token at a time.
ghost use Rattle.std.specs.Prelude.{◌≡◌, ◌<◌, Err, IfOk, None, OnOk, Some, length, option_map};
ghost use Rattle.json.specs.Json.{items, members, value};
ghost use Rattle.serde_json.specs.Data.{no_members};
ghost use Rattle.serde_json.specs.Read.{converted, max_depth, of_items, of_json, of_members};
ghost use Rattle.serde_json.specs.View.{items_view, members_view, view};
ghost use Rattle.ep_json.specs.Text.{whole};

use crate::number::parse_number_apart;
use crate::refusal::Refusal;
use json::{Reader, Token};
use serde_json::{Map, Value};
use std::alloc::{AllocError, Global};

/// How deep a value may nest.
const MAX_DEPTH: usize = 127;

/// The value that comes next. It is inlined, so that each level of what nests takes one frame.
#[cycle(tree)]
#[inline(always)]
fn tree(alloc: Global, reader: &mut Reader<'_>, depth: usize) -> Result<Value, Refusal>
    ensures ok { IfOk result
        (λ v. converted of_json (value depth reader.old) ≡ Some (view v, reader.new)) }
    ensures shorter { OnOk result (length reader.new < length reader.old) }
    ensures no_json { result ≡ Err Refusal.NoJson
        → converted of_json (value depth reader.old) ≡ None }
{
    let token = reader.next().ok_or(Refusal::NoJson)?;
    match token {
        Token::String(text) => Ok(Value::String(String::from_str(alloc, text)?)),
        Token::Number(text) => match parse_number_apart(text) {
            Some(number) => Ok(Value::Number(number)),
            None => Err(Refusal::NoJson),
        },
        Token::Bool(is_true) => Ok(Value::Bool(is_true)),
        Token::Null => Ok(Value::Null),
        Token::EndObject | Token::EndArray | Token::Key(_) | Token::Bad => Err(Refusal::NoJson),
        Token::BeginArray => {
            if depth == 0 {
                return Err(Refusal::NoJson);
            }
            Ok(Value::Array(tree_items(alloc, reader, depth - 1)?))
        }
        Token::BeginObject => {
            if depth == 0 {
                return Err(Refusal::NoJson);
            }
            Ok(Value::Object(tree_members(alloc, reader, depth - 1)?))
        }
    }
}

/// The items up to the end of an array.
#[cycle(tree)]
#[inline(never)]
fn tree_items(alloc: Global, reader: &mut Reader<'_>, depth: usize) -> Result<Vec<Value>, Refusal>
    ensures ok { IfOk result
        (λ found. converted of_items (items (value depth) (length reader.old) reader.old)
        ≡ Some (items_view found.items, reader.new)) }
    ensures shorter { OnOk result (length reader.new < length reader.old) }
    ensures no_json { result ≡ Err Refusal.NoJson
        → converted of_items (items (value depth) (length reader.old) reader.old) ≡ None }
{
    let mut found = Vec::new(alloc);
    'items: while !reader.take_end_array() {
        let item = tree(alloc, reader, depth)?;
        found.push(item)?;
    }
    Ok(found)
}

/// The members up to the end of an object.
#[cycle(tree)]
#[inline(never)]
fn tree_members(
    alloc: Global,
    reader: &mut Reader<'_>,
    depth: usize,
) -> Result<Map<String, Value>, Refusal>
    ensures ok { IfOk result
        (λ found. converted (λ ms. of_members ms no_members)
        (members (value depth) (length reader.old) reader.old)
        ≡ Some (members_view found.entries, reader.new)) }
    ensures shorter { OnOk result (length reader.new < length reader.old) }
    ensures no_json { result ≡ Err Refusal.NoJson
        → converted (λ ms. of_members ms no_members)
        (members (value depth) (length reader.old) reader.old) ≡ None }
{
    let mut found = Map::new(alloc);
    'members: while let Some(name) = reader.next_key()? {
        let key = String::from_str(alloc, name)?;
        let member = tree(alloc, reader, depth)?;
        drop(found.insert(key, member)?);
    }
    Ok(found)
}

fn whole(alloc: Global, reader: &mut Reader<'_>) -> Result<Value, Refusal>
    ensures ok { IfOk result (λ v. whole (value max_depth reader.old) ≡ Some (view v)) }
    ensures no_json { result ≡ Err Refusal.NoJson → whole (value max_depth reader.old) ≡ None }
{
    let found = tree(alloc, reader, MAX_DEPTH)?;
    match reader.next() {
        None => Ok(found),
        Some(_) => Err(Refusal::NoJson),
    }
}

/// The value that the tokens are, or `None` exactly where they are no JSON. What nests deeper than 127 is none.
pub(crate) fn whole_tree(
    alloc: Global,
    reader: &mut Reader<'_>,
) -> Result<Option<Value>, AllocError>
    ensures { IfOk result (λ r. option_map view r ≡ whole (value max_depth reader.old)) }
{
    match whole(alloc, reader) {
        Ok(found) => Ok(Some(found)),
        Err(Refusal::NoJson) => Ok(None),
        Err(Refusal::Memory) => Err(AllocError),
    }
}
