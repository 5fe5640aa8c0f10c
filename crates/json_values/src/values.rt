//! Building values from tokens.
ghost use Rattle.std.specs.Prelude.{◌≡◌, ◌<◌, length, false, Some, None, IfOk, OnOk};
ghost use Rattle.json.specs.Json.{value, items, members, read_key};
ghost use Rattle.serde_json.specs.Data.{no_members};
ghost use Rattle.serde_json.specs.Read.{converted, of_json, of_items, of_members};
ghost use Rattle.json_values.specs.LineView.{line_view, line_items, line_members};
ghost use Rattle.json_values.specs.Plain.{AreItemsPlain, AreMembersPlain, ArePlain, Narrows};
ghost use Rattle.json_values.specs.Members.{entries_of};
ghost use Rattle.json_values.specs.Place.{ends_object};

use crate::arena::array;
use crate::fault::ReadFault;
use crate::line::LineValue;
use crate::members::Members;
use crate::numbers::read_number;
use crate::tokens::Tokens;
use bumpalo::Bump;
use json::Token;
use std::alloc::Global;

/// Reads the next value, which may nest at most to a given depth. The call tries a string first, because most values
/// are strings.
#[cycle(read)]
#[inline(always)]
pub(crate) fn read_value<'a>(
    alloc: Global,
    values: &'a Bump,
    reader: &mut Tokens<'a>,
    depth: usize,
) -> Result<LineValue<'a>, ReadFault>
    ensures ok { IfOk result
        (λ v. converted of_json (value depth reader.old.tokens) ≡ Some (line_view v, reader.new.tokens)) }
    ensures plain { IfOk result (λ v. Narrows reader.old.plain reader.new.plain
        × ArePlain reader.new.plain (line_view v)) }
    ensures shorter { OnOk result (length reader.new.tokens < length reader.old.tokens) }
    ensures refused { result ≡ Err ReadFault.NotJson → converted of_json (value depth reader.old.tokens) ≡ None }
    ensures memory { result ≡ Err ReadFault.Memory → 0 < length reader.old.tokens }
{
    match reader.take_text() {
        Ok(Some(text)) => Ok(LineValue::String(text)),
        Ok(None) => read_no_text(alloc, values, reader, depth),
        Err(_) => Err(ReadFault::NotJson),
    }
}

/// Reads the next value if it is not a string. The call tries an integer first, because most values that are not
/// strings are integers.
#[cycle(read)]
#[inline(always)]
fn read_no_text<'a>(
    alloc: Global,
    values: &'a Bump,
    reader: &mut Tokens<'a>,
    depth: usize,
) -> Result<LineValue<'a>, ReadFault>
    ensures ok { IfOk result
        (λ v. converted of_json (value depth reader.old.tokens) ≡ Some (line_view v, reader.new.tokens)) }
    ensures plain { IfOk result (λ v. Narrows reader.old.plain reader.new.plain
        × ArePlain reader.new.plain (line_view v)) }
    ensures shorter { OnOk result (length reader.new.tokens < length reader.old.tokens) }
    ensures refused { result ≡ Err ReadFault.NotJson → converted of_json (value depth reader.old.tokens) ≡ None }
    ensures memory { result ≡ Err ReadFault.Memory → 0 < length reader.old.tokens }
{
    match reader.take_integer() {
        Some(number) => Ok(LineValue::Number(number)),
        None => read_other(alloc, values, reader, depth),
    }
}

/// Reads the next value if it is neither a string nor an integer. This function is separate so that the compiler can
/// inline the functions that call it.
#[cycle(read)]
#[inline(never)]
fn read_other<'a>(
    alloc: Global,
    values: &'a Bump,
    reader: &mut Tokens<'a>,
    depth: usize,
) -> Result<LineValue<'a>, ReadFault>
    ensures ok { IfOk result
        (λ v. converted of_json (value depth reader.old.tokens) ≡ Some (line_view v, reader.new.tokens)) }
    ensures plain { IfOk result (λ v. Narrows reader.old.plain reader.new.plain
        × ArePlain reader.new.plain (line_view v)) }
    ensures shorter { OnOk result (length reader.new.tokens < length reader.old.tokens) }
    ensures refused { result ≡ Err ReadFault.NotJson → converted of_json (value depth reader.old.tokens) ≡ None }
    ensures memory { result ≡ Err ReadFault.Memory → 0 < length reader.old.tokens }
{
    let Some(token) = reader.next() else {
        return Err(ReadFault::NotJson);
    };
    match token {
        Token::String(text) => Ok(LineValue::String(text)),
        Token::Number(text) => match read_number(text) {
            Some(number) => Ok(LineValue::Number(number)),
            None => Err(ReadFault::NotJson),
        },
        Token::Bool(b) => Ok(LineValue::Bool(b)),
        Token::Null => Ok(LineValue::Null),
        Token::EndObject | Token::EndArray | Token::Key(_) | Token::Bad => Err(ReadFault::NotJson),
        Token::BeginArray => {
            if depth == 0 {
                return Err(ReadFault::NotJson);
            }
            let items = read_items(alloc, values, reader, depth - 1)?;
            Ok(array(values, reader, &items)?)
        }
        Token::BeginObject => {
            if depth == 0 {
                return Err(ReadFault::NotJson);
            }
            Ok(LineValue::Object(read_members(alloc, values, reader, depth - 1)?))
        }
    }
}

/// Reads the items of an array, up to its closing bracket.
#[cycle(read)]
#[inline(never)]
fn read_items<'a>(
    alloc: Global,
    values: &'a Bump,
    reader: &mut Tokens<'a>,
    depth: usize,
) -> Result<Vec<LineValue<'a>>, ReadFault>
    ensures ok { IfOk result
        (λ found. converted of_items (items (value depth) (length reader.old.tokens) reader.old.tokens)
        ≡ Some (line_items found.items, reader.new.tokens)) }
    ensures plain { IfOk result (λ found. Narrows reader.old.plain reader.new.plain
        × AreItemsPlain reader.new.plain (line_items found.items)) }
    ensures shorter { OnOk result (length reader.new.tokens < length reader.old.tokens) }
    ensures refused { result ≡ Err ReadFault.NotJson
        → converted of_items (items (value depth) (length reader.old.tokens) reader.old.tokens) ≡ None }
{
    let mut found = Vec::with_capacity(alloc, reader.room(false, depth))?;
    'items: while !reader.take_end_array() {
        let item = read_value(alloc, values, reader, depth)?;
        found.push(item)?;
    }
    reader.note(false, depth, found.len());
    Ok(found)
}

/// Reads the members of an object, up to its closing brace.
#[cycle(read)]
#[inline(never)]
fn read_members<'a>(
    alloc: Global,
    values: &'a Bump,
    reader: &mut Tokens<'a>,
    depth: usize,
) -> Result<&'a [(&'a str, LineValue<'a>)], ReadFault>
    ensures ok { IfOk result
        (λ found. converted (λ ms. of_members ms no_members)
        (members (value depth) (length reader.old.tokens) reader.old.tokens)
        ≡ Some (line_members found.now, reader.new.tokens)) }
    ensures plain { IfOk result (λ found. Narrows reader.old.plain reader.new.plain
        × AreMembersPlain reader.new.plain (line_members found.now)) }
    ensures shorter { OnOk result (length reader.new.tokens < length reader.old.tokens) }
    ensures refused { result ≡ Err ReadFault.NotJson
        → converted (λ ms. of_members ms no_members)
        (members (value depth) (length reader.old.tokens) reader.old.tokens) ≡ None }
{
    let mut found = Members::new(values, reader.room(true, depth))?;
    'members: loop {
        let Some(name) = reader.take_key() else {
            let all = end_members(values, reader, found)?;
            reader.note(true, depth, all.len());
            return Ok(all);
        };
        let member = read_value(alloc, values, reader, depth)?;
        found.put(alloc, values, name, member)?;
    }
}

/// Reads the closing brace of an object, and returns the members of the object.
#[inline(always)]
fn end_members<'a>(
    values: &'a Bump,
    reader: &mut Tokens<'a>,
    found: Members<'a, LineValue<'a>>,
) -> Result<&'a [(&'a str, LineValue<'a>)], ReadFault>
    ensures ok { OnOk result (read_key reader.old.tokens ≡ Some (None, reader.new.tokens)) }
    ensures found { IfOk result (λ v. v.now ≡ entries_of found.entry) }
    ensures plain { OnOk result (reader.new.plain ≡ reader.old.plain) }
    ensures refused { result ≡ Err ReadFault.NotJson → ends_object reader.old.tokens ≡ false }
{
    if !reader.take_end_object() {
        return Err(ReadFault::NotJson);
    }
    Ok(found.into_slice(values)?)
}
