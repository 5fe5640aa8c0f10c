//! Texts that one reader reads as JSON values in order, each with its expected compact form.
use crate::tests::texts::expect_answer;
use json_values::{LineValue, ValueReader};
use serde_json::{Map, Value};
use std::alloc::Global;
use std::process::Abort;
use test_support::shown;

/// The text that the test reads.
#[derive(Clone, Copy)]
enum Call<'a> {
    /// The given bytes.
    Read(&'a [u8]),
    /// A JSON text of arrays that are nested to a given depth.
    Nested(usize),
    /// A JSON text of an object with a given number of names in falling order. Each name is a number, and occurs twice:
    /// first with the value null, and later with the number as the value.
    Falling(usize),
}

/// The texts that the test reads, each with the expected compact form or the expected error.
type Rows = &'static [(Call<'static>, &'static str)];

/// Reads the texts of a test table with one reader, and asserts that each text gives the expected result.
fn run(rt: &impl Abort, alloc: Global, calls: &[(Call, &str)]) {
    let mut reader = ValueReader::new(alloc);
    for (i, (call, wanted)) in calls.iter().enumerate() {
        expect_answer(rt, i, answer(alloc, &mut reader, call), wanted);
    }
}

/// Reads a text and returns the result of reading it.
fn answer(alloc: Global, reader: &mut ValueReader, call: &Call) -> Option<String> {
    match *call {
        Call::Read(bytes) => written(alloc, reader, bytes),
        Call::Nested(depth) => nested_text(alloc, reader, depth),
        Call::Falling(count) => falling_text(alloc, reader, count),
    }
}

/// Returns the compact form of nested arrays.
fn nested_text(alloc: Global, reader: &mut ValueReader, depth: usize) -> Option<String> {
    let Some(text) = nested(alloc, depth) else {
        return None;
    };
    match written(alloc, reader, text.as_bytes()) {
        Some(answer) if answer == text => "as it was given".to_string(alloc).ok(),
        answer => answer,
    }
}

/// Returns the compact form of an object with names in falling order, each name twice.
fn falling_text(alloc: Global, reader: &mut ValueReader, count: usize) -> Option<String> {
    let (Some(text), Some(wanted)) = (falling(alloc, count), rising(alloc, count)) else {
        return None;
    };
    match written(alloc, reader, text.as_bytes()) {
        Some(answer) if answer == wanted => "each once, in rising order".to_string(alloc).ok(),
        answer => answer,
    }
}

/// Returns the compact form of the JSON value in the given bytes, or the error.
fn written(alloc: Global, reader: &mut ValueReader, bytes: &[u8]) -> Option<String> {
    match reader.read_line(alloc, bytes) {
        Ok(line) => value_text(alloc, line.value()),
        Err(fault) => shown(alloc, &fault),
    }
}

/// Returns the compact form of a value.
fn value_text(alloc: Global, value: &LineValue<'_>) -> Option<String> {
    match owned(alloc, value) {
        Some(value) => value.to_string(alloc).ok(),
        None => None,
    }
}

/// Copies a value. The copy owns its strings.
#[cycle(owned)]
fn owned(alloc: Global, value: &LineValue<'_>) -> Option<Value> {
    match value {
        LineValue::Null => Some(Value::Null),
        LineValue::Bool(b) => Some(Value::Bool(*b)),
        LineValue::Number(number) => Some(Value::Number(*number)),
        LineValue::String(text) => Value::try_from_str(alloc, *text).ok(),
        LineValue::Array(items) => owned_items(alloc, items),
        LineValue::Object(members) => owned_members(alloc, members),
    }
}

/// Copies an array.
#[cycle(owned)]
fn owned_items(alloc: Global, items: &[LineValue<'_>]) -> Option<Value> {
    let mut list = Vec::new(alloc);
    for item in items {
        let Ok(()) = serde_json::push(&mut list, owned(alloc, item)?) else {
            return None;
        };
    }
    Some(Value::Array(list))
}

/// Copies an object.
#[cycle(owned)]
fn owned_members(alloc: Global, members: &[(&str, LineValue<'_>)]) -> Option<Value> {
    let mut object = Map::new(alloc);
    for member in members {
        let Ok(()) = serde_json::put(&mut object, alloc, member.0, owned(alloc, &member.1)?) else {
            return None;
        };
    }
    Some(Value::Object(object))
}

/// Returns the text of nested arrays.
fn nested(alloc: Global, depth: usize) -> Option<String> {
    let mut text = String::new(alloc);
    for _ in 0..depth {
        let Ok(()) = text.push_str("[") else {
            return None;
        };
    }
    for _ in 0..depth {
        let Ok(()) = text.push_str("]") else {
            return None;
        };
    }
    Some(text)
}

/// Returns the text of an object with names in falling order, each name twice.
fn falling(alloc: Global, count: usize) -> Option<String> {
    let Ok(mut text) = "{".to_string(alloc) else {
        return None;
    };
    for i in 0..count {
        let Some(()) = append_null(alloc, &mut text, count - i) else {
            return None;
        };
    }
    for i in 0..count {
        let number = count - i;
        let end = if number == 1 { "}" } else { "," };
        let Some(()) = append_number(alloc, &mut text, number, end) else {
            return None;
        };
    }
    Some(text)
}

/// Appends a member whose name is a number and whose value is null.
fn append_null(alloc: Global, text: &mut String, number: usize) -> Option<()> {
    match format!(in alloc; "\"{number:05}\":null,") {
        Ok(member) => text.push_str(member.as_str()).ok(),
        Err(_) => None,
    }
}

/// Appends a JSON member, and then the text `end`. The member's value is `number`, and its name is `number` with
/// leading zeros.
fn append_number(alloc: Global, text: &mut String, number: usize, end: &str) -> Option<()> {
    match format!(in alloc; "\"{number:05}\":{number}{end}") {
        Ok(member) => text.push_str(member.as_str()).ok(),
        Err(_) => None,
    }
}

/// Returns the text of an object with names in rising order, each name once.
fn rising(alloc: Global, count: usize) -> Option<String> {
    let Ok(mut text) = "{".to_string(alloc) else {
        return None;
    };
    for i in 0..count {
        let number = i + 1;
        let end = if number == count { "}" } else { "," };
        let Some(()) = append_number(alloc, &mut text, number, end) else {
            return None;
        };
    }
    Some(text)
}

/// Short texts follow long texts in this test, because no result may depend on the old content of the buffer.
static VALUES: Rows = &[
    (Call::Read(b"null"), "null"),
    (Call::Read(b" [ true , false ] "), "[true,false]"),
    (
        Call::Read(br#"{"b":[1,"x",null,{}],"a":{"c":[]}}"#),
        r#"{"a":{"c":[]},"b":[1,"x",null,{}]}"#,
    ),
    (
        Call::Read(br#"{"a":1,"b":2,"a":{"c":3},"b":[]}"#),
        r#"{"a":{"c":3},"b":[]}"#,
    ),
    (
        Call::Read(br#""\u00e9\t\"\\\/\ud83d\ude00 and so on, so that what is kept has to grow""#),
        "\"\u{e9}\\t\\\"\\\\/\u{1f600} and so on, so that what is kept has to grow\"",
    ),
    (Call::Read(br#""\u0061""#), r#""a""#),
    (Call::Read(br#"{"\u0062":"\n"}"#), r#"{"b":"\n"}"#),
    (Call::Read(b"\"\xc3\xa9\""), "\"\u{e9}\""),
    (Call::Nested(127), "as it was given"),
    (Call::Falling(64), "each once, in rising order"),
    (Call::Falling(1000), "each once, in rising order"),
    (Call::Read(b"{}"), "{}"),
];

/// Integers of 64 bits are exact, and other numbers become the nearest float.
static NUMBERS: Rows = &[
    (Call::Read(b"0"), "0"),
    (Call::Read(b"18446744073709551615"), "18446744073709551615"),
    (
        Call::Read(b"18446744073709551616"),
        "1.8446744073709552e+19",
    ),
    (Call::Read(b"-1"), "-1"),
    (Call::Read(b"-9223372036854775808"), "-9223372036854775808"),
    (
        Call::Read(b"-9223372036854775809"),
        "-9.223372036854776e+18",
    ),
    (Call::Read(b"-0"), "-0.0"),
    (Call::Read(b"1.50"), "1.5"),
    (Call::Read(b"2e3"), "2000.0"),
    (Call::Read(b"1e400"), "NotJson"),
    (Call::Read(b"-1e400"), "NotJson"),
    (Call::Read(b"01"), "NotJson"),
    (Call::Read(b"+1"), "NotJson"),
    (Call::Read(b"-"), "NotJson"),
    (Call::Read(b"1."), "NotJson"),
];

/// Invalid texts, each with the expected error, followed by one valid text.
static REFUSED: Rows = &[
    (Call::Read(b""), "NotJson"),
    (Call::Read(b" \n"), "NotJson"),
    (Call::Read(b"{} {}"), "NotJson"),
    (Call::Read(b"1,"), "NotJson"),
    (Call::Read(b"[1,]"), "NotJson"),
    (Call::Read(br#"{"a":1,}"#), "NotJson"),
    (Call::Read(br#"{"a"}"#), "NotJson"),
    (Call::Read(br#"{"a":}"#), "NotJson"),
    (Call::Read(br#"{1:2}"#), "NotJson"),
    (Call::Read(b"[1}"), "NotJson"),
    (Call::Read(br#"{"a":1]"#), "NotJson"),
    (Call::Read(b"nul"), "NotJson"),
    (Call::Read(b"\"a"), "NotJson"),
    (Call::Read(br#""\ud83d""#), "NotJson"),
    (Call::Read(b"\"\xff\""), "NotJson"),
    (Call::Nested(128), "NotJson"),
    (Call::Read(b"[]"), "[]"),
];

#[test]
fn values_read(rt: HostRuntime) {
    run(&rt, rt.alloc(), VALUES);
}

#[test]
fn numbers_read(rt: HostRuntime) {
    run(&rt, rt.alloc(), NUMBERS);
}

#[test]
fn no_values(rt: HostRuntime) {
    run(&rt, rt.alloc(), REFUSED);
}
