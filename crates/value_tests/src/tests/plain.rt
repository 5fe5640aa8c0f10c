//! Strings that need no escapes, and the lengths of long lines.
ghost use Rattle.std.specs.Prelude.{◌≡◌, IfOk, vec_len};

use json_values::{ValueReader, is_plain};
use std::alloc::{AllocError, Global};
use std::test::Fail;

/// For each length up to 40, the test checks a string without escapes, and for each position a string with a quotation
/// mark at this position.
#[test]
fn plain_strings(rt: HostRuntime) -> Result<(), Fail> {
    for len in 0..=40 {
        let mut text = letters(rt.alloc(), len)?;
        assert!(rt; is_plain(text.as_slice()), "length {len}");
        for i in 0..len {
            text[i] = b'"';
            assert!(rt; !is_plain(text.as_slice()), "length {len}, index {i}");
            text[i] = b'a';
        }
    }
    Ok(())
}

/// Each row has a line, whether all its names need no escapes, and whether all its other strings need no escapes.
static FLAGS: &[(&str, bool, bool)] = &[
    ("{\"a\":[\"b\",{\"c\":\"d\"}]}", true, true),
    ("{\"a\":[\"b\",{\"c\":\"\\n\"}]}", true, false),
    ("{\"a\":[\"b\",{\"\\n\":\"d\"}]}", false, true),
    ("{\"\\\"\":[\"\\\\\",{\"c\":\"d\"}]}", false, false),
];

#[test]
fn plain_flags(rt: HostRuntime) {
    let mut reader = ValueReader::new(rt.alloc());
    for (text, names, values) in FLAGS {
        let known = match reader.read_line(rt.alloc(), text.as_bytes()) {
            Ok(line) => Some((line.part().plain().names, line.part().plain().values)),
            Err(_) => None,
        };
        assert_eq!(rt; known, Some((*names, *values)), "{text}");
    }
}

/// A line of 131,072 bytes is long, and a shorter line is not.
#[test]
fn lengths_of_long_lines(rt: HostRuntime) -> Result<(), Fail> {
    let mut reader = ValueReader::new(rt.alloc());
    for (len, wanted) in [(131_072, 131_072), (131_071, 0), (2, 0)] {
        let mut text = letters(rt.alloc(), len)?;
        text[0] = b'"';
        text[len - 1] = b'"';
        let long = match reader.read_line(rt.alloc(), text.as_slice()) {
            Ok(line) => Some(line.part().long_len()),
            Err(_) => None,
        };
        assert_eq!(rt; long, Some(wanted), "{len}");
    }
    Ok(())
}

/// Returns the letter `a`, `len` times.
fn letters(alloc: Global, len: usize) -> Result<Vec<u8>, AllocError>
    ensures { IfOk result (λ text. vec_len text ≡ len) }
{
    let mut text = Vec::new(alloc);
    text.resize(len, b'a')?;
    Ok(text)
}
