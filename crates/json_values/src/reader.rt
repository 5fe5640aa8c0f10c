//! The reader of JSON values, and the buffer for unescaped strings.
ghost use Rattle.std.specs.Prelude.{◌≡◌, ◌≤◌, ◌<◌, true, length, Some, None, IfOk, OnOk, OnErr, IsUtf8};
ghost use Rattle.serde_json.specs.Data.{depth};
ghost use Rattle.serde_json.specs.Read.{max_depth, read as read_text};
ghost use Rattle.json_values.specs.Lexer.{has_backslash};
ghost use Rattle.json_values.specs.LineView.{line_view};
ghost use Rattle.json_values.specs.LineOrder.{IsOrdered};

use crate::arena::clear;
use crate::capacities::LONG_TEXT;
use crate::fault::ReadFault;
use crate::line_part::Line;
use crate::tokens::Tokens;
use crate::utf8::text_of;
use crate::values;
use bumpalo::Bump;
use std::alloc::{AllocError, Global};

/// The maximum nesting depth.
const MAX_DEPTH: usize = 127;

/// A reader of JSON values, which reuses one buffer for all values. The buffer grows to the length of a longer text,
/// unless the text has at least 128 KiB and no backslash. The result of a read does not depend on earlier reads.
#[derive(Drop)]
pub struct ValueReader {
    /// The buffer for unescaped strings.
    room: Vec<u8>,
    /// The arena for the arrays and objects of a line.
    values: Bump,
}

impl ValueReader {
    /// Creates a reader with an empty buffer.
    pub fn new(alloc: Global) -> ValueReader {
        ValueReader {
            room: Vec::new(alloc),
            values: Bump::new(alloc),
        }
    }

    /// Reads one JSON value. If an object has several members with the same name, the value has only the last of these
    /// members. Each string of the value is a slice of `bytes` or, if it had escapes, of the reader's buffer.
    ///
    /// # Errors
    ///
    /// - `NotJson`: the bytes are not UTF-8, are not one JSON value, nest deeper than 127, or contain a number too
    ///   large for a float.
    /// - `Memory`: an allocation failed. The call may return `Memory` for any input that is not empty.
    pub fn read_line<'a>(
        &'a mut self,
        alloc: Global,
        bytes: &'a [u8],
    ) -> Result<Line<'a>, ReadFault>
        ensures ok { IfOk result (λ line. IsUtf8 bytes.now × (read_text bytes.now ≡ Some (line_view line))) }
        ensures nests { IfOk result (λ line. depth (line_view line) ≤ max_depth) }
        ensures ordered { IfOk result (λ line. IsOrdered (line_view line)) }
        ensures refused { result ≡ Err ReadFault.NotJson → IsUtf8 bytes.now → read_text bytes.now ≡ None }
        ensures memory { result ≡ Err ReadFault.Memory → 0 < length bytes.now }
    {
        let Some(text) = text_of(bytes) else {
            return Err(ReadFault::NotJson);
        };
        make_room(&mut self.room, text)?;
        clear(alloc, &mut self.values);
        read_whole(alloc, &self.values, text, self.room.as_mut_slice())
    }
}

/// Makes the buffer at least as long as a text, unless the text is long and has no backslash. A text without a
/// backslash has no strings to unescape.
fn make_room(room: &mut Vec<u8>, text: &str) -> Result<(), AllocError>
    ensures ok { OnOk result (has_backslash text.now ≡ true → length text.now ≤ length room.new.items) }
    ensures full { OnErr result (0 < length text.now) }
{
    let bytes = text.as_bytes();
    if bytes.len() <= room.len() {
        return Ok(());
    }
    if bytes.len() >= LONG_TEXT && !bytes.contains(&b'\\') {
        return Ok(());
    }
    room.resize(bytes.len(), 0)?;
    Ok(())
}

/// Reads a text that must be one JSON value. The strings of the value are slices of the text or, if they had escapes,
/// of the buffer `room`.
fn read_whole<'a>(
    alloc: Global,
    values: &'a Bump,
    text: &'a str,
    room: &'a mut [u8],
) -> Result<Line<'a>, ReadFault>
    requires { has_backslash text.now ≡ true → length text.now ≤ length room.old }
    ensures ok { IfOk result (λ line. read_text text.now ≡ Some (line_view line)) }
    ensures nests { IfOk result (λ line. depth (line_view line) ≤ max_depth) }
    ensures ordered { IfOk result (λ line. IsOrdered (line_view line)) }
    ensures refused { result ≡ Err ReadFault.NotJson → read_text text.now ≡ None }
    ensures memory { result ≡ Err ReadFault.Memory → 0 < length text.now }
{
    let mut reader = Tokens::new(text, room);
    let value = values::read_value(alloc, values, &mut reader, MAX_DEPTH)?;
    let plain = reader.plain();
    if reader.next().is_some() {
        return Err(ReadFault::NotJson);
    }
    Ok(Line::new(value, plain, text.len()))
}
