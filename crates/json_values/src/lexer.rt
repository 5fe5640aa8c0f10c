//! Reads the lexemes of a JSON text in order.
ghost use Rattle.std.specs.Prelude.{◌≡◌, ◌≢◌, ◌≤◌, ℕ, List, [], length, drop, get_or, true, Some, None, MatchOption, IfSome};
ghost use Rattle.std.specs.List.{prefix_len};
ghost use Rattle.json.specs.Run.{is_plain};
ghost use Rattle.json.specs.Text.{content, plain};
ghost use Rattle.json.specs.Word.{head, word};
ghost use Rattle.json.specs.Token.{bad, number};
ghost use Rattle.json.specs.Lex.{class, operator, other, between, lex};
ghost use Rattle.json.specs.Align.{is_good, is_blank};
ghost use Rattle.json.specs.Reads.{token_of};
ghost use Rattle.json_values.specs.Lexer.{has_backslash};
ghost use Rattle.json_values.specs.Plain.{Narrows, PlainIf};
ghost use Rattle.serde_json.specs.Read.{number_of};
ghost use Rattle.serde_json.specs.View.{number_view};

use crate::capacities::LONG_TEXT;
use crate::plain_texts::PlainTexts;
use crate::run::{after_blanks, byte_at, plain_end};
use crate::unescape::unescape;
use crate::word::{integer, word};
use json::Token;
use serde_json::Number;
use std::marker::Model;

/// A JSON text and the position up to which it has been read. Contracts represent a lexer by the text from the next
/// lexeme on, and by the flags (`PlainTexts`).
#[derive(Drop)]
pub(crate) struct Lexer<'a> {
    text: &'a str,
    /// The position of the next lexeme.
    at: usize,
    /// The buffer for unescaped strings. If the text has a backslash, the buffer is at least as long as the remaining
    /// text.
    room: &'a mut [u8],
    /// Flags that say which of the strings read so far are known to need no escapes.
    plain: PlainTexts,
}

impl<'a> Model for Lexer<'a> {
    ghost use Rattle.json_values.specs.Left.{TextLeft, text_left_code};

    ghost Value = { TextLeft };

    ghost coded = { text_left_code };

    ghost use Rattle.json_values.specs.Lexer.{lexer_view, IsLexer};

    ghost view = { lexer_view };

    ghost invariant = { IsLexer };
}

impl<'a> Lexer<'a> {
    /// Creates a lexer for a text.
    #[inline(always)]
    pub(crate) fn new(text: &'a str, room: &'a mut [u8]) -> Lexer<'a>
        requires { has_backslash text.now ≡ true → length text.now ≤ length room.old }
        ensures { lex between result.text ≡ lex between text.now }
    {
        let at = after_blanks(text.as_bytes(), 0);
        let plain = PlainTexts {
            names: true,
            values: true,
        };
        Lexer {
            text,
            at,
            room,
            plain,
        }
    }

    /// Returns the first byte of the next lexeme, or a space at the end of the text.
    #[inline(always)]
    pub(crate) fn peek(&self) -> u8
        ensures value { result ≡ head self.now.text }
        ensures end { is_blank (class result) ≡ true → self.now.text ≡ [] }
    {
        byte_at(self.text.as_bytes(), self.at)
    }

    /// Whether the text has at least `LONG_TEXT` bytes.
    #[inline(always)]
    pub(crate) fn is_long(&self) -> bool {
        self.text.len() >= LONG_TEXT
    }

    /// Returns flags that say which of the strings read so far are known to need no escapes.
    #[inline(always)]
    pub(crate) fn plain(&self) -> PlainTexts
        ensures { result ≡ self.now.plain }
    {
        self.plain
    }

    /// Skips a bracket, a brace, a comma or a colon.
    #[inline(always)]
    pub(crate) fn skip(&mut self)
        requires { class (head self.old.text) ≡ operator }
        ensures passed { lex between self.new.text ≡ drop 1 (lex between self.old.text) }
        ensures plain { self.new.plain ≡ self.old.plain }
    {
        self.at = after_blanks(self.text.as_bytes(), self.at + 1);
    }

    /// Reads the next number or literal.
    #[inline(always)]
    pub(crate) fn word(&mut self) -> Option<Token<'a>>
        requires { class (head self.old.text) ≡ other }
        ensures value { MatchOption result (word self.old.text ≡ bad) (λ t. word self.old.text ≡ token_of t) }
        ensures good { IfSome result (λ t. is_good (token_of t) ≡ true) }
        ensures plain { self.new.plain ≡ self.old.plain }
        ensures after { IfSome result (λ _. lex between self.new.text ≡ drop 1 (lex between self.old.text)) }
    {
        let (token, end) = word(self.text, self.at)?;
        self.at = after_blanks(self.text.as_bytes(), end);
        Some(token)
    }

    /// Reads the next lexeme if it is a short number, which has a few digits and an optional minus sign. If the next
    /// lexeme is not a short number, the call reads nothing.
    #[inline(always)]
    pub(crate) fn integer(&mut self) -> Option<Number>
        ensures kept { result ≡ None → self.new ≡ self.old }
        ensures value { IfSome result (λ n. (s : List ℕ) × (word self.old.text ≡ number s)
            × (number_of s ≡ Some (number_view n))) }
        ensures kind { IfSome result (λ _. class (head self.old.text) ≡ other) }
        ensures plain { self.new.plain ≡ self.old.plain }
        ensures after { IfSome result (λ _. lex between self.new.text ≡ drop 1 (lex between self.old.text)) }
    {
        let (number, end) = integer(self.text.as_bytes(), self.at)?;
        self.at = after_blanks(self.text.as_bytes(), end);
        Some(number)
    }

    /// Reads the content of the next string in the text.
    #[inline(always)]
    pub(crate) fn string(&mut self) -> Option<&'a str>
        requires { head self.old.text ≡ 34 }
        ensures value { MatchOption result (content plain (drop 1 self.old.text) ≡ None)
            (λ s. content plain (drop 1 self.old.text) ≡ Some s.now) }
        ensures after { IfSome result (λ _. lex between self.new.text ≡ drop 1 (lex between self.old.text)) }
        ensures narrows { Narrows self.old.plain self.new.plain }
        ensures name { IfSome result (λ s. head self.new.text ≡ 58 → PlainIf self.new.plain.names s.now) }
        ensures text { IfSome result (λ s. head self.new.text ≢ 58 → PlainIf self.new.plain.values s.now) }
    {
        let text = self.text;
        let start = self.at + 1;
        let stop = plain_end(text.as_bytes(), start);
        let after = byte_at(text.as_bytes(), stop);
        if after != b'"' {
            return match self.escaped_string(after) {
                Some(content) => Some(content),
                None => None,
            };
        }
        self.at = after_blanks(text.as_bytes(), stop + 1);
        Some(&text[start..stop])
    }

    /// Reads the content of a string with escapes. The argument `after` is the first backslash or control byte in the
    /// string. If the text ends before such a byte, `after` is a space.
    #[inline(never)]
    fn escaped_string(&mut self, after: u8) -> Option<&'a str>
        requires quote { head self.old.text ≡ 34 }
        requires after { after ≡ get_or (drop 1 self.old.text) (prefix_len is_plain (drop 1 self.old.text)) 32 }
        requires other { after ≢ 34 }
        ensures value { MatchOption result (content plain (drop 1 self.old.text) ≡ None)
            (λ s. content plain (drop 1 self.old.text) ≡ Some s.now) }
        ensures after { IfSome result (λ _. lex between self.new.text ≡ drop 1 (lex between self.old.text)) }
        ensures narrows { Narrows self.old.plain self.new.plain }
        ensures name { IfSome result (λ s. head self.new.text ≡ 58 → PlainIf self.new.plain.names s.now) }
        ensures text { IfSome result (λ s. head self.new.text ≢ 58 → PlainIf self.new.plain.values s.now) }
    {
        if after != b'\\' {
            return None;
        }
        let room = std::mem::take(&mut self.room);
        let Some((len, end)) = unescape(self.text, self.at + 1, room) else {
            self.room = room;
            return None;
        };
        let (front, back) = room.split_at_mut(len);
        self.room = back;
        self.at = after_blanks(self.text.as_bytes(), end);
        self.plain = self
            .plain
            .with_escaped(byte_at(self.text.as_bytes(), self.at) == b':');
        Some(unsafe { std::str::from_utf8_unchecked(front) })
    }
}
