//! Reads the lexemes of a JSON text as tokens, and checks commas and colons.
ghost use Rattle.std.specs.Prelude.{◌≡◌, ◌≢◌, ◌≤◌, ◌⊎◌, ℕ, List, [], ◌∷◌, length, true, false, Some, None, IfOk, IfSome, MatchOption, MatchResult};
ghost use Rattle.std.specs.Bool.{MatchBool};
ghost use Rattle.json.specs.Word.{head};
ghost use Rattle.json.specs.Lex.{class, between, lex, after_value, punctuate, tokens};
ghost use Rattle.json.specs.Align.{is_blank};
ghost use Rattle.json.specs.Json.{after_end_array, read_key};
ghost use Rattle.json.specs.Reads.{token_of, Yields};
ghost use Rattle.json.specs.Token as SpecToken;
ghost use Rattle.serde_json.specs.Read.{number_of};
ghost use Rattle.serde_json.specs.View.{number_view};
ghost use Rattle.json_values.specs.Lexer.{has_backslash};
ghost use Rattle.json_values.specs.Plain.{IsPlainToken, Narrows, PlainIf};
ghost use Rattle.json_values.specs.Place.{tokens_at, closes_at, begins_at, begins_key, ends_object, of_string, refused_at, Begins, BeginsNoValue, Closes, NotBeforeComma};

use crate::capacities::Capacities;
use crate::lexer::Lexer;
use crate::line::LineValue;
use crate::plain_texts::PlainTexts;
use crate::run::is_space;
use json::{Invalid, Token};
use serde_json::Number;
use std::cell::Cell;
use std::marker::Model;

/// The position in the JSON grammar at which the next token is read.
#[derive(Clone, Copy, Drop)]
pub(crate) enum Place {
    AfterComma,
    Fresh,
    AfterValue,
    Failed,
}

impl Place {
    /// Whether the JSON grammar allows the end of an array or object as the next token.
    #[inline(always)]
    fn may_close(self) -> bool
        ensures { result ≡ closes_at self }
    {
        matches!(self, Place::Fresh | Place::AfterValue)
    }

    /// Whether the JSON grammar allows a value or a member's name as the next token.
    #[inline(always)]
    fn may_begin(self) -> bool
        ensures { result ≡ begins_at self }
    {
        matches!(self, Place::Fresh | Place::AfterComma)
    }
}

/// The tokens of a JSON text. Contracts represent a token reader by the tokens that it has not read yet, and by the
/// flags (`PlainTexts`).
#[derive(Drop)]
pub(crate) struct Tokens<'a> {
    lexer: Lexer<'a>,
    place: Place,
    capacities: Capacities,
    /// The array that the reader stored last, if the text is long. An equal next array can share the memory of this
    /// array.
    last_array: Cell<&'a [LineValue<'a>]>,
}

impl<'a> Model for Tokens<'a> {
    ghost use Rattle.json_values.specs.Left.{TokensLeft, tokens_left_code};

    ghost Value = { TokensLeft };

    ghost coded = { tokens_left_code };

    ghost use Rattle.json_values.specs.Place.{tokens_at, NotBeforeComma};

    ghost view = { λ a. record { tokens = tokens_at a.place a.lexer.text; plain = a.lexer.plain } };

    ghost invariant = { λ a. NotBeforeComma a.place a.lexer.text };
}

/// Skips the comma that may follow a value.
#[inline(always)]
fn after_value(lexer: &mut Lexer<'_>) -> Place
    ensures same { tokens_at result lexer.new.text ≡ punctuate after_value (lex between lexer.old.text) }
    ensures passed { NotBeforeComma result lexer.new.text }
    ensures plain { lexer.new.plain ≡ lexer.old.plain }
{
    if lexer.peek() == b',' {
        lexer.skip();
        Place::AfterComma
    } else {
        Place::AfterValue
    }
}

/// Reads the next string or name.
#[inline(always)]
fn string<'a>(lexer: &mut Lexer<'a>) -> (Token<'a>, Place)
    requires { head lexer.old.text ≡ 34 }
    ensures value { Begins lexer.old.text (token_of result.0) result.1 lexer.new.text }
    ensures passed { NotBeforeComma result.1 lexer.new.text }
    ensures plain { Narrows lexer.old.plain lexer.new.plain × IsPlainToken lexer.new.plain (token_of result.0) }
    ensures kind { of_string (token_of result.0) ≡ true }
{
    let Some(text) = lexer.string() else {
        return (Token::Bad, Place::Failed);
    };
    if lexer.peek() == b':' {
        lexer.skip();
        (Token::Key(text), Place::Fresh)
    } else {
        (Token::String(text), after_value(lexer))
    }
}

/// Reads the token with the first byte `c`. A value or a name may begin at this position.
#[inline(always)]
fn begin<'a>(lexer: &mut Lexer<'a>, c: u8) -> (Token<'a>, Place)
    requires first { (head lexer.old.text ≡ c) × (is_blank (class c) ≡ false) }
    requires opening { (c ≢ 125) × (c ≢ 93) }
    ensures value { Begins lexer.old.text (token_of result.0) result.1 lexer.new.text }
    ensures passed { NotBeforeComma result.1 lexer.new.text }
    ensures plain { Narrows lexer.old.plain lexer.new.plain × IsPlainToken lexer.new.plain (token_of result.0) }
{
    match c {
        b'"' => string(lexer),
        b'{' => {
            lexer.skip();
            (Token::BeginObject, Place::Fresh)
        }
        b'[' => {
            lexer.skip();
            (Token::BeginArray, Place::Fresh)
        }
        b',' | b':' | b'\\' => (Token::Bad, Place::Failed),
        _ => match lexer.word() {
            Some(token) => (token, after_value(lexer)),
            None => (Token::Bad, Place::Failed),
        },
    }
}

/// Reads the end of an array or object.
#[inline(always)]
fn close<'a>(lexer: &mut Lexer<'a>, c: u8) -> (Token<'a>, Place)
    requires { (head lexer.old.text ≡ c) × ((c ≡ 125) ⊎ (c ≡ 93)) }
    ensures value { Closes lexer.old.text (token_of result.0) result.1 lexer.new.text }
    ensures passed { NotBeforeComma result.1 lexer.new.text }
    ensures plain { (lexer.new.plain ≡ lexer.old.plain) × IsPlainToken lexer.new.plain (token_of result.0) }
{
    lexer.skip();
    let place = after_value(lexer);
    if c == b'}' {
        (Token::EndObject, place)
    } else {
        (Token::EndArray, place)
    }
}

/// Returns the token for invalid text. After this token, the text has no further token.
#[cold]
fn refuse<'a>(place: Place) -> (Option<Token<'a>>, Place)
    ensures { Yields (refused_at place) result.0 [] × (result.1 ≡ Place.Failed) }
{
    if let Place::Failed = place {
        (None, Place::Failed)
    } else {
        (Some(Token::Bad), Place::Failed)
    }
}

/// Reads the next token, and returns the token with the grammar position after the token.
#[inline(always)]
fn read<'a>(lexer: &mut Lexer<'a>, place: Place) -> (Option<Token<'a>>, Place)
    requires { NotBeforeComma place lexer.old.text }
    ensures value { Yields (tokens_at place lexer.old.text) result.0 (tokens_at result.1 lexer.new.text) }
    ensures passed { NotBeforeComma result.1 lexer.new.text }
    ensures plain { Narrows lexer.old.plain lexer.new.plain
        × IfSome result.0 (λ t. IsPlainToken lexer.new.plain (token_of t)) }
{
    let c = lexer.peek();
    if (c == b'}') | (c == b']') {
        if !place.may_close() {
            return refuse(place);
        }
        let (token, next) = close(lexer, c);
        return (Some(token), next);
    }
    if is_space(c) {
        return if place.may_close() {
            (None, place)
        } else {
            refuse(place)
        };
    }
    if !place.may_begin() {
        return refuse(place);
    }
    let (token, next) = begin(lexer, c);
    (Some(token), next)
}

impl<'a> Tokens<'a> {
    /// Creates a reader for the tokens of a text. Strings with escapes are unescaped into the buffer `room`, and all
    /// other strings are slices of the text.
    #[inline(always)]
    pub(crate) fn new(text: &'a str, room: &'a mut [u8]) -> Tokens<'a>
        requires { has_backslash text.now ≡ true → length text.now ≤ length room.old }
        ensures { result.tokens ≡ tokens text.now }
    {
        Tokens {
            lexer: Lexer::new(text, room),
            place: Place::Fresh,
            capacities: Capacities::new(),
            last_array: Cell::new(&[]),
        }
    }

    /// Returns flags that say which of the strings read so far are known to need no escapes.
    #[inline(always)]
    pub(crate) fn plain(&self) -> PlainTexts
        ensures { result ≡ self.now.plain }
    {
        self.lexer.plain()
    }

    /// Reads the next token.
    #[inline(always)]
    pub(crate) fn next(&mut self) -> Option<Token<'a>>
        ensures token { MatchOption result ((self.old.tokens ≡ []) × (self.new.tokens ≡ []))
            (λ t. self.old.tokens ≡ token_of t ∷ self.new.tokens) }
        ensures plain { Narrows self.old.plain self.new.plain
            × IfSome result (λ t. IsPlainToken self.new.plain (token_of t)) }
    {
        let (token, place) = read(&mut self.lexer, self.place);
        self.place = place;
        token
    }

    /// Reads the next token if it is the name of a member. If the next token is not a name, the call returns `None`,
    /// and the caller can still read a name or the end of the object.
    #[inline(always)]
    pub(crate) fn take_key(&mut self) -> Option<&'a str>
        ensures name { MatchOption result
            ((begins_key self.old.tokens ≡ false) × (read_key self.new.tokens ≡ read_key self.old.tokens))
            (λ s. self.old.tokens ≡ SpecToken.key s.now ∷ self.new.tokens) }
        ensures plain { Narrows self.old.plain self.new.plain
            × IfSome result (λ s. PlainIf self.new.plain.names s.now) }
    {
        if (self.lexer.peek() != b'"') | !self.place.may_begin() {
            return None;
        }
        let (token, place) = string(&mut self.lexer);
        if let Token::Key(name) = token {
            self.place = place;
            return Some(name);
        }
        self.place = Place::Failed;
        None
    }

    /// Reads the next token if it is a string. The call returns `None` and reads nothing if the next byte is not a
    /// quotation mark, or if no value may begin here. Returns `Invalid` if the next token is a name or an invalid
    /// string, because no value begins with this token.
    #[inline(always)]
    pub(crate) fn take_text(&mut self) -> Result<Option<&'a str>, Invalid>
        ensures text { MatchResult result
            (λ o. MatchOption o (self.new ≡ self.old)
            (λ s. self.old.tokens ≡ SpecToken.string s.now ∷ self.new.tokens))
            (λ _. BeginsNoValue self.old.tokens) }
        ensures plain { Narrows self.old.plain self.new.plain
            × IfOk result (λ o. IfSome o (λ s. PlainIf self.new.plain.values s.now)) }
    {
        if (self.lexer.peek() != b'"') | !self.place.may_begin() {
            return Ok(None);
        }
        let (token, place) = string(&mut self.lexer);
        self.place = place;
        if let Token::String(text) = token {
            return Ok(Some(text));
        }
        Err(Invalid)
    }

    /// Reads the next token if it is a short number, which has a few digits and an optional minus sign. Otherwise reads
    /// nothing.
    #[inline(always)]
    pub(crate) fn take_integer(&mut self) -> Option<Number>
        ensures number { MatchOption result (self.new ≡ self.old)
            (λ n. (s : List ℕ) × (self.old.tokens ≡ SpecToken.number s ∷ self.new.tokens)
            × (number_of s ≡ Some (number_view n))) }
        ensures plain { self.new.plain ≡ self.old.plain }
    {
        if !self.place.may_begin() {
            return None;
        }
        let number = self.lexer.integer()?;
        self.place = after_value(&mut self.lexer);
        Some(number)
    }

    /// Reads the closing brace of an object, if the brace is the next token.
    #[inline(always)]
    pub(crate) fn take_end_object(&mut self) -> bool
        ensures end { MatchBool result (read_key self.old.tokens ≡ Some (None, self.new.tokens))
            (ends_object self.old.tokens ≡ false) }
        ensures plain { self.new.plain ≡ self.old.plain }
    {
        if (self.lexer.peek() != b'}') | !self.place.may_close() {
            return false;
        }
        self.lexer.skip();
        self.place = after_value(&mut self.lexer);
        true
    }

    /// Returns the initial capacity of an array or object, before its first element is read. An empty array or object
    /// has the initial capacity 0. Any other array or object in a short text has the initial capacity 8. In a long
    /// text, the initial capacity is the length of the last value of the same kind (array or object) and depth (modulo
    /// 4). If this length exceeds 16, the capacity is 16. The first value of a kind and depth (modulo 4) in a long text
    /// has the initial capacity 8.
    #[inline(always)]
    pub(crate) fn room(&self, is_object: bool, depth: usize) -> usize {
        let next = self.lexer.peek();
        if (next == b']') | (next == b'}') {
            0
        } else if self.lexer.is_long() {
            self.capacities.of(is_object, depth)
        } else {
            8
        }
    }

    /// Records the length of an array or object that was read, if the JSON text has at least `LONG_TEXT` bytes.
    #[inline(always)]
    pub(crate) fn note(&self, is_object: bool, depth: usize, len: usize) {
        if self.lexer.is_long() {
            self.capacities.note(is_object, depth, len);
        }
    }

    /// Whether the JSON text has at least `LONG_TEXT` bytes.
    #[inline(always)]
    pub(crate) fn is_long(&self) -> bool {
        self.lexer.is_long()
    }

    /// Returns the array that was the argument of the last call of `note_array`. No contract says which array the call
    /// returns.
    pub(crate) fn last_array(&self) -> &'a [LineValue<'a>] {
        self.last_array.get()
    }

    /// Sets the field `last_array` to an array that was stored in the arena.
    pub(crate) fn note_array(&self, items: &'a [LineValue<'a>]) {
        self.last_array.set(items);
    }

    /// Reads the closing bracket of an array, if the bracket is the next token.
    #[inline(always)]
    pub(crate) fn take_end_array(&mut self) -> bool
        ensures end { MatchBool result (after_end_array self.old.tokens ≡ Some self.new.tokens)
            ((after_end_array self.old.tokens ≡ None) × (self.new ≡ self.old)) }
        ensures plain { self.new.plain ≡ self.old.plain }
    {
        if (self.lexer.peek() != b']') | !self.place.may_close() {
            return false;
        }
        self.lexer.skip();
        self.place = after_value(&mut self.lexer);
        true
    }
}
