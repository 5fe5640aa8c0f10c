//! Functions that split a text at a byte, or remove a part at its start or end.
ghost use Rattle.std.specs.Prelude.{◌≡◌, ◌++◌, ◌∷◌, List, ℕ, [], IfSome, IfNone, true};
ghost use Rattle.output_parser.specs.Words.{lacks};

/// Splits a text at the first occurrence of a byte. Returns `None` if `byte` does not occur in `text`.
pub fn cut_first(text: &[u8], byte: u8) -> Option<(&[u8], &[u8])>
    ensures some { IfSome result (λ x. (text.now ≡ x.0.now ++ byte ∷ x.1.now) × (lacks byte x.0.now ≡ true)) }
    ensures none { IfNone result (lacks byte text.now ≡ true) }
{
    for i in 0..text.len() {
        if text[i] == byte {
            return Some((&text[..i], &text[i + 1..]));
        }
    }
    None
}

/// Splits a text at the last occurrence of a byte. Returns `None` if `byte` does not occur in `text`.
pub fn cut_last(text: &[u8], byte: u8) -> Option<(&[u8], &[u8])>
    ensures some { IfSome result (λ x. (text.now ≡ x.0.now ++ byte ∷ x.1.now) × (lacks byte x.1.now ≡ true)) }
    ensures none { IfNone result (lacks byte text.now ≡ true) }
{
    for i in (0..text.len()).rev() {
        if text[i] == byte {
            return Some((&text[..i], &text[i + 1..]));
        }
    }
    None
}

/// Removes a prefix from a text, or returns `None` if the text does not begin with the prefix.
pub fn behind<'a>(text: &'a [u8], beginning: &[u8]) -> Option<&'a [u8]>
    ensures some { IfSome result (λ x. text.now ≡ beginning.now ++ x.now) }
    ensures none { IfNone result ((rest : List ℕ) → text.now ≡ beginning.now ++ rest → ⊥) }
{
    text.strip_prefix(beginning)
}

/// Removes a suffix from a text, or returns `None` if the text does not end with the suffix.
pub fn before<'a>(text: &'a [u8], end: &[u8]) -> Option<&'a [u8]>
    ensures some { IfSome result (λ x. text.now ≡ x.now ++ end.now) }
    ensures none { IfNone result ((front : List ℕ) → text.now ≡ front ++ end.now → ⊥) }
{
    text.strip_suffix(end)
}

/// Splits a text that ends with the name `name`, a space, and a part without spaces. Returns the text before `name`,
/// and the part without spaces. Returns `None` if the text does not have this form.
pub fn cut_named<'a>(text: &'a [u8], name: &[u8]) -> Option<(&'a [u8], &'a [u8])>
    ensures some { IfSome result
        (λ x. (text.now ≡ x.0.now ++ (name.now ++ 32 ∷ x.1.now)) × (lacks 32 x.1.now ≡ true)) }
    ensures none { IfNone result ((front word : List ℕ) → lacks 32 word ≡ true
        → text.now ≡ front ++ (name.now ++ 32 ∷ word) → ⊥) }
{
    let Some((head, word)) = cut_last(text, b' ') else {
        return None;
    };
    match before(head, name) {
        Some(head) => Some((head, word)),
        None => None,
    }
}
