//! The format of a picture.

/// The format of a picture.
#[derive(Clone, Copy, Debug, PartialEq, Eq)]
pub enum Form {
    /// A picture made of lines of text, for a terminal or a mail.
    Text,
    /// One SVG picture.
    Svg,
}
