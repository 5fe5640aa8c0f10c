//! The markup of pictures, that is, all text of a picture except numbers and texts from the input.
ghost use Rattle.std.specs.Prelude.{◌≡◌};
ghost use Rattle.diagrams.specs.Ink.{markup_text};

/// A piece of markup.
#[derive(Clone, Copy, Debug, PartialEq, Eq)]
pub enum Markup {
    /// A blank.
    Space,
    /// The end of a line.
    LineEnd,
    /// The indentation of a row of text.
    Indent,
    /// Three blanks, which a text picture has between two columns instead of an edge.
    Blank,
    /// The character `│` of a text picture, which draws an edge from the row above to the row below.
    Bar,
    /// The character `─` of a text picture, which draws an edge to the next revision of the same row.
    Step,
    /// The character `┬` of a text picture, which draws edges to the next revision of the same row and to the row
    /// below.
    Fork,
    /// The character `├` of a text picture, which draws edges from the row above to the next revision and to the row
    /// below.
    Branch,
    /// The character `└` of a text picture, which draws an edge from the row above to the next revision.
    Corner,
    /// The text ` more` of a column such as `12 more`. This column represents 12 consecutive generations.
    More,
    /// The start of an SVG picture.
    Head,
    /// The end of an SVG picture, with its width and height.
    TailWidth,
    TailHeight,
    Tail,
    /// The start of a document's SVG markup, before the position of the document.
    Group,
    /// The markup before a document's id.
    Title,
    /// The markup after a document's id.
    TitleEnd,
    GroupEnd,
    /// The parts of an SVG edge's markup: before, between and after the coordinates of the edge's points.
    Path,
    Comma,
    Curve,
    PathEnd,
    /// The start of a revision's SVG markup, before the position of the revision.
    Node,
    /// The markup before a full revision id.
    NodeTitle,
    /// The markup between the full id and the short id of an ancestor.
    Ancestor,
    Folded,
    /// The SVG markup for an unknown revision in a row.
    NodeNone,
    /// The markup after the short id of a revision.
    NodeEnd,
    /// The markup before the contents of a line.
    Line,
    /// The markup between the name and the numbers of a line.
    Numbers,
}

impl Markup {
    /// Returns the text of a kind of markup.
    pub fn text(self) -> &'static str
        ensures { result.now ≡ markup_text self }
    {
        match self {
            Markup::Space => " ",
            Markup::LineEnd => "\n",
            Markup::Indent => "  ",
            Markup::Blank => "   ",
            Markup::Bar => " │ ",
            Markup::Step => " ─ ",
            Markup::Fork => " ┬ ",
            Markup::Branch => " ├ ",
            Markup::Corner => " └ ",
            Markup::More => " more",
            Markup::Head => {
                "<svg xmlns=\"http://www.w3.org/2000/svg\" role=\"img\" font-family=\"sans-serif\" font-size=\"13\"><title>Revision trees</title><desc>Each document is a tree of its revisions, the oldest to the left, with the winner in the first row. Filled marks are live leaves, a disc for the winner and squares for those that lose; hollow marks are deleted leaves.</desc><style>svg{background:#fff}text{fill:#222;white-space:pre}.b{font-weight:bold}.r{font-size:10px;text-anchor:middle;fill:#555}.e{stroke:#7f8c8d;stroke-width:1.6;fill:none}.a{fill:#95a5a6}.w{fill:#0072b2}.l{fill:#d55e00}.d{fill:#fff;stroke:#555;stroke-width:2}@media(prefers-color-scheme:dark){svg{background:#1b1b1b}text{fill:#eee}.r{fill:#bbb}.d{fill:#1b1b1b;stroke:#bbb}}</style>\n"
            }
            Markup::TailWidth => "<style>svg{width:",
            Markup::TailHeight => "px;height:",
            Markup::Tail => "px}</style></svg>\n",
            Markup::Group => "<g transform=\"translate(0,",
            Markup::Title => ")\"><text x=\"20\" y=\"18\" class=\"b\">",
            Markup::TitleEnd => "</text>\n",
            Markup::GroupEnd => "</g>\n",
            Markup::Path => "<path class=\"e\" d=\"M",
            Markup::Comma => ",",
            Markup::Curve => " C",
            Markup::PathEnd => "\"/>\n",
            Markup::Node => "<g transform=\"translate(",
            Markup::NodeTitle => ")\"><title>",
            Markup::Ancestor => "</title><circle r=\"6\" class=\"a\"/><text y=\"-11\" class=\"r\">",
            Markup::Folded => ")\"><text y=\"4\" class=\"r\">",
            Markup::NodeNone => ")\"></g>\n",
            Markup::NodeEnd => "</text></g>\n",
            Markup::Line => ")\"><text x=\"20\" y=\"18\">",
            Markup::Numbers => "</text>\n<text x=\"20\" y=\"40\">",
        }
    }
}
