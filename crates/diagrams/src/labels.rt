//! The labels and shapes that only leaves have in a picture.
ghost use Rattle.std.specs.Prelude.{◌≡◌};
ghost use Rattle.diagrams.specs.Ink.{label_text, node_label, shape_text};

/// Returns the label of a leaf in a text picture.
pub fn label_text(wins: bool, live: bool) -> &'static str
    ensures { result.now ≡ label_text wins live }
{
    match (wins, live) {
        (true, true) => "  wins, live\n",
        (true, false) => "  wins, deleted\n",
        (false, true) => "  live\n",
        (false, false) => "  deleted\n",
    }
}

/// Returns the SVG markup of a leaf's shape. A leaf's SVG markup has the full revision id, the shape and the short
/// revision id, in this order.
pub fn shape_text(wins: bool, live: bool) -> &'static str
    ensures { result.now ≡ shape_text wins live }
{
    match (wins, live) {
        (true, true) => "</title><circle r=\"8\" class=\"w\"/><text y=\"-11\" class=\"r\">",
        (true, false) => "</title><circle r=\"8\" class=\"d\"/><text y=\"-11\" class=\"r\">",
        (false, true) => {
            "</title><rect x=\"-7\" y=\"-7\" width=\"14\" height=\"14\" class=\"l\"/><text y=\"-11\" class=\"r\">"
        }
        (false, false) => {
            "</title><rect x=\"-7\" y=\"-7\" width=\"14\" height=\"14\" class=\"d\"/><text y=\"-11\" class=\"r\">"
        }
    }
}

/// Returns the label of a leaf in an SVG picture.
pub fn node_label(wins: bool, live: bool) -> &'static str
    ensures { result.now ≡ node_label wins live }
{
    match (wins, live) {
        (true, true) => "</text><text x=\"14\" y=\"4\">wins, live</text></g>\n",
        (true, false) => "</text><text x=\"14\" y=\"4\">wins, deleted</text></g>\n",
        (false, true) => "</text><text x=\"14\" y=\"4\">live</text></g>\n",
        (false, false) => "</text><text x=\"14\" y=\"4\">deleted</text></g>\n",
    }
}
