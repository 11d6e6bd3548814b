//! Laws of the text of all lines.

ghost use Rattle.fp_replay.specs.Laws.{TextIsOfOneLine};

/// A text belongs to one line at most: no two lines have the same text.
pub fn texts_are_of_one_line()
    ensures { TextIsOfOneLine }
{}
