//! Laws of the lines of all inputs.

ghost use Rattle.fp_ask.specs.Laws.{LinesHaveOneText};

use fp_entry::prepared_is_one;

/// A sequence of good lines has exactly one text of answers, by the same records, names and moment.
#[tactic(auto, using(crate::proofs::OneText::one_text))]
pub fn lines_have_one_text()
    ensures { LinesHaveOneText }
{
    prepared_is_one();
}
