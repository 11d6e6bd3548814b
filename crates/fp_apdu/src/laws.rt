//! A law of all dialogue portions.

ghost use Rattle.fp_apdu.specs.Laws.{OpeningsAreOne};

/// A dialogue portion has at most one opening, if the accepted names are the same.
pub fn openings_are_one()
    ensures { OpeningsAreOne }
{}
