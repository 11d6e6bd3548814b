//! Laws of all spellings, and of all faults.

ghost use Rattle.fp_ber.specs.Laws.{NoneBeginsAnother, CanonSpells, LengthsAreShortest, FaultsAreOne, SpelledHaveNoFault};

/// No spelling begins another, and each spells one element. So a written element is read again as the same element,
/// whatever follows it in its parent.
pub fn no_spelling_begins_another()
    ensures { NoneBeginsAnother }
{}

/// The canonical spelling of an element spells it.
pub fn canonical_spelling_spells()
    ensures { CanonSpells }
{}

/// Among the definite lengths of one number the canonical one takes the fewest octets.
pub fn canonical_lengths_are_shortest()
    ensures { LengthsAreShortest }
{}

/// Octets have at most one first fault. So there is one answer to octets that aren't read.
pub fn faults_are_one()
    ensures { FaultsAreOne }
{}

/// Octets that spell an element in range have no fault. With [`faults_are_one`] there is one answer to all octets: the
/// element that they spell, or their first fault.
pub fn spelled_octets_have_no_fault()
    ensures { SpelledHaveNoFault }
{}
