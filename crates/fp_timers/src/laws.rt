//! Laws of all deadlines.

ghost use Rattle.fp_timers.specs.Laws.{EarliestDueAfterIsOne, EarliestDueIsOne};

/// The answer of [`Deadlines::due`](crate::Deadlines::due) is determined: one identifier, or none.
pub fn earliest_due_is_one()
    ensures { EarliestDueIsOne }
{}

/// The answer of [`Deadlines::due_after`](crate::Deadlines::due_after) is determined: one timer, or
/// none.
pub fn earliest_due_after_is_one()
    ensures { EarliestDueAfterIsOne }
{}
