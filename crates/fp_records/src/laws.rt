//! A law of the closed days of every file.

ghost use Rattle.fp_records.specs.Laws.{ClosedDaysAreThoseOfTheFile};

/// A number is closed on a day exactly if the file has a closed day with this number and this day. The other closed
/// days and their order don't matter.
pub fn closed_days_are_those_of_the_file()
    ensures { ClosedDaysAreThoseOfTheFile }
{}
