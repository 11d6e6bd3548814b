//! Laws of the definitions that contracts cite.

ghost use Rattle.fp_ism.specs.Laws.{LeastIsAtMostEach};

/// The least of some numbers is at most each of them.
pub fn least_is_at_most_each()
    ensures { LeastIsAtMostEach }
{}
