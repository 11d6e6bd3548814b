//! The numbers of the counters.

ghost use Rattle.std.specs.Prelude.{◌≡◌, ◌+◌, ◌∷◌, [], ◌++◌, List};
ghost use Rattle.fp_counters.specs.Counter.{most_counters, place_of};
ghost use Rattle.fp_counters.specs.Counted.{Counted, Increase, capped, increased, number_of, once};
ghost use Rattle.fp_counters.specs.declared.counter.Counter.{Counter};

use crate::Counter;
use crate::counter::COUNTERS;

/// The number of each counter, up to the greatest one of 64 bits.
#[derive(Clone, Copy, Debug)]
pub struct Counters {
    numbers: [u64; COUNTERS],
}

impl Counters {
    /// Counters of 0.
    pub fn new() -> Counters
        ensures { Counted result [] }
    {
        Counters {
            numbers: [0; COUNTERS],
        }
    }

    /// The number of a counter.
    pub fn number(&self, counter: Counter) -> u64
        ensures { result ≡ number_of self.now counter }
    {
        self.numbers[counter.place()]
    }

    /// Raises the number of a counter.
    fn raise(&mut self, counter: Counter, amount: u64)
        ensures { (other : Counter) → number_of self.new other
            ≡ increased counter amount other (number_of self.old other) }
    {
        let place = counter.place();
        self.numbers[place] = self.numbers[place].saturating_add(amount);
    }

    /// Counts an event this many times.
    pub fn add(&mut self, counter: Counter, amount: u64)
        ensures { (events : List Increase) → Counted self.old events
            → Counted self.new (record { counter = counter; amount = amount } ∷ events) }
    {
        self.raise(counter, amount);
    }

    /// Counts an event.
    pub fn count(&mut self, counter: Counter)
        ensures { (events : List Increase) → Counted self.old events → Counted self.new (once counter ∷ events) }
    {
        self.add(counter, 1);
    }

    /// Adds the numbers of other counters, kept by a thread of the same link.
    fn add_numbers(&mut self, other: &Counters)
        ensures { (counter : Counter) → number_of self.new counter
            ≡ capped (number_of self.old counter + number_of other.now counter) }
    {
        for place in 0..COUNTERS {
            self.numbers[place] = self.numbers[place].saturating_add(other.numbers[place]);
        }
    }

    /// Counts all events of other counters, too, kept by a thread of the same link.
    pub fn merge(&mut self, other: &Counters)
        ensures { (own others : List Increase) → Counted self.old own → Counted other.now others
            → Counted self.new (own ++ others) }
    {
        self.add_numbers(other);
    }
}
