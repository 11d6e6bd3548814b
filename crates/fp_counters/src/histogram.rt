//! A histogram of times over a fixed list of bounds.

ghost use Rattle.std.specs.Prelude.{◌≡◌, ◌+◌, ◌<◌, ◌==◌, ℕ, List, [], ◌∷◌, nat_lt, if◌then◌else◌};
ghost use Rattle.fp_counters.specs.Histogram.{Observed, bucket_of, number_in, sum_in};
ghost use Rattle.fp_counters.specs.Counted.{capped};

/// The bounds, in microseconds: from 50 microseconds to ten seconds.
pub const BOUNDS: [u64; 17] = [
    50, 100, 200, 500, 1_000, 2_000, 5_000, 10_000, 20_000, 50_000, 100_000, 200_000, 500_000,
    1_000_000, 2_000_000, 5_000_000, 10_000_000,
];

/// The number of buckets: one up to each bound, and one for the times above all of them.
pub const BUCKETS: usize = 18;

/// How many observed times are in each bucket, and the sum of all, each up to the greatest number of 64 bits. For
/// example, 60 microseconds are in bucket 1, the times above 50 and up to 100.
#[derive(Clone, Copy, Debug)]
pub struct Histogram {
    numbers: [u64; BUCKETS],
    sum: u64,
}

/// `below + 1` if a bound is below a time, else `below`.
fn with_bound(below: usize, bound: u64, microseconds: u64) -> usize
    requires { below < 17 }
    ensures { result ≡ below + (if nat_lt bound microseconds then 1 else 0) }
{
    if bound < microseconds {
        below + 1
    } else {
        below
    }
}

/// The bucket of a time: the number of bounds that are below it.
fn bucket_of(microseconds: u64) -> usize
    ensures value { result ≡ bucket_of microseconds }
    ensures range { bucket_of microseconds < BUCKETS }
{
    let mut below = 0;
    for place in 0..BOUNDS.len() {
        below = with_bound(below, BOUNDS[place], microseconds);
    }
    below
}

impl Histogram {
    /// An empty histogram.
    pub fn new() -> Histogram
        ensures { Observed result [] }
    {
        Histogram {
            numbers: [0; BUCKETS],
            sum: 0,
        }
    }

    /// Raises the number of a bucket.
    fn raise(&mut self, bucket: usize)
        requires { bucket < BUCKETS }
        ensures number { (other : ℕ) → number_in self.new other
            ≡ (if other == bucket then capped (number_in self.old other + 1) else number_in self.old other) }
        ensures sum { self.new.sum ≡ self.old.sum }
    {
        self.numbers[bucket] = self.numbers[bucket].saturating_add(1);
    }

    /// Adds a time to the sum.
    fn add(&mut self, microseconds: u64)
        ensures { self.new ≡ record self.old { sum = capped (self.old.sum + microseconds) } }
    {
        self.sum = self.sum.saturating_add(microseconds);
    }

    /// Observes a time, in microseconds.
    pub fn observe(&mut self, microseconds: u64)
        ensures { (times : List ℕ) → Observed self.old times → Observed self.new (microseconds ∷ times) }
    {
        self.raise(bucket_of(microseconds));
        self.add(microseconds);
    }

    /// The number of times in a bucket, those above the bound before it up to its own. The last bucket has the times
    /// above all bounds.
    pub fn number(&self, bucket: usize) -> u64
        requires { bucket < BUCKETS }
        ensures { result ≡ number_in self.now bucket }
    {
        self.numbers[bucket]
    }

    /// The sum of all times, in microseconds.
    pub fn sum(&self) -> u64
        ensures { result ≡ sum_in self.now }
    {
        self.sum
    }
}
