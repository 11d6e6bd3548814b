//! The counts of the last periods of one length.

ghost use Rattle.std.specs.Prelude.{◌≡◌, ◌+◌, ◌-◌, ◌<◌, ◌≤◌, ℕ, List, [], ◌∷◌, IfOk, length, nat_lt, slice_index, if◌then◌else◌};
ghost use Rattle.std.specs.Vec.{vec_len};

use std::alloc::{AllocError, Global};

/// The counts of the last periods of one length, and of the current one. A period begins at each multiple of this
/// length. For example, with periods of 5,000 milliseconds the time 12,000 is in period 2.
#[derive(Drop)]
pub struct Span {
    // The length of a period, in milliseconds.
    width: u64,
    // The number of the current period, from 0.
    period: u64,
    // The total that was noted last, and the totals at the ends of the periods before, the latest first.
    totals: Vec<u64>,
    ghost has_width: { 0 < width },
    ghost has_totals: { 1 < vec_len totals },
}

/// Moves numbers towards the end by this many places, and fills the front with the first one.
fn move_back(totals: &mut [u64], places: usize)
    requires first { 0 < length totals.old }
    requires places { places ≤ length totals.old }
    ensures length { length totals.new ≡ length totals.old }
    ensures moved { (place : ℕ) → place < length totals.old → slice_index totals.new place
        ≡ (if nat_lt place places then slice_index totals.old 0 else slice_index totals.old (place - places)) }
{
    let first = totals[0];
    let end = totals.len() - places;
    totals.copy_within(..end, places);
    totals[..places].fill(first);
}

impl Span {
    ghost use Rattle.fp_page.specs.Spans.{IsNext, Note, Shows, counted, is_in_its_first_period, most_of, width_of};

    /// A span of zeros. A period has `width` milliseconds, and `most` periods are kept before the current one.
    pub fn new(alloc: Global, width: u64, most: u16) -> Result<Span, AllocError>
        requires { 0 < width }
        ensures shows { IfOk result (λ span. Shows span []) }
        ensures width { IfOk result (λ span. width_of span ≡ width) }
        ensures most { IfOk result (λ span. most_of span ≡ most) }
    {
        let mut totals = Vec::new(alloc);
        totals.resize(usize::from(most) + 2, 0)?;
        Ok(Span {
            width,
            period: 0,
            totals,
        })
    }

    /// The length of a period, in milliseconds.
    pub fn width(&self) -> u64
        ensures value { result ≡ width_of self.now }
        ensures some { 0 < result }
    {
        self.width
    }

    /// The number of periods that are kept before the current one.
    pub fn most(&self) -> usize
        ensures { result ≡ most_of self.now }
    {
        self.totals.len() - 2
    }

    /// Whether the current period is the first one, so that none is over.
    pub(crate) fn is_in_its_first_period(&self) -> bool
        ensures { result ≡ is_in_its_first_period self.now }
    {
        self.period == 0
    }

    /// Notes a total since the run began, at this time in milliseconds since then.
    pub fn note(&mut self, time: u64, total: u64)
        ensures shows { (notes : List Note) → Shows self.old notes → IsNext time notes
            → Shows self.new (record { time = time; total = total } ∷ notes) }
        ensures width { width_of self.new ≡ width_of self.old }
        ensures most { most_of self.new ≡ most_of self.old }
    {
        let period = (time / self.width).max(self.period);
        let passed = usize::try_from(period - self.period).unwrap_or(usize::MAX);
        let places = passed.min(self.totals.len());
        let totals = self.totals.as_mut_slice();
        move_back(totals, places);
        totals[0] = total;
        self.period = period;
    }

    /// The count of the period that is `age` before the current one, by the totals that were noted. 0 for a period that
    /// isn't kept any more.
    pub fn number(&self, age: usize) -> u64
        ensures kept { (notes : List Note) → Shows self.now notes → age ≤ most_of self.now → result ≡ counted self.now notes age }
        ensures older { most_of self.now < age → result ≡ 0 }
    {
        let totals = self.totals.as_slice();
        match (totals.get(age), totals.get(age.saturating_add(1))) {
            (Some(end), Some(start)) => end.saturating_sub(*start),
            _ => 0,
        }
    }
}
