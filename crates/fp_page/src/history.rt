//! The history of a number over the last minute, hour and day.

ghost use Rattle.fp_page.specs.Spans.{IsSpan};

use crate::Span;
use std::alloc::{AllocError, Global};

/// The length of a period of the last minute, in milliseconds, and the number of periods: 12.
const FIVE_SECONDS: u64 = 5_000;

const OF_A_MINUTE: u16 = 12;

/// The length of a period of the last hour, in milliseconds, and the number of periods: 60.
const MINUTE: u64 = 60_000;

const OF_AN_HOUR: u16 = 60;

/// The length of a period of the last day, a quarter of an hour, in milliseconds, and the number of periods: 96.
const QUARTER: u64 = 900_000;

const OF_A_DAY: u16 = 96;

/// The history of a number over the last minute by five seconds, the last hour by minutes, and the last day by quarters
/// of an hour.
#[derive(Drop)]
pub struct History {
    minute: Span,
    hour: Span,
    day: Span,
    ghost is_minute: { IsSpan minute 5000 12 },
    ghost is_hour: { IsSpan hour 60000 60 },
    ghost is_day: { IsSpan day 900000 96 },
}

impl History {
    ghost use Rattle.std.specs.Prelude.{◌≡◌, List, [], ◌∷◌, IfOk};
    ghost use Rattle.fp_page.specs.History.{HistoryShows, day_of, hour_of, minute_of};
    ghost use Rattle.fp_page.specs.Spans.{IsNext, Note};

    /// An empty history.
    pub fn new(alloc: Global) -> Result<History, AllocError>
        ensures { IfOk result (λ history. HistoryShows history []) }
    {
        Ok(History {
            minute: Span::new(alloc, FIVE_SECONDS, OF_A_MINUTE)?,
            hour: Span::new(alloc, MINUTE, OF_AN_HOUR)?,
            day: Span::new(alloc, QUARTER, OF_A_DAY)?,
        })
    }

    /// Notes a total since the run began, at this time in milliseconds since then.
    pub fn note(&mut self, time: u64, total: u64)
        ensures { (notes : List Note) → HistoryShows self.old notes → IsNext time notes
            → HistoryShows self.new (record { time = time; total = total } ∷ notes) }
    {
        self.minute.note(time, total);
        self.hour.note(time, total);
        self.day.note(time, total);
    }

    /// The last minute, by five seconds.
    pub fn minute(&self) -> &Span
        ensures value { result.now ≡ minute_of self.now }
        ensures span { IsSpan result.now 5000 12 }
    {
        &self.minute
    }

    /// The last hour, by minutes.
    pub fn hour(&self) -> &Span
        ensures value { result.now ≡ hour_of self.now }
        ensures span { IsSpan result.now 60000 60 }
    {
        &self.hour
    }

    /// The last day, by quarters of an hour.
    pub fn day(&self) -> &Span
        ensures value { result.now ≡ day_of self.now }
        ensures span { IsSpan result.now 900000 96 }
    {
        &self.day
    }
}
