//! The answers to the commands that ask for counters.

ghost use Rattle.std.specs.Prelude.{IfOk, string_bytes};
ghost use Rattle.fp_watch.specs.Numbers.{TellsNumber, TellsOfCounters, TellsOfNumber};

use crate::{Watch, WatchedRun};
use fp_counters::Counters;
use fp_metrics::number_text;
use fp_tally::CalledNumber;
use std::alloc::{AllocError, Global};
use std::sync::Wait;

/// The line after the counters.
const END_OF_COUNTERS: &str = "# EOF\n";

impl<W: WatchedRun + Drop> Watch<W> {
    /// The answer to `counters`. If memory runs out, there is none.
    pub fn counters_text<R: Wait>(&self, rt: &R, alloc: Global) -> Result<String, AllocError>
        ensures { IfOk result (λ text. TellsOfCounters (string_bytes text)) }
    {
        let mut text = self.metrics.text(rt, alloc, &self.run)?;
        text.push_str(END_OF_COUNTERS)?;
        Ok(text)
    }
}

/// The counters of a called number.
fn number_lines(alloc: Global, digits: &str, counters: &Counters) -> Result<String, AllocError>
    ensures { IfOk result (λ text. TellsNumber (string_bytes text)) }
{
    number_text(alloc, digits, counters)
}

/// The answer to `counters NUMBER`, for a called number with these counters. If memory runs out, there is none.
pub fn number_answer(
    alloc: Global,
    number: CalledNumber,
    counters: &Counters,
) -> Result<String, AllocError>
    ensures { IfOk result (λ text. TellsOfNumber (string_bytes text)) }
{
    let digits = number.text(alloc)?;
    let mut text = number_lines(alloc, digits.as_str(), counters)?;
    text.push_str(END_OF_COUNTERS)?;
    Ok(text)
}
