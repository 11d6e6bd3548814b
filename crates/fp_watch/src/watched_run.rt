//! The run of the watchers, as they see it besides its counters.

use std::rt::Clock;
use std::sync::Wait;

/// The run of the watchers, as they see it besides its counters.
pub trait WatchedRun {
    /// The time since the run began, in milliseconds. `None` if the clock gives no time.
    fn elapsed<R: Clock>(&self, rt: &R) -> Option<u64>;

    /// Whether the run is to end, or its node to ask for no more dialogues.
    fn is_ending<R: Wait>(&self, rt: &R) -> bool;

    /// The time of the run when the thread that writes the log moved last, in milliseconds since the run began.
    fn log_moved_at(&self) -> u64;

    /// How many log lines of the link in this place the device of the log took. 0 if the run has no such link.
    fn written(&self, place: usize) -> u64;
}
