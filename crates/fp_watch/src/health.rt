//! Whether a run is live, and whether it is ready.

use crate::{Metrics, WatchedRun};
use fp_metrics::Health;
use fp_tally::LinkMetrics;
use std::rt::Clock;
use std::sync::{Arc, Wait};

/// How long a clock, or the thread that writes the log, may stand still in a run that is live, in milliseconds. A clock
/// ticks once a second.
const MOST_IDLE_MILLISECONDS: u64 = 10_000;

/// The parts of a run that its watchers see.
#[derive(Drop)]
pub struct Watch<W: WatchedRun + Drop> {
    /// The counters.
    pub metrics: Arc<Metrics>,
    /// The run.
    pub run: W,
}

/// Whether a thread hangs now, if this was its last move.
fn hangs(now: u64, moved_at: u64) -> bool {
    now.saturating_sub(moved_at) >= MOST_IDLE_MILLISECONDS
}

/// Whether a link is up and its clock hangs at this time of the run.
pub(crate) fn link_hangs<R: Wait>(rt: &R, link: &LinkMetrics, time: u64) -> bool {
    match link.tick_time(rt) {
        Some(ticked_at) => hangs(time, ticked_at),
        None => false,
    }
}

impl<W: WatchedRun + Drop> Watch<W> {
    /// The present time of the run, in milliseconds since it began. If the clock gives none, the greatest number.
    pub(crate) fn time<R: Clock>(&self, rt: &R) -> u64 {
        self.run.elapsed(rt).unwrap_or(u64::MAX)
    }

    /// Whether the thread that writes the log hangs at this time of the run.
    pub(crate) fn log_hangs(&self, time: u64) -> bool {
        hangs(time, self.run.log_moved_at())
    }

    /// The health of the run. It is live, if the clocks of the links that are up and the thread that writes the log
    /// moved within the last ten seconds. It is ready, if a link is up, a connection of the network carries its
    /// messages if it is a node's, and the run isn't about to end.
    pub(crate) fn health<R: Wait + Clock>(&self, rt: &R) -> Health {
        let time = self.time(rt);
        let mut is_live = !self.log_hangs(time);
        let mut is_up = false;
        for link in self.metrics.links() {
            is_up = is_up || link.tick_time(rt).is_some();
            is_live = is_live && !link_hangs(rt, link, time);
        }
        Health {
            is_live,
            is_ready: is_up && !self.metrics.lacks_connection() && !self.run.is_ending(rt),
        }
    }
}
