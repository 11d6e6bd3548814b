//! The run as its watchers see it, and the start of the thread that answers them.

use crate::run::{Draining, LoggedRun, ServeFault, Stop};
use crate::system::{System, start_thread};
use fp_network::Drain;
use fp_runlog::RunLog;
use fp_watch::{Listening, MetricsListener, Watch, Watched, WatchedRun};
use std::alloc::{AllocError, Global};
use std::rt::Clock;
use std::sync::{Arc, Wait};

/// The run as its watchers see it besides its counters: its time and its end, its log, and the drain of its node.
#[derive(Drop)]
pub(crate) struct RunState {
    log: Arc<RunLog<LoggedRun>>,
    stop: Arc<Stop>,
    drain: Option<Arc<Drain>>,
}

impl RunState {
    /// Another share of the state, for a thread that goes on by itself.
    fn share(&self) -> Result<RunState, AllocError> {
        let drain = match &self.drain {
            Some(drain) => Some(Arc::try_clone(drain)?),
            None => None,
        };
        Ok(RunState {
            log: Arc::try_clone(&self.log)?,
            stop: Arc::try_clone(&self.stop)?,
            drain,
        })
    }
}

impl WatchedRun for RunState {
    fn elapsed<R: Clock>(&self, rt: &R) -> Option<u64> {
        self.stop.elapsed(rt)
    }

    fn is_ending<R: Wait>(&self, rt: &R) -> bool {
        let drains = match &self.drain {
            Some(drain) => drain.is_set(),
            None => false,
        };
        drains || self.stop.refuses_connections(rt)
    }

    fn log_moved_at(&self) -> u64 {
        self.log.moved_at()
    }

    fn written(&self, place: usize) -> u64 {
        self.log.lines_of(place).map_or(0, |lines| lines.written())
    }
}

/// Starts the thread that answers at this address. It isn't joined.
fn start_listening<R: System + Copy + Send + 'static>(
    rt: &R,
    alloc: Global,
    place: MetricsListener,
    watch: Watch<RunState>,
) -> Result<(), ServeFault> {
    if place.listener.set_nonblocking(true).is_err() {
        return Err(ServeFault::NoConnection);
    }
    let listening = Listening::new(alloc, place, watch)?;
    let own = *rt;
    start_thread(rt, move || {
        let mut listening = listening;
        listening.answer(&own);
    })
}

/// Shares the counters with those who ask for them, and starts the thread that answers them, if there is one.
pub(crate) fn start_watch<R: System + Copy + Send + 'static>(
    rt: &R,
    alloc: Global,
    watched: Option<Watched>,
    log: &Arc<RunLog<LoggedRun>>,
    stop: &Arc<Stop>,
    draining: &Option<Draining>,
) -> Result<Option<Watch<RunState>>, ServeFault> {
    let Some(Watched { metrics, listener }) = watched else {
        return Ok(None);
    };
    let run = RunState {
        log: Arc::try_clone(log)?,
        stop: Arc::try_clone(stop)?,
        drain: match draining {
            Some(draining) => Some(Arc::try_clone(&draining.drain)?),
            None => None,
        },
    };
    let watch = Watch { metrics, run };
    if let Some(place) = listener {
        let own = Watch {
            metrics: Arc::try_clone(&watch.metrics)?,
            run: watch.run.share()?,
        };
        start_listening(rt, alloc, place, own)?;
    }
    Ok(Some(watch))
}

/// Ends the answers to requests of the counters.
pub(crate) fn end_watch(watch: &Option<Watch<RunState>>) {
    if let Some(watch) = watch {
        watch.metrics.end();
    }
}
