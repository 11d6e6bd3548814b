//! The state that all threads of a run share.

use crate::run::{Draining, Events, LoggedRun, RunState, Service, Settings, Statuses, Stop};
use fp_runlog::RunLog;
use fp_watch::Watch;

/// The state that all threads of a run share, except those that write its log and its events.
#[derive_where(Clone, Copy)]
pub(crate) struct Run<'x, R> {
    pub(crate) rt: &'x R,
    pub(crate) service: Service<'x>,
    pub(crate) settings: Settings,
    pub(crate) statuses: &'x Statuses,
    pub(crate) events: &'x Events,
    pub(crate) stop: &'x Stop,
    pub(crate) log: &'x RunLog<LoggedRun>,
    // The counters, if the run has them.
    pub(crate) watch: &'x Option<Watch<RunState>>,
    // The drain of the node, if a network carries the link.
    pub(crate) draining: &'x Option<Draining>,
}
