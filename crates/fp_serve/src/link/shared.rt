//! A link: the state that its threads share, and its totals at the end.

ghost use Rattle.std.specs.Prelude.{◌<◌};
ghost use Rattle.fp_hub.specs.Shares.{AreBlanks};

use crate::link::departures::Outgoing;
use crate::run::{LoggedRun, Run, ServeFault};
use crate::socket::{LinkStream, TracedStream};
use crate::system::System;
use crossbeam_utils::CachePadded;
use fp_book::{Status, Totals};
use fp_hub::{Gate, Hub, PARTS, finish};
use fp_linkstate::{Action, LinkEnd, LinkEvent, Why};
use fp_runlog::LogSide;
use fp_tally::{LinkMetrics, now, time_since};
use fp_watch::Event;
use std::marker::Brand;
use std::net::Shutdown;
use std::sync::Mutex;
use std::sync::ledger::{Blank, Ledger};
use std::thread;
use std::time::{Duration, Instant};

/// The time between two looks whether all octets were handed on to the socket, in milliseconds.
const LOOK_MILLISECONDS: u64 = 1;

/// The place of a link among those of the run, from 0, and its number.
#[derive(Clone, Copy)]
pub(crate) struct Plan {
    pub(crate) place: u8,
    pub(crate) link: u8,
    ghost is_link: { link < 8 },
}

/// The state that the threads of a link share.
#[derive_where(Clone, Copy)]
pub(crate) struct Link<'x, R, A: Ledger, B: Ledger, C: Ledger> {
    pub(crate) run: &'x Run<'x, R>,
    pub(crate) plan: &'x Plan,
    pub(crate) hub: &'x Hub<A, B, C>,
    pub(crate) stream: &'x LinkStream,
    // The state of the link's end.
    pub(crate) end: &'x Mutex<LinkEnd>,
    // The link as its log sees it.
    pub(crate) log: LogSide<'x, R, LoggedRun, A, B, C>,
    // The octets on their way to its socket.
    pub(crate) outgoing: &'x Mutex<Outgoing>,
    // The counters of the link, if the run has counters.
    pub(crate) metrics: Option<&'x LinkMetrics>,
}

impl<'x, R: System, A: Ledger, B: Ledger, C: Ledger> Link<'x, R, A, B, C> {
    /// The connection of the link, for the reads or writes of one of its threads.
    pub(crate) fn traced_stream(&self) -> TracedStream<'x, R> {
        TracedStream::new(self.run, self.stream, self.end)
    }

    /// Handles an event that may end the link. If the link goes down, that is reported once, with the first reason.
    pub(crate) fn meet(&self, event: LinkEvent) {
        let action = self.end.lock(self.run.rt).meet(event);
        match action {
            Action::Nothing => {}
            Action::EndSending { why } => self.go_down(why, Shutdown::Write),
            Action::End { why } => self.go_down(why, Shutdown::Both),
            Action::Close => self.stream.shutdown(self.run, Shutdown::Both),
        }
    }

    /// Takes the link down, for this reason, and reports it. The book goes down, so that the sending thread and the
    /// clock end; the socket is shut down as `how` says, which ends the receiving thread and any write of the sending
    /// thread; and the hub is closed, so that the workers end.
    fn go_down(&self, why: Why, how: Shutdown) {
        let rt = self.run.rt;
        let down = Event::Down {
            link: self.plan.link,
            why,
        };
        self.run.events.report(rt, down);
        if let Some(metrics) = self.metrics {
            metrics.count_end(rt, why);
        }
        self.hub.down(rt);
        self.stream.shutdown(self.run, how);
        self.hub.close(rt);
        self.note_status();
    }

    /// Reports that the link is up.
    fn note_up(&self) {
        let Plan { place, link, .. } = *self.plan;
        let Run {
            rt,
            statuses,
            stop,
            ..
        } = *self.run;
        if let Some(peer) = statuses.peer(rt, place) {
            self.run.events.report(rt, Event::Up { link, peer });
        }
        if let Some(metrics) = self.metrics {
            metrics.note_up(rt, now(rt), stop.time(rt));
        }
    }

    /// Looks whether the links are to end, and whether this link's time is over.
    pub(crate) fn look_at_clock(&self) {
        let stop = self.run.stop;
        if let Some(at) = stop.quit_time() {
            self.meet(LinkEvent::Quit { at });
        }
        let at = stop.time(self.run.rt);
        self.meet(LinkEvent::Clock { at });
    }

    /// The state of the link's end, and how much longer it goes on at most; 0 if the end hasn't begun or the link is
    /// down.
    pub(crate) fn end_and_time_left(&self) -> (LinkEnd, Duration) {
        let rt = self.run.rt;
        let end = *self.end.lock(rt);
        let left = end.time_left(self.run.stop.time(rt)).unwrap_or(0);
        (end, Duration::from_millis(left))
    }

    /// Notes the status of the link's book.
    pub(crate) fn note(&self, status: Status) {
        let rt = self.run.rt;
        self.run.statuses.note(rt, self.plan.place, status);
        if let Some(metrics) = self.metrics {
            metrics.note_status(rt, status);
        }
    }

    /// Notes the present status of the link.
    pub(crate) fn note_status(&self) {
        self.note(self.hub.status(self.run.rt));
    }

    /// Notes a tick of the link's clock.
    pub(crate) fn note_tick(&self) {
        if let Some(metrics) = self.metrics {
            metrics.note_tick(self.run.stop.time(self.run.rt));
        }
    }

    /// Waits until nothing is left to be served or sent and all octets were handed on to the socket, or the link is
    /// down; at most for this time.
    pub(crate) fn await_quiet(&self, most: Duration) {
        let start = Instant::now(self.run.rt).ok();
        self.hub.await_quiet(self.run.rt, most);
        for _ in self.run.rt.forever() {
            let since = time_since(self.run.rt, start).unwrap_or(most);
            if since >= most || self.outgoing.try_lock().is_some() {
                break;
            }
            thread::sleep(self.run.rt, Duration::from_millis(LOOK_MILLISECONDS));
        }
    }

    /// Whether nothing is left to be served or sent, and all octets were handed on to the socket; or the link is down.
    pub(crate) fn is_quiet(&self) -> bool {
        self.hub.await_quiet(self.run.rt, Duration::ZERO) && self.outgoing.try_lock().is_some()
    }
}

/// The counters of a link, if the run has counters.
fn metrics_of<'x, R>(run: &'x Run<'x, R>, plan: &Plan) -> Option<&'x LinkMetrics> {
    match run.watch {
        Some(watch) => watch.metrics.link(plan.place),
        None => None,
    }
}

impl<
    R: System + Sync,
    A: Ledger + Send + Sync,
    B: Ledger + Send + Sync,
    C: Ledger + Send + Sync,
> Link<'_, R, A, B, C> {
    /// Runs a link with the ledgers of these blanks, until it is down. `None` if its totals aren't known; then all
    /// links are to go down.
    fn run<'x, G: Gate + Sync>(
        run: &'x Run<'x, R>,
        plan: &Plan,
        blanks: (Blank, Blank, Blank),
        gate: &G,
        stream: &LinkStream,
    ) -> Option<Totals>
        requires blanks { AreBlanks blanks A.name A.parts B.name B.parts C.name C.parts }
    {
        let Run { rt, stop, .. } = *run;
        let alloc = run.service.alloc;
        let tag = run.settings.tag;
        let (Some(lines), Ok((hub, seat)), Ok(outgoing)) = (
            run.log.lines_of(usize::from(plan.place)),
            Hub::<A, B, C>::with_tag(alloc, plan.link, tag, blanks),
            Outgoing::new(alloc),
        ) else {
            stop.ask_for(rt, ServeFault::Memory);
            return None;
        };
        let end = Mutex::new(LinkEnd::new());
        let outgoing = CachePadded::new(Mutex::new(outgoing));
        let metrics = metrics_of(run, plan);
        let link = Link {
            run,
            plan,
            hub: &hub,
            stream,
            end: &end,
            log: LogSide {
                rt,
                alloc,
                log: run.log,
                lines,
                hub: &hub,
                tables: run.service.tables,
                metrics,
            },
            outgoing: &*outgoing,
            metrics,
        };
        link.note_up();
        let seat = link.run_threads(gate, seat);
        stream.finish(run);
        link.log.make_last_text();
        link.note_status();
        let totals = finish(hub, seat);
        if totals.is_none() {
            stop.ask_for(rt, ServeFault::LostSeat);
        }
        totals
    }
}

/// Runs a link over a connection, until it is down, and returns its totals. Its threads pass this gate with each turn.
/// `None` if its totals aren't known; then all links are to go down.
pub(crate) fn run_link<'x, R: System + Sync, G: Gate + Sync>(
    run: &'x Run<'x, R>,
    plan: Plan,
    gate: &G,
    stream: &LinkStream,
) -> Option<Totals> {
    let blanks = (Blank::new(PARTS), Blank::new(PARTS), Blank::new(PARTS));
    Link::<R, Brand, Brand, Brand>::run(run, &plan, blanks, gate, stream)
}
