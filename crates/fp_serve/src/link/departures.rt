//! The sending side of a link.

ghost use Rattle.std.specs.Prelude.{◌≡◌, IfErr};

use crate::link::Link;
use crate::socket::TracedStream;
use crate::system::System;
use fp_book::{Parcel, Picked};
use fp_hub::{Next, Reports, Seat, SentAndNext};
use fp_linkio::{Counted, DeviceFault, Ended, Gathered, LinkWrite, Outlet, send_loop};
use fp_linkstate::{LinkEvent, Why};
use fp_tally::{LinkMetrics, SentCounts, time_since};
use std::alloc::{AllocError, Global};
use std::sync::ledger::Ledger;
use std::sync::{MutexGuard, Wait};
use std::time::Instant;

/// The most parcels that a link may send.
const MOST_PARCELS: u64 = 1 << 40;

/// The most parcels that are handed out before the lock of the outgoing octets is released.
const MOST_AT_ONCE: u64 = 1_024;

/// The octets on their way to the socket of a link.
#[derive(Drop)]
pub(crate) struct Outgoing {
    // Empty while nobody has the lock, except after a write that failed.
    gathered: Gathered,
    // How many more parcels the link may send.
    left: u64,
}

impl Outgoing {
    /// No octets yet, for a new link.
    pub(crate) fn new(alloc: Global) -> Result<Outgoing, AllocError> {
        Ok(Outgoing {
            gathered: Gathered::new(alloc)?,
            left: MOST_PARCELS,
        })
    }
}

/// The socket of a link, with the octets gathered before it, and their lock. They are handed on when there is no room
/// for more, and by a flush.
#[derive(Drop)]
struct GatheringSocket<'x, R> {
    outgoing: MutexGuard<'x, Outgoing>,
    socket: Counted<TracedStream<'x, R>>,
}

impl<R: System> GatheringSocket<'_, R> {
    /// The reason to take the link down after its sending ended with this.
    fn why(&self, ended: Ended) -> Why {
        self.socket.device.last.why(ended)
    }
}

impl<R: System> LinkWrite for GatheringSocket<'_, R> {
    ghost failures = { λ own. own.socket.failed };

    fn write(&mut self, octets: &[u8]) -> Result<usize, DeviceFault> {
        self.outgoing.gathered.write(&mut self.socket, octets)
    }

    fn flush(&mut self) -> Result<(), DeviceFault> {
        self.outgoing.gathered.hand_on(&mut self.socket)
    }
}

/// Takes the waiting parcels of a link out of its book, and reports each of them sent or unsent.
struct Departures<'x, R, A: Ledger, B: Ledger, C: Ledger> {
    link: Link<'x, R, A, B, C>,
    seat: &'x mut Seat<A, B, C>,
    // The lock of the link, if it is held for more reports.
    reports: Option<Reports<'x, A, B, C>>,
    // How many octets the buffer has once it has those of the parcel that is handed out. If the buffer had more, the lock
    // would be held during a write.
    gathered: usize,
    // A parcel that is handed out already.
    next: Option<Parcel>,
    // How many more parcels may be handed out.
    left: u64,
    // No more parcels are handed out.
    is_done: bool,
    // The counts of sent messages, if the run has counters.
    counts: Option<MutexGuard<'x, SentCounts>>,
    // When the message was read whose answer was sent last, if its time is measured.
    answered: Option<Instant>,
}

/// The number of octets of a parcel, if there is one.
fn octets_of(parcel: &Option<Parcel>) -> usize {
    match parcel {
        Some(parcel) => parcel.octets().len(),
        None => 0,
    }
}

/// The counts of sent messages, if the run has counters.
fn counts_of<'x, R: Wait>(
    rt: &R,
    metrics: Option<&'x LinkMetrics>,
) -> Option<MutexGuard<'x, SentCounts>> {
    match metrics {
        Some(metrics) => Some(metrics.sending(rt)),
        None => None,
    }
}

impl<'x, R: System, A: Ledger, B: Ledger, C: Ledger> Departures<'x, R, A, B, C> {
    /// Keeps a parcel until it is picked. The lock of the link is kept too, unless it had its reports, or the buffer must
    /// be written before this parcel finds room.
    fn keep(&mut self, parcel: Parcel, reports: Reports<'x, A, B, C>) {
        let octets = parcel.octets().len();
        let all = self.gathered.saturating_add(octets);
        let has_room = all <= Gathered::MOST;
        self.gathered = if has_room { all } else { octets };
        if has_room && !reports.is_spent() {
            self.reports = Some(reports);
        } else {
            drop(reports);
        }
        if let Some(other) = self.next.replace(parcel) {
            let link = self.link;
            self.reports = None;
            link.take_back(other);
        }
    }

    /// Counts a parcel that is sent, if the run has counters.
    fn count(&mut self, parcel: &Parcel) {
        let Link { run, metrics, .. } = self.link;
        if let Some(metrics) = metrics {
            if let Some(counts) = &mut self.counts {
                metrics.count_parcel(run.rt, counts, parcel);
            }
            if let Some(read_at) = metrics.close_sample(run.rt, parcel) {
                self.answered = Some(read_at);
            }
        }
    }

    /// Reports a parcel sent, the last one for now: the sending thread is woken for the next one.
    fn sent_last(&mut self, parcel: Parcel) -> Result<(), Parcel>
        ensures { IfErr result (λ back. back ≡ parcel) }
    {
        self.is_done = true;
        self.link.hub.sent(self.link.run.rt, self.seat, parcel)
    }

    /// Reports a parcel sent, and keeps the next one.
    fn sent_and_next(&mut self, parcel: Parcel) -> Result<(), Parcel>
        ensures { IfErr result (λ back. back ≡ parcel) }
    {
        let Link { run, hub, .. } = self.link;
        let mut reports = match self.reports.take() {
            Some(reports) => reports,
            None => hub.reports(run.rt),
        };
        let SentAndNext { sent, next } = reports.sent_and_next(self.seat, parcel);
        match next {
            Next::Parcel(parcel) => self.keep(parcel, reports),
            Next::Down | Next::Nothing => self.is_done = true,
        }
        sent
    }
}

impl<R: System, A: Ledger, B: Ledger, C: Ledger> Outlet for Departures<'_, R, A, B, C> {
    fn pick(&mut self) -> Option<Parcel> {
        if let Some(parcel) = self.next.take() {
            return Some(parcel);
        }
        if self.is_done {
            return None;
        }
        match self.link.hub.pick(self.link.run.rt) {
            Picked::Parcel(parcel) => {
                self.gathered = parcel.octets().len();
                Some(parcel)
            }
            Picked::Busy | Picked::Nothing => None,
        }
    }

    fn sent(&mut self, parcel: Parcel) -> Result<(), Parcel> {
        let Link { run, hub, .. } = self.link;
        self.left = self.left.saturating_sub(1);
        self.count(&parcel);
        // Each parcel adds two lines to the log, and lines are moved only before the next run of parcels. How full the log
        // is was seen when the lock was last released, so up to 128 lines may have come since.
        let sent = if self.left == 0 || hub.is_log_nearly_full() {
            self.reports = None;
            self.sent_last(parcel)
        } else {
            self.sent_and_next(parcel)
        };
        if self.reports.is_none() {
            hub.hint_after_no_room(run.rt);
        }
        sent
    }

    fn unsent(&mut self, parcel: Parcel) -> Result<(), Parcel> {
        self.reports = None;
        self.link.hub.unsent(self.link.run.rt, parcel)
    }
}

impl<'x, R: System, A: Ledger, B: Ledger, C: Ledger> Link<'x, R, A, B, C> {
    /// Takes back a parcel that was handed out and isn't sent: the link goes down.
    fn take_back(&self, parcel: Parcel) {
        if let Err(foreign) = self.hub.unsent(self.run.rt, parcel) {
            foreign.abandon();
        }
    }

    /// Notes the counts after a series of `count` parcels, if the run has counters.
    fn note_sent(&self, counts: Option<MutexGuard<'x, SentCounts>>, count: u64) {
        let Some(mut counts) = counts else {
            return;
        };
        if let Some(metrics) = self.metrics {
            metrics.note_sent(self.run.rt, &mut counts, count);
        }
    }

    /// Notes the time of an answer that is now written, if its message was read then.
    fn note_answer(&self, read_at: Option<Instant>) {
        let run = self.run;
        if let (Some(watch), Some(time)) = (run.watch, time_since(run.rt, read_at)) {
            watch.metrics.note_answer(run.rt, time);
        }
    }

    /// Writes the waiting parcels, first the one that was handed out already, if there is one, and hands them on to the
    /// socket, under the lock of the outgoing octets. At most 1,024 parcels, and no more once the log is nearly full:
    /// then the sending thread is woken for the rest. `Err`: the link must go down, for this reason.
    pub(crate) fn send_waiting(
        self,
        outgoing: MutexGuard<'x, Outgoing>,
        seat: &'x mut Seat<A, B, C>,
        first: Option<Parcel>,
    ) -> Result<(), Why> {
        let socket = Counted::new(self.traced_stream());
        let mut writer = GatheringSocket { outgoing, socket };
        // The octets that a failed write left are never written, so nothing is sent after them.
        let has_failed = !writer.outgoing.gathered.is_empty();
        let most_at_once = if has_failed { 0 } else { MOST_AT_ONCE };
        let most = writer.outgoing.left.min(most_at_once);
        let mut departures = Departures {
            link: self,
            seat,
            reports: None,
            gathered: octets_of(&first),
            next: first,
            left: most,
            is_done: most == 0,
            counts: counts_of(self.run.rt, self.metrics),
            answered: None,
        };
        let ended = send_loop(&mut writer, most, &mut departures);
        let Departures {
            link: _,
            seat: _,
            reports,
            gathered: _,
            next,
            left,
            is_done: _,
            counts,
            answered,
        } = departures;
        drop(reports);
        if let Some(parcel) = next {
            self.take_back(parcel);
        }
        let count = most.saturating_sub(left);
        writer.outgoing.left = writer.outgoing.left.saturating_sub(count);
        self.note_sent(counts, count);
        if has_failed || ended == Ended::WriteFault || writer.flush().is_err() {
            return Err(writer.why(Ended::WriteFault));
        }
        self.note_answer(answered);
        if writer.outgoing.left == 0 {
            Err(Why::Limit)
        } else {
            Ok(())
        }
    }

    /// Sends until the link ends. Returns the seat, with its counts.
    pub(crate) fn send_all(self, seat: Seat<A, B, C>) -> Seat<A, B, C> {
        let mut seat = seat;
        let rt = self.run.rt;
        for _ in rt.forever() {
            self.log.move_lines_if_many();
            let Some(parcel) = self.hub.await_parcel(rt) else {
                break;
            };
            let outgoing = self.outgoing.lock(rt);
            if let Err(why) = self.send_waiting(outgoing, &mut seat, Some(parcel)) {
                self.meet(LinkEvent::LoopFault { why });
                break;
            }
        }
        seat
    }
}
