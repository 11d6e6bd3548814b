//! The receiving side of a link.

use crate::link::Link;
use crate::link::hold_back::HoldBack;
use crate::link::turns::LineGate;
use crate::run::{Service, Stop};
use crate::system::System;
use fp_apdu::Name;
use fp_digits::Moment;
use fp_entry::{Lookup, Prepared};
use fp_frames::Frame;
use fp_hub::{Gate, Seat};
use fp_linkio::{Counted, Ended, Inbox, receive};
use fp_linkstate::{ArrivalQueue, LinkEvent, Reading, Why, queue_keeps_order};
use fp_records::Table;
use fp_runlog::LogWait;
use fp_tally::now;
use fp_watch::Event;
use std::alloc::Global;
use std::collections::VecDeque;
use std::rt::Clock;
use std::sync::Arc;
use std::sync::ledger::Ledger;

/// The most reads of a link.
const MOST_READS: u64 = 1 << 40;

/// How many reads a sample covers: the time to the answer is measured for a message of one of them.
const READS_OF_A_SAMPLE: u8 = 16;

/// An allocation for frames failed.
const OUT_OF_MEMORY: LinkEvent = LinkEvent::LoopFault { why: Why::Memory };

/// The parcels that may wait since the last posts, and that the sending thread wasn't woken for.
#[derive(Clone, Copy, PartialEq, Eq)]
enum Unsent {
    /// No parcels.
    Nothing,
    /// Parcels of the last post.
    Some,
    /// Parcels that are sent with those of the next post.
    PutOff,
}

/// The receiving side of a link. Posts all frames of a read to the book, up to 64 per lock hold, then helps to serve
/// and send; what two posts brought may be sent at once. A frame that is held back waits here with those after it, and
/// none is read meanwhile, so that TCP holds the peer back. If a network carries the link, TCP doesn't do that: then a
/// frame waits for at most a fifth of a second before it is posted. Each frame is prepared just before it is posted, so
/// that its moment is the moment of the post; if memory runs out for that, it is posted as lost.
#[derive(Drop)]
struct Arrivals<'x, R, G: Gate, A: Ledger, B: Ledger, C: Ledger> {
    link: Link<'x, R, A, B, C>,
    // The table that the link answers from: the newest when its last message was prepared.
    table: Arc<Table>,
    gate: LineGate<'x, R, G, A, B, C>,
    seat: Seat<A, B, C>,
    // Frames read but not yet posted.
    queue: ArrivalQueue,
    // Messages prepared for the next post, from the front of `queue`. Empty between two calls.
    came: VecDeque<Prepared>,
    // The wait for the log.
    log_wait: LogWait,
    // How long messages are held back, if a network carries the link.
    hold_back: Option<HoldBack>,
    // Whether the first message was held back and counted as such.
    is_held: bool,
    // The parcels that may wait, and that the sending thread wasn't woken for.
    unsent: Unsent,
    // The number of reads before the next sample of an answer's time.
    reads_to_the_sample: u8,
}

impl<R: System, G: Gate, A: Ledger, B: Ledger, C: Ledger> Arrivals<'_, R, G, A, B, C> {
    /// Prepares frames for the next hold, at the present moment, by the newest table: as lost, if memory runs out when
    /// that is fetched. `false` if none is left, or nothing more is to be posted.
    fn prepare(&mut self) -> bool {
        let run = self.link.run;
        if run.stop.is_quitting() {
            self.queue.quit();
        }
        if self.queue.is_empty() {
            return false;
        }
        let Service {
            alloc,
            tables,
            contexts,
        } = run.service;
        let rt = run.rt;
        let has_newest = tables.refresh(rt, &mut self.table).is_ok();
        let mut reading = reading_by(alloc, &self.table, has_newest, contexts, now(rt));
        if self.queue.prepare(&mut reading, &mut self.came).is_err() {
            self.link.meet(OUT_OF_MEMORY);
        }
        !self.came.is_empty()
    }

    /// Serves ready turns, up to its bound. `true` if frames were queued: then you must wake the sending thread.
    fn help(&mut self) -> bool {
        let run = self.link.run;
        self.link.hub.help(run.rt, &self.gate, &mut self.seat, run.settings.most_helped)
    }

    /// Sends the waiting parcels, unless another thread sends: then the sending thread is woken.
    fn send(&mut self) {
        match self.link.outgoing.try_lock() {
            Some(outgoing) => {
                if let Err(why) = self.link.send_waiting(outgoing, &mut self.seat, None) {
                    self.link.meet(LinkEvent::LoopFault { why });
                }
            }
            None => self.link.hub.tell_sender(),
        }
    }

    /// Posts the prepared messages, up to the first that is held back; that one too, if it was held back for long
    /// enough. `true` if an Abort answers one of them: then you must wake the sending thread.
    fn post(&mut self) -> bool {
        let Link { run, hub, .. } = self.link;
        let alloc = run.service.alloc;
        let count = self.came.len();
        let is_aborted = hub.post_front(run.rt, alloc, &mut self.seat, &mut self.came);
        if self.came.len() < count {
            self.is_held = false;
        }
        let Some(hold_back) = &mut self.hold_back else {
            return is_aborted;
        };
        if self.came.len() < count {
            hold_back.is_over = false;
            return is_aborted;
        }
        if hold_back.is_over {
            if let Some(late) = self.came.pop_front() {
                hub.post(run.rt, alloc, &mut self.seat, late);
                self.is_held = false;
                hold_back.late = hold_back.late.saturating_add(1);
            }
        }
        is_aborted
    }

    /// Counts the message that is held back, once, and notes how near the limits are, if the run has counters.
    fn count_held_back(&mut self) {
        if self.is_held || self.came.is_empty() {
            return;
        }
        self.is_held = true;
        let Link { run, hub, .. } = self.link;
        if let Some(metrics) = self.link.metrics {
            metrics.count_held_back(run.rt);
            metrics.note_status(run.rt, hub.status(run.rt));
        }
    }

    /// Awaits the answer to a message that was just read, to measure its time, for one read in 16, if the run has
    /// counters.
    fn sample(&mut self, frame: &Frame) {
        let Some(metrics) = self.link.metrics else {
            return;
        };
        if self.reads_to_the_sample == 0 {
            // If that is no Begin, or another answer is awaited, the next read is looked at.
            let is_awaited = metrics.open_sample(self.link.run.rt, frame);
            self.reads_to_the_sample = if is_awaited { READS_OF_A_SAMPLE } else { 1 };
        }
    }

    /// If a message is held back, waits until there is room, or its time is over. Takes the message and those after it
    /// back to be prepared again.
    fn await_room(&mut self) {
        let Link { run, hub, .. } = self.link;
        self.count_held_back();
        if let Some(first) = self.came.front() {
            match &mut self.hold_back {
                None => hub.await_room(run.rt, first),
                Some(hold_back) => {
                    let left = hold_back.left(run.rt);
                    hold_back.is_over = !hub.await_room_within(run.rt, first, left);
                }
            }
        }
        if self.queue.take_back(&mut self.came).is_err() {
            self.link.meet(OUT_OF_MEMORY);
        }
    }

    /// Waits until places for log lines are free, if they may soon run out. The parcels that may wait are sent before.
    fn await_places(&mut self) {
        self.link.log.move_lines_if_many();
        if self.link.log.lacks_places() {
            self.send_or_put_off(false);
            self.link.log.await_places(&mut self.log_wait);
        }
    }

    /// Sends the parcels that may wait. If the read may have more frames, and no message is held back, those of one post
    /// are sent with those of the next.
    fn send_or_put_off(&mut self, may_have_more: bool) {
        let is_due = !may_have_more || !self.came.is_empty();
        match self.unsent {
            Unsent::Nothing => {}
            Unsent::Some if !is_due => self.unsent = Unsent::PutOff,
            Unsent::Some | Unsent::PutOff => {
                self.unsent = Unsent::Nothing;
                self.send();
            }
        }
    }

    /// Posts the frames that were read, and helps to serve them and to send the answers, until none is left. If
    /// `may_have_more`, the read may have more frames.
    fn post_frames(&mut self, may_have_more: bool) {
        let rt = self.link.run.rt;
        if let Some(hold_back) = &mut self.hold_back {
            hold_back.begin(rt);
        }
        for _ in rt.forever() {
            if !self.prepare() {
                break;
            }
            let is_aborted = self.post();
            let is_queued = self.help();
            if self.unsent == Unsent::Nothing && (is_aborted || is_queued) {
                self.unsent = Unsent::Some;
            }
            self.send_or_put_off(may_have_more);
            self.link.log.make_own_text();
            self.await_places();
            self.await_room();
        }
        if !may_have_more {
            self.send_or_put_off(false);
        }
    }
}

impl<R: System, G: Gate, A: Ledger, B: Ledger, C: Ledger> Inbox for Arrivals<'_, R, G, A, B, C> {
    fn frame(&mut self, frame: Frame) {
        self.sample(&frame);
        if self.queue.feed(frame).is_err() {
            self.link.meet(OUT_OF_MEMORY);
        }
        if self.queue.is_full() {
            self.post_frames(true);
        }
    }

    fn end_of_read(&mut self) {
        self.post_frames(false);
        self.log_wait.renew(self.link.run.log);
        self.reads_to_the_sample = self.reads_to_the_sample.saturating_sub(1);
        if let Some(hold_back) = &mut self.hold_back {
            hold_back.is_new_read = true;
        }
    }
}

/// The way to prepare frames at a moment: from this table if it is the newest, and else as lost.
fn reading_by<'r>(
    alloc: Global,
    table: &'r Table,
    is_newest: bool,
    contexts: &'r [Name],
    moment: Moment,
) -> Reading<'r> {
    let lookup = if is_newest {
        Some(Lookup::new(alloc, table))
    } else {
        None
    };
    Reading {
        alloc,
        lookup,
        contexts,
        moment,
    }
}

/// The event for the end of receiving.
fn event_of<R: Clock>(stop: &Stop, rt: &R, ended: Ended, why: Why) -> LinkEvent {
    match (stop.quit_time(), ended) {
        (Some(at), _) => LinkEvent::Quit { at },
        (None, Ended::EndOfInput) => LinkEvent::EndOfInput { at: stop.time(rt) },
        (None, _) => LinkEvent::LoopFault { why },
    }
}

impl<'x, R: System, A: Ledger, B: Ledger, C: Ledger> Link<'x, R, A, B, C> {
    /// Reports how many messages were held back too long, if any were.
    fn note_late(&self, hold_back: Option<HoldBack>) {
        let messages = match hold_back {
            Some(hold_back) => hold_back.late,
            None => 0,
        };
        if messages > 0 {
            let link = self.plan.link;
            self.run
                .events
                .report(self.run.rt, Event::Late { link, messages });
        }
    }

    /// Receives until the link ends, and then waits until it is down, by the table of `fp_linkstate`. Returns the seat,
    /// with its counts.
    pub(crate) fn receive_all<G: Gate>(self, gate: &'x G, seat: Seat<A, B, C>) -> Seat<A, B, C> {
        let link = self;
        queue_keeps_order();
        let run = link.run;
        let alloc = run.service.alloc;
        let (Ok(table), Ok(queue), Ok(came)) = (
            run.service.tables.table(run.rt),
            ArrivalQueue::new(alloc),
            VecDeque::with_capacity(alloc, ArrivalQueue::MOST),
        ) else {
            link.meet(OUT_OF_MEMORY);
            return seat;
        };
        let mut arrivals = Arrivals {
            link,
            table,
            gate: LineGate { link, gate },
            seat,
            queue,
            came,
            log_wait: LogWait::new(run.log),
            hold_back: if run.draining.is_some() {
                Some(HoldBack::new())
            } else {
                None
            },
            is_held: false,
            unsent: Unsent::Nothing,
            reads_to_the_sample: 0,
        };
        let mut reader = Counted::new(link.traced_stream());
        let ended = receive(alloc, &mut reader, MOST_READS, &mut arrivals);
        let why = reader.device.last.why(ended);
        link.meet(event_of(run.stop, run.rt, ended, why));
        link.await_down();
        let Arrivals {
            seat,
            hold_back,
            ..
        } = arrivals;
        link.note_late(hold_back);
        seat
    }
}
