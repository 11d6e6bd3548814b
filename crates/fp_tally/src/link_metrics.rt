//! The counters of a link.

ghost use Rattle.std.specs.Prelude.{◌≡◌, ◌<◌, ◌++◌, ◌∷◌, ◌&&◌, ◌-◌, ℕ, List, [], length, max, not};
ghost use Rattle.fp_ber.specs.Canon.{canon};
ghost use Rattle.fp_book.specs.Parcel.{octets_in};
ghost use Rattle.fp_counters.specs.Counted.{Counted, Increase};
ghost use Rattle.fp_counters.specs.Frames.{provider_frame, request_frame, sent_counts};
ghost use Rattle.fp_counters.specs.Steps.{step_counts, times};
ghost use Rattle.fp_frames.specs.Frame.{framed};
ghost use Rattle.fp_q773.specs.declared.provider_abort.AbortCause.{AbortCause};
ghost use Rattle.fp_q773.specs.ProviderAbort.{cause_code, provider_abort};
ghost use Rattle.fp_q773.specs.Tid.{IsTid};
ghost use Rattle.fp_reply.specs.Reply.{frame_of};
ghost use Rattle.fp_service.specs.declared.request.Request.{Request};

use crate::frames::SentFrame;
use crate::number_counts::NumberCounts;
use crate::sample::Sample;
use fp_book::{LoggedStep, Parcel, Status};
use fp_counters::{Counter, Counters, FrameCounts, Highest, frame_counts};
use fp_digits::Moment;
use fp_frames::Frame;
use fp_linkstate::Why;
use fp_metrics::{Gauges, LinkNumbers};
use std::alloc::{AllocError, Global};
use std::marker::Model;
use std::rt::Clock;
use std::sync::atomic::{AtomicU64, Ordering};
use std::sync::{Mutex, MutexGuard, Wait};
use std::time::Instant;

/// The number of octets of the length before a message.
const OCTETS_OF_A_HEAD: usize = 4;

/// The value of `ticked_at` before the first tick.
const NEVER: u64 = u64::MAX;

/// The number of sent messages after which their counts are noted, for those who read them while others are sent.
const MESSAGES_OF_A_NOTE: u64 = 16;

/// The number of milliseconds in a second.
const MILLISECONDS_OF_A_SECOND: u64 = 1_000;

/// The numbers of a link's lines.
#[derive(Clone, Copy)]
struct LineNumbers {
    counters: Counters,
    // How many lines left the book.
    lines: u64,
    most_lines: Highest,
}

/// The counts of a link's lines as they leave its book.
#[derive(Drop)]
pub struct StepCounts {
    numbers: LineNumbers,
}

/// Contracts see the counters of the steps.
impl Model for StepCounts {
    ghost use Rattle.fp_counters.specs.declared.counters.Counters.{Counters};

    ghost Value = { Counters };

    ghost view = { λ steps. steps.numbers.counters };
}

impl StepCounts {
    /// Counters of 0.
    fn new() -> StepCounts
        ensures { Counted result [] }
    {
        StepCounts {
            numbers: LineNumbers {
                counters: Counters::new(),
                lines: 0,
                most_lines: Highest::new(),
            },
        }
    }

    /// Counts the step of a line that left the book.
    pub fn count(&mut self, step: &LoggedStep)
        ensures { (events : List Increase) → Counted self.old events
            → Counted self.new (step_counts step.now ++ events) }
    {
        self.numbers.counters.count_step(step);
    }

    /// Notes that `count` lines left the book, and that the device took `written` of all lines.
    fn note_lines(&mut self, count: u64, written: u64)
        ensures { self.new ≡ self.old }
    {
        self.numbers.lines = self.numbers.lines.saturating_add(count);
        let waiting = self.numbers.lines.saturating_sub(written);
        self.numbers.most_lines.note(waiting);
    }
}

/// The state of a link, and the counts of its rare events.
#[derive(Clone, Copy)]
struct LinkState {
    counters: Counters,
    is_up: bool,
    // In seconds since 1970.
    up_since: u64,
    dialogues: u64,
    most_dialogues: Highest,
    most_places: Highest,
}

impl LinkState {
    /// Notes a status of the link's book. A link never goes up again, so a status from before its end doesn't say that
    /// it is up.
    fn note(&mut self, status: Status)
        ensures { self.new ≡ record self.old {
          is_up = self.old.is_up && not status.is_down;
          dialogues = status.dialogues;
          most_dialogues = max self.old.most_dialogues status.dialogues;
          most_places = max self.old.most_places status.places;
        } }
    {
        self.is_up = self.is_up && !status.is_down;
        self.dialogues = status.dialogues as u64;
        self.most_dialogues.note(status.dialogues as u64);
        self.most_places.note(status.places as u64);
    }
}

/// The current values of a link, and its maxima. The device took `written` of its lines.
fn gauges_of(steps: &LineNumbers, state: &LinkState, written: u64) -> Gauges
    ensures { result ≡ record {
      is_up = state.now.is_up;
      up_since = state.now.up_since;
      dialogues = state.now.dialogues;
      most_dialogues = state.now.most_dialogues;
      most_places = state.now.most_places;
      lines = steps.now.lines - written;
      most_lines = steps.now.most_lines;
    } }
{
    Gauges {
        is_up: state.is_up,
        up_since: state.up_since,
        dialogues: state.dialogues,
        most_dialogues: state.most_dialogues.number(),
        most_places: state.most_places.number(),
        lines: steps.lines.saturating_sub(written),
        most_lines: steps.most_lines.number(),
    }
}

/// The counts of a link's messages as they are sent.
#[derive(Drop)]
pub struct SentCounts {
    counters: Counters,
    // How many messages aren't noted yet.
    left: u64,
}

/// Contracts see the counters of the messages.
impl Model for SentCounts {
    ghost use Rattle.fp_counters.specs.declared.counters.Counters.{Counters};

    ghost Value = { Counters };

    ghost view = { λ sent. sent.counters };
}

impl SentCounts {
    /// Counters of 0.
    fn new() -> SentCounts
        ensures { Counted result [] }
    {
        SentCounts {
            counters: Counters::new(),
            left: 0,
        }
    }

    /// Counts a parcel that is sent, and returns its counts.
    fn count(&mut self, parcel: &Parcel) -> FrameCounts
        ensures counted { (events : List Increase) → Counted self.old events
            → Counted self.new (sent_counts result ++ events) }
        ensures request { (request : Request) (local : ℕ) (peer : List ℕ) → IsTid peer
            → length (octets_in parcel.now) < 65536
            → octets_in parcel.now ≡ frame_of request local peer → result ≡ request_frame request }
        ensures abort { (cause : AbortCause) (peer : List ℕ) → length (octets_in parcel.now) < 65536
            → octets_in parcel.now ≡ framed (canon (provider_abort peer (cause_code cause)))
            → result ≡ provider_frame cause }
    {
        let frame = frame_counts(parcel.octets());
        self.counters.count_frame(&frame);
        frame
    }
}

/// The counters of a link: of the lines that left its book, of the messages that were sent, of its rare events, and of
/// its written lines.
fn counters_of(steps: &Counters, sent: &Counters, state: &Counters, written: u64) -> Counters
    ensures { (of_steps of_sent of_state : List Increase) → Counted steps.now of_steps → Counted sent.now of_sent
        → Counted state.now of_state
        → Counted result (times Counter.LinesWritten written ∷ ((of_steps ++ of_sent) ++ of_state)) }
{
    let mut counters = *steps;
    counters.merge(sent);
    counters.merge(state);
    counters.add(Counter::LinesWritten, written);
    counters
}

/// The counters of a link. Its threads share them with those who read them.
#[derive(Drop)]
pub struct LinkMetrics {
    steps: Mutex<StepCounts>,
    // The counts of the thread that sends. It has the lock for a whole series of parcels, also while it waits for the
    // socket.
    sending: Mutex<SentCounts>,
    // The counts of the sending thread, as they were noted last. This lock is taken after the one of `sending`; a
    // thread that takes it first only tries that one.
    sent: Mutex<Counters>,
    state: Mutex<LinkState>,
    // The time of its clock's last tick, in milliseconds since the run began.
    ticked_at: AtomicU64,
    sample: Sample,
    // The counters of each called number, if the run counts numbers.
    numbers: Option<NumberCounts>,
}

impl LinkMetrics {
    /// Counters of 0, also for each called number if the run counts numbers, for a link that isn't up.
    pub fn new(alloc: Global, counts_numbers: bool) -> Result<LinkMetrics, AllocError> {
        let numbers = if counts_numbers {
            Some(NumberCounts::new(alloc)?)
        } else {
            None
        };
        Ok(LinkMetrics {
            steps: Mutex::new(StepCounts::new()),
            sending: Mutex::new(SentCounts::new()),
            sent: Mutex::new(Counters::new()),
            state: Mutex::new(LinkState {
                counters: Counters::new(),
                is_up: false,
                up_since: 0,
                dialogues: 0,
                most_dialogues: Highest::new(),
                most_places: Highest::new(),
            }),
            ticked_at: AtomicU64::new(NEVER),
            sample: Sample::new(),
            numbers,
        })
    }

    /// Locks the counts of the lines, for the thread that took a portion of lines out of the book.
    pub fn steps<R: Wait>(&self, rt: &R) -> MutexGuard<'_, StepCounts> {
        self.steps.lock(rt)
    }

    /// Locks the counts of the messages, for the thread that sends a series of parcels.
    pub fn sending<R: Wait>(&self, rt: &R) -> MutexGuard<'_, SentCounts> {
        self.sending.lock(rt)
    }

    /// The counters of each called number. `None` if the run doesn't count numbers.
    pub fn number_counts(&self) -> Option<&NumberCounts> {
        self.numbers.as_ref()
    }

    /// Notes that the link is up since this moment. Its clock counts as having ticked then, at this time of the run, in
    /// milliseconds.
    pub fn note_up<R: Wait>(&self, rt: &R, moment: Moment, time: u64) {
        let mut state = self.state.lock(rt);
        state.is_up = true;
        state.up_since = moment.milliseconds() / MILLISECONDS_OF_A_SECOND;
        self.ticked_at.store(time, Ordering::SeqCst);
    }

    /// Notes a tick of the link's clock at this time of the run, in milliseconds.
    pub fn note_tick(&self, time: u64) {
        self.ticked_at.store(time, Ordering::SeqCst);
    }

    /// Notes that `count` lines left the book, and that the device took `written` of all lines.
    pub fn note_lines<R: Wait>(&self, rt: &R, count: usize, written: u64) {
        let count = u64::try_from(count).unwrap_or(u64::MAX);
        self.steps.lock(rt).note_lines(count, written);
    }

    /// Notes the status of the link's book.
    pub fn note_status<R: Wait>(&self, rt: &R, status: Status) {
        self.state.lock(rt).note(status);
    }

    /// Counts the end of the link, for this reason.
    pub fn count_end<R: Wait>(&self, rt: &R, why: Why) {
        self.state.lock(rt).counters.count_end(why);
    }

    /// Counts a message that is held back.
    pub fn count_held_back<R: Wait>(&self, rt: &R) {
        self.state.lock(rt).counters.count(Counter::HeldBack);
    }

    /// Notes the counts after a series of `count` parcels for those who read them, once at least 16 messages aren't
    /// noted.
    pub fn note_sent<R: Wait>(&self, rt: &R, counts: &mut SentCounts, count: u64)
        ensures { counts.new ≡ counts.old }
    {
        counts.left = counts.left.saturating_add(count);
        if counts.left >= MESSAGES_OF_A_NOTE {
            counts.left = 0;
            *self.sent.lock(rt) = counts.counters;
        }
    }

    /// The counts of the messages that were sent: all of them, or, while a thread sends, the last ones noted. They
    /// never decrease.
    fn sent_counters<R: Wait>(&self, rt: &R) -> Counters {
        let mut sent = self.sent.lock(rt);
        if let Some(counts) = self.sending.try_lock() {
            *sent = counts.counters;
        }
        *sent
    }

    /// Counts a parcel that is sent, before its line is in the book of the link: its message and its components, also
    /// for the called number of its dialogue, if the run counts numbers.
    pub fn count_parcel<R: Wait>(&self, rt: &R, counts: &mut SentCounts, parcel: &Parcel)
        ensures request { (request : Request) (local : ℕ) (peer : List ℕ) (events : List Increase) → IsTid peer
            → length (octets_in parcel.now) < 65536
            → octets_in parcel.now ≡ frame_of request local peer → Counted counts.old events
            → Counted counts.new (sent_counts (request_frame request) ++ events) }
        ensures abort { (cause : AbortCause) (peer : List ℕ) (events : List Increase)
            → length (octets_in parcel.now) < 65536
            → octets_in parcel.now ≡ framed (canon (provider_abort peer (cause_code cause)))
            → Counted counts.old events → Counted counts.new (sent_counts (provider_frame cause) ++ events) }
    {
        let frame = counts.count(parcel);
        if let (Some(numbers), Some(local)) = (&self.numbers, parcel.dialogue()) {
            numbers.note_sent(rt, SentFrame::new(local, frame));
        }
    }

    /// Awaits the answer to a message that was just read, to measure its time, if the message is a Begin and no other
    /// answer is awaited. Returns whether it does.
    pub fn open_sample<R: Wait + Clock>(&self, rt: &R, message: &Frame) -> bool {
        self.sample.open(rt, message)
    }

    /// When the message was read that this parcel answers, if its answer is awaited. Then it is awaited no longer.
    pub fn close_sample<R: Wait + Clock>(&self, rt: &R, parcel: &Parcel) -> Option<Instant> {
        if !self.sample.is_open() {
            return None;
        }
        let message = parcel.octets().get(OCTETS_OF_A_HEAD..).unwrap_or_default();
        self.sample.close(rt, message)
    }

    /// The time of the run at the last tick of the link's clock, in milliseconds. `None` if the link isn't up.
    pub fn tick_time<R: Wait>(&self, rt: &R) -> Option<u64> {
        let is_up = self.state.lock(rt).is_up;
        if is_up {
            Some(self.ticked_at.load(Ordering::SeqCst))
        } else {
            None
        }
    }

    /// The counters and current values of the link, with the number `link`. The device took `written` of its lines.
    pub fn numbers<R: Wait>(&self, rt: &R, link: u8, written: u64) -> LinkNumbers
        ensures { result.link ≡ link }
    {
        let steps = self.steps.lock(rt).numbers;
        let sent = self.sent_counters(rt);
        let state = *self.state.lock(rt);
        LinkNumbers {
            link,
            gauges: gauges_of(&steps, &state, written),
            counters: counters_of(&steps.counters, &sent, &state.counters, written),
        }
    }
}
