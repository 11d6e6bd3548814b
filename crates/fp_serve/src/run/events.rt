//! The events of a run, as lines on standard error: which links went up and down, which records were read again, and
//! whether the log is written. `fp_watch` has the events and their lines.
//!
//! Standard error may block, and no thread that reports an event waits for it: the event goes into a channel of bounded
//! length, and a thread of its own writes the events from there. If the run has a page, the event goes into the list of
//! the last ones, too.

use crate::run::ServeFault;
use crate::system::{System, start_thread};
use crossbeam_channel::{Receiver, Sender, bounded};
use fp_tally::now;
use fp_watch::{Event, RecentEvents, TimedEvent, Wanted};
use std::alloc::{AllocError, Global};
use std::io::Write;
use std::rt::Clock;
use std::sync::{Arc, Wait};
use std::time::Duration;

/// The most events that wait to be written. A further one is lost.
const MOST_EVENTS: usize = 1_024;

/// How long the end of a run waits for a place in a channel that is full, and for its last events to be written, in
/// seconds.
const PATIENCE_SECONDS: u64 = 1;

/// A message to the thread that writes events.
#[derive(Clone, Copy, Drop)]
enum Message {
    /// An event to write.
    Event(TimedEvent),
    /// The end: no event follows.
    End,
}

/// Writes events, each in one piece, until the end. An event that can't be written is left out.
fn write_events<R: Wait, E: Write>(
    rt: &R,
    alloc: Global,
    wanted: Wanted,
    messages: &Receiver<Message>,
    errors: &mut E,
) {
    for _ in rt.forever() {
        let Ok(Message::Event(event)) = messages.recv(rt) else {
            return;
        };
        if let Ok(line) = event.line(alloc, wanted) {
            let _ = errors.write_all(line.as_bytes());
        }
    }
}

/// The events on their way to the thread that writes them.
#[derive(Drop)]
struct EventQueue {
    wanted: Wanted,
    sender: Sender<Message>,
    // Disconnected once the thread has written all events. Nothing is sent through it.
    written: Receiver<()>,
}

/// The events of a run, which its threads share. Reporting one waits for no device and takes no memory: an event that
/// finds no place in the channel is lost, and the lock of the last events is held at most for a copy of 20.
#[derive(Drop)]
pub struct Events {
    // `None` if no events are to be written.
    queue: Option<Arc<EventQueue>>,
    // `None` if the run has no page with the last events.
    recent: Option<Arc<RecentEvents>>,
}

impl Events {
    /// No events are written or kept.
    pub fn none() -> Events {
        Events {
            queue: None,
            recent: None,
        }
    }

    /// Events that a thread of its own writes to `errors`. It isn't joined: the end of the program may cut it off.
    pub fn start<R: System + Copy + Send + 'static, E: Write + Send + Drop + 'static>(
        rt: &R,
        alloc: Global,
        wanted: Wanted,
        errors: E,
    ) -> Result<Events, ServeFault> {
        let (sender, messages) = bounded(alloc, MOST_EVENTS)?;
        let (ending, written) = bounded(alloc, 1)?;
        let queue = EventQueue {
            wanted,
            sender,
            written,
        };
        let queue = match Arc::new(alloc, queue) {
            Ok(queue) => queue,
            Err(fault) => return Err(AllocError::from(fault).into()),
        };
        let own = *rt;
        start_thread(rt, move || {
            let mut errors = errors;
            write_events(&own, alloc, wanted, &messages, &mut errors);
            drop::<Sender<()>>(ending);
        })?;
        Ok(Events {
            queue: Some(queue),
            recent: None,
        })
    }

    /// The same events, with the last ones kept in `recent`, too.
    pub fn kept_in(mut self, recent: Arc<RecentEvents>) -> Events {
        self.recent = Some(recent);
        self
    }

    /// Another share of the events, for a thread that goes on by itself.
    pub fn share(&self) -> Result<Events, AllocError> {
        let queue = match &self.queue {
            Some(queue) => Some(Arc::try_clone(queue)?),
            None => None,
        };
        let recent = match &self.recent {
            Some(recent) => Some(Arc::try_clone(recent)?),
            None => None,
        };
        Ok(Events { queue, recent })
    }

    /// Keeps an event, if the run has a page with the last ones.
    fn keep<R: Wait>(&self, rt: &R, timed: &TimedEvent) {
        match &self.recent {
            Some(recent) => recent.keep(rt, *timed),
            None => {}
        }
    }

    /// Sends an event to be written, if it is asked for. It is lost if 1,024 wait.
    fn send<R: Wait>(&self, rt: &R, timed: &TimedEvent) {
        let Some(queue) = &self.queue else {
            return;
        };
        if !queue.wanted.includes(&timed.event) {
            return;
        }
        let _ = queue.sender.try_send(rt, Message::Event(*timed));
    }

    /// Reports an event. It isn't written if 1,024 wait.
    pub fn report<R: Wait + Clock>(&self, rt: &R, event: Event) {
        if self.queue.is_none() && self.recent.is_none() {
            return;
        }
        let moment = now(rt);
        let timed = TimedEvent { moment, event };
        self.keep(rt, &timed);
        self.send(rt, &timed);
    }

    /// Ends the events. Waits until all were written, at most a second, or two if 1,024 wait.
    pub fn finish<R: Wait + Clock>(&self, rt: &R) {
        let Some(queue) = &self.queue else {
            return;
        };
        let patience = Duration::from_secs(PATIENCE_SECONDS);
        if queue
            .sender
            .send_timeout(rt, Message::End, patience)
            .is_ok()
        {
            let _ = queue.written.recv_timeout(rt, patience);
        }
    }
}
