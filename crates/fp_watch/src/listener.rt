//! The thread that answers requests for the state of a run, over HTTP.
//!
//! The thread waits for no single connection: each is read, answered and written as far as it goes, at most four
//! seconds without an answer. There are at most eight; one more takes the place of the oldest one.

use crate::page::Page;
use crate::visitor::Visitor;
use crate::{Metrics, RecentEvents, Watch, WatchedRun};
use fp_metrics::Pages;
use fp_tally::time_since;
use libc::net::{POLLIN, poll};
use libc::types::pollfd;
use std::alloc::{AllocError, Global};
use std::hash::RandomState;
use std::io::ErrorKind;
use std::net::TcpListener;
use std::os::fd::AsRawFd;
use std::rt::Clock;
use std::sync::{Arc, Wait};
use std::thread;
use std::time::{Duration, Instant};

/// The most connections.
const MOST_VISITORS: usize = 8;

/// The most descriptors that are waited for: the connections' and the listener's.
const MOST_DESCRIPTORS: usize = MOST_VISITORS + 1;

/// The longest wait of the thread before it looks whether the run is over, or a connection is late, in milliseconds.
const LOOK_MILLISECONDS: i32 = 200;

/// The pause of the thread after a connection couldn't be accepted, in milliseconds.
const MILLISECONDS_AFTER_A_FAULT: u64 = 20;

/// The least age of the numbers before they are read anew, in milliseconds.
const MILLISECONDS_OF_A_TEXT: u64 = 100;

/// The address for requests of a run's state.
#[derive(Drop)]
pub struct MetricsListener {
    /// The listener.
    pub listener: TcpListener,
    /// The keys of the maps of header fields, whose names clients choose.
    pub keys: RandomState,
    /// The last events of the run.
    pub recent: Arc<RecentEvents>,
}

/// The counters of a run, and the address for requests of them.
#[derive(Drop)]
pub struct Watched {
    /// The counters.
    pub metrics: Arc<Metrics>,
    /// The address for HTTP requests. `None` if only commands ask.
    pub listener: Option<MetricsListener>,
}

/// The last text of the numbers, and its time.
#[derive(Drop)]
struct LastText {
    text: String,
    made_at: Option<Instant>,
}

impl LastText {
    /// Makes the text anew, unless it is newer than a tenth of a second. If memory runs out, the last one stays.
    fn refresh<R: Wait + Clock, W: WatchedRun + Drop>(
        &mut self,
        rt: &R,
        alloc: Global,
        watch: &Watch<W>,
    ) {
        let least = Duration::from_millis(MILLISECONDS_OF_A_TEXT);
        if time_since(rt, self.made_at).unwrap_or(least) < least {
            return;
        }
        if let Ok(text) = watch.metrics.text(rt, alloc, &watch.run) {
            self.text = text;
            self.made_at = Instant::now(rt).ok();
        }
    }
}

/// The state of the thread that answers requests.
#[derive(Drop)]
pub struct Listening<W: WatchedRun + Drop> {
    alloc: Global,
    listener: TcpListener,
    keys: RandomState,
    watch: Watch<W>,
    // Room for eight connections.
    visitors: Vec<Option<Visitor>>,
    // How many connections were accepted.
    count: u64,
    last: LastText,
    page: Page,
}

/// An empty place for each connection that there may be.
fn places(alloc: Global) -> Result<Vec<Option<Visitor>>, AllocError> {
    let mut visitors = Vec::with_capacity(alloc, MOST_VISITORS)?;
    for _ in 0..MOST_VISITORS {
        visitors.push(None)?;
    }
    Ok(visitors)
}

impl<W: WatchedRun + Drop> Listening<W> {
    /// The state of the thread before its first connection. The listener must not block. If memory runs out, there is
    /// none.
    pub fn new(
        alloc: Global,
        place: MetricsListener,
        watch: Watch<W>,
    ) -> Result<Listening<W>, AllocError> {
        let MetricsListener {
            listener,
            keys,
            recent,
        } = place;
        let visitors = places(alloc)?;
        let page = Page::new(alloc, recent, watch.metrics.links().len())?;
        Ok(Listening {
            alloc,
            listener,
            keys,
            watch,
            visitors,
            count: 0,
            last: LastText {
                text: String::new(alloc),
                made_at: None,
            },
            page,
        })
    }

    /// Waits until a connection can be accepted, read or written; at most a fifth of a second.
    fn wait<R: Wait + Clock>(&self, rt: &R) {
        let listener = pollfd {
            fd: self.listener.as_raw_fd(),
            events: POLLIN,
            revents: 0,
        };
        let mut asked = [listener; MOST_DESCRIPTORS];
        let mut count = 1;
        for visitor in self.visitors.iter().flatten() {
            if let Some(place) = asked.get_mut(count) {
                *place = visitor.asked();
                count = count.saturating_add(1);
            }
        }
        let asked = asked.get_mut(..count).unwrap_or_default();
        if poll(asked, LOOK_MILLISECONDS) < 0 {
            let rest = Duration::from_millis(LOOK_MILLISECONDS.unsigned_abs().into());
            thread::sleep(rt, rest);
        }
    }

    /// Puts a connection in a free place, or, if there is none, in the place of the oldest one.
    fn admit(&mut self, visitor: Visitor) {
        let mut first = u64::MAX;
        let mut chosen = 0;
        for (place, other) in self.visitors.iter().enumerate() {
            let number = match other {
                Some(other) => other.number(),
                None => 0,
            };
            if number < first {
                first = number;
                chosen = place;
            }
        }
        if let Some(place) = self.visitors.get_mut(chosen) {
            *place = Some(visitor);
        }
    }

    /// Accepts a connection, if one waits. If there are eight, the oldest one is closed.
    fn accept<R: Wait + Clock>(&mut self, rt: &R) {
        let stream = match self.listener.accept() {
            Ok((stream, _)) => stream,
            Err(error) if error.kind() == ErrorKind::WouldBlock => return,
            Err(_) => {
                // The descriptor of a connection that can't be accepted stays ready.
                thread::sleep(rt, Duration::from_millis(MILLISECONDS_AFTER_A_FAULT));
                return;
            }
        };
        self.count = self.count.saturating_add(1);
        if let Some(visitor) = Visitor::new(rt, self.alloc, self.keys, stream, self.count) {
            self.admit(visitor);
        }
    }

    /// Moves each connection on, and closes those that are done or late.
    fn step<R: Wait + Clock>(&mut self, rt: &R) {
        if self.visitors.iter().all(|visitor| visitor.is_none()) {
            return;
        }
        self.last.refresh(rt, self.alloc, &self.watch);
        self.page.refresh(rt, &self.watch);
        let mut pages = Pages {
            page: self.page.text(),
            metrics: self.last.text.as_str(),
            health: self.watch.health(rt),
        };
        for place in self.visitors.iter_mut() {
            let goes_on = match place {
                Some(visitor) => visitor.step(rt, &mut pages) && !visitor.is_late(rt),
                None => true,
            };
            if !goes_on {
                *place = None;
            }
        }
    }

    /// Answers until the run is over ([`Metrics::end`]).
    pub fn answer<R: Wait + Clock>(&mut self, rt: &R) {
        for _ in rt.forever() {
            if self.watch.metrics.is_over() {
                break;
            }
            self.wait(rt);
            self.page.note(rt, &self.watch);
            self.accept(rt);
            self.step(rt);
        }
    }
}
