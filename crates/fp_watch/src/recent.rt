//! The last events of a run, for the readers of its page.

use crate::{Event, Peer, TimedEvent};
use fp_digits::Moment;
use std::alloc::{AllocError, Global};
use std::sync::atomic::{AtomicBool, Ordering};
use std::sync::{Arc, Mutex, Wait};

/// The most events of each list. One more takes the place of the oldest one.
const MOST_EVENTS: usize = 20;

/// The most links of a run.
const MOST_LINKS: usize = 8;

/// The state of a link after its last event.
#[derive(Clone, Copy)]
pub(crate) struct LinkSeen {
    /// The peer of the link.
    pub(crate) peer: Peer,
    /// When the link went up, or down if it is down.
    pub(crate) since: Moment,
}

/// The kept events of a run. They have no references, so that its threads may share them.
#[derive(Drop)]
struct Kept {
    // In room for all, the oldest one first. The network's events are in a list of their own: they may be many.
    events: Vec<TimedEvent>,
    network_events: Vec<TimedEvent>,
    // Each connected link, by its number.
    links: [Option<LinkSeen>; MOST_LINKS],
}

/// The last events of a run, its links by their events, and whether its log can be written.
#[derive(Drop)]
pub struct RecentEvents {
    kept: Mutex<Kept>,
    log_fails: AtomicBool,
}

/// The link of an event, if it went up or down, and its state then.
fn seen_after(links: &[Option<LinkSeen>], timed: &TimedEvent) -> Option<(usize, LinkSeen)> {
    let since = timed.moment;
    match timed.event {
        Event::Up { link, peer } => Some((usize::from(link), LinkSeen { peer, since })),
        Event::Down { link, .. } => {
            let place = usize::from(link);
            let before = (*links.get(place)?)?;
            let peer = before.peer;
            Some((place, LinkSeen { peer, since }))
        }
        _ => None,
    }
}

/// Adds an event to a list that has room for all, in place of the oldest one if 20 are there.
fn push<T: Copy>(events: &mut Vec<T>, event: T) {
    if events.len() >= MOST_EVENTS {
        events.remove(0);
    }
    let _ = events.push(event);
}

impl RecentEvents {
    /// No event yet.
    pub fn new(alloc: Global) -> Result<Arc<RecentEvents>, AllocError> {
        let recent = RecentEvents {
            kept: Mutex::new(Kept {
                events: Vec::with_capacity(alloc, MOST_EVENTS)?,
                network_events: Vec::with_capacity(alloc, MOST_EVENTS)?,
                links: [None; MOST_LINKS],
            }),
            log_fails: AtomicBool::new(false),
        };
        Ok(Arc::new(alloc, recent)?)
    }

    /// Keeps an event, in place of the oldest one of its list if 20 are there. Takes no memory, and holds the lock for
    /// the copy of an event.
    pub fn keep<R: Wait>(&self, rt: &R, timed: TimedEvent) {
        let event = timed.event;
        match event {
            Event::LogFails => self.log_fails.store(true, Ordering::SeqCst),
            Event::LogGoesOn => self.log_fails.store(false, Ordering::SeqCst),
            _ => {}
        }
        let mut kept = self.kept.lock(rt);
        if let Some((place, seen)) = seen_after(&kept.links, &timed) {
            if let Some(link) = kept.links.get_mut(place) {
                *link = Some(seen);
            }
        }
        match event {
            Event::Network(_) => push(&mut kept.network_events, timed),
            _ => push(&mut kept.events, timed),
        }
    }

    /// Whether the log can't be written.
    pub(crate) fn log_fails(&self) -> bool {
        self.log_fails.load(Ordering::SeqCst)
    }

    /// The state of the link of this number after its last event, if it was ever up.
    pub(crate) fn link<R: Wait>(&self, rt: &R, link: u8) -> Option<LinkSeen> {
        let kept = self.kept.lock(rt);
        *kept.links.get(usize::from(link))?
    }

    /// The last events, except the network's, the oldest one first. Takes no memory under the lock.
    pub(crate) fn events<R: Wait>(
        &self,
        rt: &R,
        alloc: Global,
    ) -> Result<Vec<TimedEvent>, AllocError> {
        let mut events = Vec::with_capacity(alloc, MOST_EVENTS)?;
        events.extend_from_slice(self.kept.lock(rt).events.as_slice())?;
        Ok(events)
    }

    /// The last events of the network, the oldest one first. Takes no memory under the lock.
    pub(crate) fn network_events<R: Wait>(
        &self,
        rt: &R,
        alloc: Global,
    ) -> Result<Vec<TimedEvent>, AllocError> {
        let mut events = Vec::with_capacity(alloc, MOST_EVENTS)?;
        events.extend_from_slice(self.kept.lock(rt).network_events.as_slice())?;
        Ok(events)
    }
}
