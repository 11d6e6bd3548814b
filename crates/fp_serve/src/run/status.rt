//! The status of the links of a run.

use crate::run::commands::Notice;
use crate::run::report::NOTHING;
use crossbeam_channel::Sender;
use fp_book::Status;
use fp_watch::{LinkStatus, Peer};
use std::alloc::{AllocError, Global};
use std::sync::atomic::{AtomicBool, Ordering};
use std::sync::{Mutex, Wait};

/// The status of the links of a run, for the thread that follows the commands.
#[derive(Drop)]
pub(crate) struct Statuses {
    // Whether the thread of the links runs.
    have_begun: AtomicBool,
    // Whether all links are down.
    are_down: AtomicBool,
    // The links that were accepted, in their order, in room for all.
    links: Mutex<Vec<LinkStatus>>,
    // The number of links for which there is room.
    most: usize,
}

impl Statuses {
    /// No link yet, and room for this number of links. Their thread doesn't run yet.
    pub(crate) fn new(alloc: Global, links: u8) -> Result<Statuses, AllocError> {
        let most = usize::from(links);
        Ok(Statuses {
            have_begun: AtomicBool::new(false),
            are_down: AtomicBool::new(false),
            links: Mutex::new(Vec::with_capacity(alloc, most)?),
            most,
        })
    }

    /// Notes that the thread of the links runs.
    pub(crate) fn begin(&self) {
        self.have_begun.store(true, Ordering::SeqCst);
    }

    /// Whether the thread of the links runs.
    pub(crate) fn have_begun(&self) -> bool {
        self.have_begun.load(Ordering::SeqCst)
    }

    /// Notes that all links are down. If the notice finds no place, the reader sees it without one.
    pub(crate) fn end<R: Wait>(&self, rt: &R, notices: &Sender<Notice>) {
        self.are_down.store(true, Ordering::SeqCst);
        let _ = notices.try_send(rt, Notice::LinksDown);
    }

    /// Whether all links are down.
    pub(crate) fn are_down(&self) -> bool {
        self.are_down.load(Ordering::SeqCst)
    }

    /// Adds the next link, of this peer.
    pub(crate) fn add<R: Wait>(&self, rt: &R, peer: Peer) {
        let status = Status {
            is_down: false,
            totals: NOTHING,
            dialogues: 0,
            places: 0,
        };
        // There is room for all links.
        let _ = self.links.lock(rt).push(LinkStatus { peer, status });
    }

    /// The peer of the link in this place, which was accepted.
    pub(crate) fn peer<R: Wait>(&self, rt: &R, place: u8) -> Option<Peer> {
        let links = self.links.lock(rt);
        links.get(usize::from(place)).map(|known| known.peer)
    }

    /// Notes the status of the accepted link in this place. A link never goes up again, so a status from before its end
    /// is dropped.
    pub(crate) fn note<R: Wait>(&self, rt: &R, place: u8, status: Status) {
        if let Some(known) = self.links.lock(rt).get_mut(usize::from(place)) {
            if status.is_down || !known.status.is_down {
                known.status = status;
            }
        }
    }

    /// The links that were accepted, in their order. Room for them is allocated before the lock is taken.
    pub(crate) fn links<R: Wait>(
        &self,
        rt: &R,
        alloc: Global,
    ) -> Result<Vec<LinkStatus>, AllocError> {
        let mut links = Vec::with_capacity(alloc, self.most)?;
        links.extend_from_slice(self.links.lock(rt).as_slice())?;
        Ok(links)
    }
}
