//! Hints to workers that there may be a turn to take.

use crossbeam_channel::{Receiver, Sender, unbounded};
use std::alloc::{AllocError, Global};
use std::sync::atomic::{AtomicBool, AtomicUsize, Ordering};
use std::sync::{Mutex, Wait};

/// A worker's end of the hint channel.
#[derive(Drop)]
pub struct Hints {
    receiver: Receiver<()>,
}

impl Hints {
    /// Waits for a hint, and takes it, as [`worker`](crate::worker) does before it takes turns. `false` if the hub is
    /// closed and no hint waits.
    pub fn wait<R: Wait>(&self, rt: &R) -> bool {
        self.receiver.recv(rt).is_ok()
    }
}

/// The hint channel of a link.
#[derive(Drop)]
pub(crate) struct HintChannel {
    // Whether hints are still sent.
    is_open: AtomicBool,
    // `None` if the channel is closed. The lock is held while hints are counted and one is added, so that no two of
    // them are added for one place.
    sender: Mutex<Option<Sender<()>>>,
    // An end that nobody waits on: the workers' ends are copied from it, and it keeps the channel open for hints while
    // no worker has an end.
    receiver: Receiver<()>,
    // How many ends were given to workers.
    workers: AtomicUsize,
}

impl HintChannel {
    /// An open channel that no worker listens to yet.
    pub(crate) fn new(alloc: Global) -> Result<HintChannel, AllocError> {
        let (sender, receiver) = unbounded(alloc)?;
        Ok(HintChannel {
            is_open: AtomicBool::new(true),
            sender: Mutex::new(Some(sender)),
            receiver,
            workers: AtomicUsize::new(0),
        })
    }

    /// A further worker's end. From now on one more hint may wait.
    pub(crate) fn listen(&self) -> Result<Hints, AllocError> {
        let receiver = self.receiver.clone()?;
        self.workers.fetch_add(1, Ordering::SeqCst);
        Ok(Hints { receiver })
    }

    /// How many workers have an end, at least one. The same number of hints may wait.
    pub(crate) fn worker_count(&self) -> usize {
        self.workers.load(Ordering::SeqCst).max(1)
    }

    /// Whether the most hints that may wait do.
    fn is_full(&self) -> bool {
        self.receiver.len() >= self.worker_count()
    }

    /// Sends a hint, unless as many hints wait as there are workers. `false` if the channel is closed, or memory ran
    /// out.
    ///
    /// A waiting hint is as good as a new one: it says that there may be a turn, and no more. Each worker that takes it
    /// takes turns until none is ready, there is no place for a frame, or memory runs out (a sent frame or the next
    /// tick hints again). It does so after this call, so it finds every dialogue that was ready before the call. If as
    /// many hints wait as there are workers, each worker has yet to do so, and a further hint would wake nobody else.
    /// For example, with two workers and two waiting hints a third hint isn't sent. That needs no lock to be seen.
    pub(crate) fn hint<R: Wait>(&self, rt: &R) -> bool {
        if !self.is_open.load(Ordering::SeqCst) {
            return false;
        }
        if self.is_full() {
            return true;
        }
        match &*self.sender.lock(rt) {
            None => false,
            Some(sender) => self.is_full() || sender.try_send(rt, ()).is_ok(),
        }
    }

    /// Closes the channel: no hint is sent from now on. Waiting hints are still taken, and then each worker's wait
    /// ends.
    pub(crate) fn close<R: Wait>(&self, rt: &R) {
        self.is_open.store(false, Ordering::SeqCst);
        let _ = self.sender.lock(rt).take();
    }
}
