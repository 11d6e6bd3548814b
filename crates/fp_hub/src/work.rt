//! The turns that a worker has at hand, and the answer to a hold for them.

use fp_row::{Done, Turn};

/// A turn that a worker has, until it gives it back.
#[must_use]
#[derive(Debug)]
pub enum Work {
    /// A turn that wasn't served yet, or couldn't be for lack of memory.
    Unserved(Turn),
    /// A turn that was served.
    Served(Done),
}

impl Work {
    /// Gives up the turn. Its dialogue stays allocated permanently.
    pub fn abandon(self) {
        match self {
            Work::Unserved(turn) => turn.abandon(),
            Work::Served(done) => done.abandon(),
        }
    }
}

/// Why no more turns were taken in a hold.
#[derive(Clone, Copy, Debug, PartialEq, Eq)]
pub enum Stopped {
    /// The share of the worker was taken, or its list is full.
    Enough,
    /// No dialogue is ready.
    Nothing,
    /// All places for frames are held.
    NoRoom,
    /// An allocation failed.
    Memory,
}

/// The answer to a hold that took turns back and handed others out.
#[derive(Clone, Copy, Debug, PartialEq, Eq)]
pub struct Worked {
    /// Whether a frame was queued, so that you must wake the sending thread.
    pub is_queued: bool,
    /// Why no more turns were taken.
    pub stopped: Stopped,
    /// How many dialogues are still ready.
    pub ready_count: usize,
}
