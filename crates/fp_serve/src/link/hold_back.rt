//! How long the messages of a network are held back.
//!
//! TCP doesn't hold a transfer point back: it keeps the messages that it can't send, without bound. So a message is
//! held back for a fifth of a second after it was read, and is posted then, whether there is room or not.

use fp_tally::time_since;
use std::rt::Clock;
use std::time::{Duration, Instant};

/// How long a message is held back, in milliseconds.
const MILLISECONDS: u64 = 200;

/// How long the messages of a read are held back. Once a message has waited in vain, the ones after it have waited as
/// long: they aren't held back either, until one finds room.
#[derive(Clone, Copy)]
pub(crate) struct HoldBack {
    // When the messages were read. `None` if the clock gives no time; then no message waits.
    read_at: Option<Instant>,
    // Whether the next messages are of a new read.
    pub(crate) is_new_read: bool,
    // Whether the first message is to be posted, room or not.
    pub(crate) is_over: bool,
    // How many messages were posted without room.
    pub(crate) late: u64,
}

impl HoldBack {
    /// The state before the first read.
    pub(crate) fn new() -> HoldBack {
        HoldBack {
            read_at: None,
            is_new_read: true,
            is_over: false,
            late: 0,
        }
    }

    /// Begins the posts of the messages that were read.
    pub(crate) fn begin<R: Clock>(&mut self, rt: &R) {
        if self.is_new_read {
            self.is_new_read = false;
            self.read_at = Instant::now(rt).ok();
        }
    }

    /// How much longer the first message is held back.
    pub(crate) fn left<R: Clock>(&self, rt: &R) -> Duration {
        if self.is_over {
            return Duration::ZERO;
        }
        let most = Duration::from_millis(MILLISECONDS);
        match time_since(rt, self.read_at) {
            Some(since) => most.saturating_sub(since),
            None => Duration::ZERO,
        }
    }
}
