//! The time from reading a message to writing its answer, for one message at a time.
//!
//! The receiving thread takes a Begin now and then, if none is open, with its originating transaction identifier and
//! the time of its read. The thread that sends a message to this identifier closes the sample, once that was written.
//! Rows, books and logs know nothing of it.

use fp_frames::Frame;
use fp_q773::{Kind, Tid, ids_of};
use std::rt::Clock;
use std::sync::atomic::{AtomicBool, Ordering};
use std::sync::{Mutex, Wait};
use std::time::{Duration, Instant};

/// How long an answer is awaited, in seconds. A Begin that has no answer by then may never get one, for example after
/// an Abort of its peer.
const MOST_SECONDS: u64 = 20;

/// A message whose answer is awaited.
#[derive(Clone, Copy)]
pub(crate) struct Asked {
    orig: Tid,
    read_at: Instant,
}

/// The message of a link whose answer is awaited, if one is.
#[derive(Drop)]
pub(crate) struct Sample {
    // Read by each thread that sends, without the lock.
    is_open: AtomicBool,
    asked: Mutex<Option<Asked>>,
}

impl Sample {
    /// A sample that awaits no answer.
    pub(crate) fn new() -> Sample {
        Sample {
            is_open: AtomicBool::new(false),
            asked: Mutex::new(None),
        }
    }

    /// Awaits the answer to a message that was just read, if it is a Begin and no other answer is awaited. Returns
    /// whether it does.
    pub(crate) fn open<R: Wait + Clock>(&self, rt: &R, message: &Frame) -> bool {
        let mut asked = self.asked.lock(rt);
        if let Some(open) = *asked {
            let most = Duration::from_secs(MOST_SECONDS);
            if open.read_at.elapsed(rt).unwrap_or(most) < most {
                return false;
            }
        }
        let ids = ids_of(message.octets());
        let (Kind::Begin, Some(orig), Ok(read_at)) = (ids.kind, ids.orig, Instant::now(rt)) else {
            return false;
        };
        *asked = Some(Asked { orig, read_at });
        self.is_open.store(true, Ordering::SeqCst);
        true
    }

    /// Whether an answer is awaited.
    pub(crate) fn is_open(&self) -> bool {
        self.is_open.load(Ordering::SeqCst)
    }

    /// The time when the sample's message was read, if this message answers it. Then the sample is closed. An answer
    /// that is too late isn't counted: it may answer another message with the same identifier.
    pub(crate) fn close<R: Wait + Clock>(&self, rt: &R, message: &[u8]) -> Option<Instant> {
        let mut asked = self.asked.lock(rt);
        let Asked { orig, read_at } = (*asked)?;
        if ids_of(message).dest != Some(orig) {
            return None;
        }
        *asked = None;
        self.is_open.store(false, Ordering::SeqCst);
        let most = Duration::from_secs(MOST_SECONDS);
        if read_at.elapsed(rt).unwrap_or(most) < most {
            Some(read_at)
        } else {
            None
        }
    }
}
