//! The lines of a link that wait for the thread that writes the log.

use fp_book::{Line, Log};
use fp_logtext::{MadeText, UnwrittenText, WaitingLines};
use std::alloc::{AllocError, Global};
use std::sync::atomic::{AtomicU64, Ordering};
use std::sync::{Mutex, Wait};

/// Lines that left the book of a link.
#[derive(Drop)]
pub(crate) struct Moved {
    // The lines of the present move. They stay here if memory runs out.
    pub(crate) moved: Vec<Line>,
    // An empty log between two calls, for an exchange with the log of the book.
    pub(crate) exchanged: Log,
    pub(crate) waiting: WaitingLines,
}

impl Moved {
    /// No lines, with room for the most that may wait.
    fn new(alloc: Global) -> Result<Moved, AllocError> {
        Ok(Moved {
            moved: Vec::with_capacity(alloc, WaitingLines::MOST_AT_ONCE)?,
            exchanged: Log::new(alloc)?,
            waiting: WaitingLines::new(alloc)?,
        })
    }
}

/// The lines of a link that wait for the thread that writes the log, in the order of its steps.
///
/// The receiving thread of the link makes the text of its lines after each post. The clock makes the text of lines that
/// have waited for a second, or of many at once. So the writing thread, the only one of the run, only has to write; it
/// takes all text at once. Lines whose text is made leave the book by an exchange of two lists. If the book is filling,
/// any thread that serves calls moves lines to those that wait; their text is made first then. Of these threads only
/// the receiving one makes text. No lock is held while the device of the log is written, and the lock for moving lines
/// isn't held while text is made; the lock of the link is taken under both. If the device takes nothing for long, or
/// memory runs out, lines stay here, and then in the book of the link. The book counts lines that find no place in a
/// gap. Each gap is reported as an event.
#[derive(Drop)]
pub struct LinkLog {
    // The text; this lock is taken before the lock of the waiting lines.
    pub(crate) making: Mutex<MadeText>,
    pub(crate) waiting: Mutex<Moved>,
    // How many lines the device took.
    written: AtomicU64,
}

impl LinkLog {
    /// No lines yet.
    pub(crate) fn new(alloc: Global) -> Result<LinkLog, AllocError> {
        Ok(LinkLog {
            making: Mutex::new(MadeText::new(alloc)?),
            waiting: Mutex::new(Moved::new(alloc)?),
            written: AtomicU64::new(0),
        })
    }

    /// Whether the list of lines that wait for their text is filling up. `false` too, if a thread is moving lines now.
    pub(crate) fn is_filling(&self) -> bool {
        match self.waiting.try_lock() {
            Some(moved) => moved.waiting.is_filling(),
            None => false,
        }
    }

    /// Notes that the device took this number of lines.
    pub(crate) fn note_written(&self, lines: u64) {
        self.written.fetch_add(lines, Ordering::SeqCst);
    }

    /// How many lines the device took.
    pub fn written(&self) -> u64 {
        self.written.load(Ordering::SeqCst)
    }

    /// Hands all waiting text to the writing thread, once the device took all text that the thread has.
    pub(crate) fn take<R: Wait>(&self, rt: &R, text: &mut UnwrittenText) {
        text.take(&mut self.making.lock(rt));
    }
}
