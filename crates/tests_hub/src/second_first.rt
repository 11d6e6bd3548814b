//! A gate that lets the second dialogue go first.

use fp_hub::Gate;
use std::rt::Clock;
use std::sync::atomic::{AtomicBool, AtomicU64, Ordering};
use std::thread;
use std::time::Duration;

/// How many milliseconds a test waits for something, or how often it looks for it, once a millisecond.
pub(crate) const MOST_WAITS: u32 = 10_000;

/// The count of a gate ([`SecondFirst::seen`]) that the turn of its first dialogue and the turn of its second one have
/// passed once each, and no other turn has.
pub const EACH_ONCE: u64 = 0x11;

/// How the turn counts that is held.
const HELD: u64 = 0x1;

/// How any other turn counts than the turns of the two dialogues.
const OTHERS: u64 = 0x100;

/// A gate that holds the first turn of the first dialogue of a link until a mark says that the second dialogue was
/// answered, and counts the turns that pass.
#[derive(Drop)]
pub struct SecondFirst<'a, R: Clock> {
    rt: &'a R,
    link: u8,
    is_answered: &'a AtomicBool,
    // The turns that passed so far, each in four bits of its own.
    seen: AtomicU64,
    // Whether it gave up: the mark wasn't set in time.
    is_late: AtomicBool,
}

impl<'a, R: Clock> SecondFirst<'a, R> {
    /// A gate of this link, which no turn has reached. Whoever sees the answer of the second dialogue sets the mark.
    pub fn new(rt: &'a R, link: u8, is_answered: &'a AtomicBool) -> SecondFirst<'a, R> {
        SecondFirst {
            rt,
            link,
            is_answered,
            seen: AtomicU64::new(0),
            is_late: AtomicBool::new(false),
        }
    }

    /// How often each turn has passed: in the last four bits the first one of the first dialogue, in the four above
    /// them the first one of the second dialogue; above these eight bits all other turns, also of another link.
    pub fn seen(&self) -> u64 {
        self.seen.load(Ordering::SeqCst)
    }

    /// Whether the held turn went on without the mark, after ten seconds.
    pub fn is_late(&self) -> bool {
        self.is_late.load(Ordering::SeqCst)
    }
}

impl<R: Clock> Gate for SecondFirst<'_, R> {
    fn pass(&self, link: u8, birth: u64, position: u64) {
        let one: u64 = match (birth, position) {
            (1, 0) => HELD,
            (2, 0) => 0x10,
            _ => OTHERS,
        };
        let counted = if link == self.link { one } else { OTHERS };
        self.seen.fetch_add(counted, Ordering::SeqCst);
        if counted != HELD {
            return;
        }
        for _ in 0..MOST_WAITS {
            if self.is_answered.load(Ordering::SeqCst) {
                return;
            }
            thread::sleep(self.rt, Duration::from_millis(1));
        }
        self.is_late.store(true, Ordering::SeqCst);
    }
}
