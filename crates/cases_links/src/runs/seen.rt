//! What was seen of a dialogue: its turns, its requests and its frames.

use super::octets::{carries, is_test, rejected_by};
use fp_book::Given;

/// What was seen of a dialogue.
#[derive(Clone, Copy)]
pub(super) struct Seen {
    pub(super) local: u32,
    pub(super) is_out: bool,
    /// How many frames of it rejected something, after another such frame.
    pub(super) compared: u32,
    peer: u32,
    // How many entries the turn has that is out.
    count: u32,
    // How many entries its turns served.
    gave: u64,
    queued: u64,
    picked: u64,
    was_dropped: bool,
    // The invoke identifier that its last Reject is about, 0 before the first one.
    rejected: u8,
    // The moment at which a message last brought it an entry, in milliseconds.
    last: u64,
    // How many ticks found it silent for so long that it may be tested, and how many tests of it were picked.
    silent_ticks: u32,
    tests: u32,
}

/// For how many milliseconds nothing came to a dialogue that is tested.
const SILENCE: u64 = 120_000;

impl Seen {
    /// A dialogue that was opened at this moment.
    pub(super) fn opened(local: u32, peer: u32, moment: u64) -> Seen {
        Seen {
            local,
            is_out: false,
            compared: 0,
            peer,
            count: 0,
            gave: 0,
            queued: 0,
            picked: 0,
            was_dropped: false,
            rejected: 0,
            last: moment,
            silent_ticks: 0,
            tests: 0,
        }
    }

    /// A message brought it this number of entries.
    pub(super) fn accept(&mut self, entries: u32, moment: u64) {
        if entries > 0 {
            self.last = moment;
        }
    }

    /// A tick came.
    pub(super) fn tick(&mut self, moment: u64) {
        if moment.saturating_sub(self.last) >= SILENCE {
            self.silent_ticks = self.silent_ticks.saturating_add(1);
        }
    }

    /// A test of it is picked: there was a tick for each.
    fn test(&mut self) -> bool {
        self.tests = self.tests.saturating_add(1);
        self.tests <= self.silent_ticks
    }

    /// Its turn is taken.
    pub(super) fn take(&mut self, position: u64, count: u32) -> bool {
        let is_right = !self.is_out && position == self.gave && (1..=16).contains(&count);
        self.is_out = true;
        self.count = count;
        is_right
    }

    /// Its turn is put back.
    pub(super) fn put_back(&mut self) -> bool {
        let is_right = self.is_out;
        self.is_out = false;
        is_right
    }

    /// What becomes of the requests of a turn of which this number of entries was served.
    fn request(&mut self, served: u32, given: Given, is_down: bool) -> bool {
        match given {
            Given::Silent => true,
            Given::Queued(count) => {
                self.queued = self.queued.saturating_add(u64::from(count));
                !is_down && !self.was_dropped && (1..=served).contains(&count)
            }
            Given::Dropped(count) => {
                self.was_dropped = true;
                (1..=served).contains(&count)
            }
        }
    }

    /// Its turn is given.
    pub(super) fn give(&mut self, position: u64, served: u32, given: Given, is_down: bool) -> bool {
        let is_right = self.is_out && position == self.gave && (1..=self.count).contains(&served);
        self.is_out = false;
        self.gave = self.gave.saturating_add(u64::from(served));
        self.request(served, given, is_down) && is_right
    }

    /// The invoke identifier that its frame rejects is above those before.
    fn reject(&mut self, number: Option<u8>) -> bool {
        let Some(number) = number else {
            return true;
        };
        let is_right = number > self.rejected;
        if self.rejected > 0 {
            self.compared = self.compared.saturating_add(1);
        }
        self.rejected = number;
        is_right
    }

    /// Its frame is picked.
    pub(super) fn pick(&mut self, frame: &[u8]) -> bool {
        self.picked = self.picked.saturating_add(1);
        let is_right = self.picked <= self.queued && carries(frame, self.local, self.peer);
        let may_be = !is_test(frame) || self.test();
        self.reject(rejected_by(frame)) && is_right && may_be
    }
}
