//! The counters of each called number, on a link.
//!
//! A number has a row, once it is called, if the records in use have it. So there are at most as many rows as a file of
//! records has numbers, and calls for others are counted in none. The number of a dialogue is kept by the serial in the
//! dialogue's local identifier, and stays there until another dialogue has that serial, at least 126,976 dialogues
//! later.

use crate::called::{called_number, key_of};
use crate::frames::SentFrame;
use fp_book::{LoggedStep, Posted};
use fp_counters::{Counter, Counters};
use fp_metrics::number_counters;
use fp_q773::{Kind, ids_of};
use fp_records::Table;
use fp_tids::LocalIds;
use std::alloc::{AllocError, Global};
use std::collections::BTreeMap;

/// The most numbers with a row on a link: as many as a file of records may have.
const MOST_ROWS: usize = 100_000;

/// The number of counters with a place in each row: those that most calls count.
const PLACES: usize = 12;

/// No row: calls for it are counted nowhere.
const NO_ROW: u32 = u32::MAX;

/// The place of a counter in each row. `None` if it has none, since few numbers count it.
fn place_of(counter: Counter) -> Option<usize> {
    match counter {
        Counter::Opened => Some(0),
        Counter::EndedByPeer => Some(1),
        Counter::SentContinue => Some(2),
        Counter::SentEnd => Some(3),
        Counter::SentUserAbort => Some(4),
        Counter::Connect => Some(5),
        Counter::ReleaseNoRoute => Some(6),
        Counter::ReleaseBusy => Some(7),
        Counter::ReleaseNoAnswer => Some(8),
        Counter::ReleaseRejected => Some(9),
        Counter::RequestReport => Some(10),
        Counter::ContinueOperation => Some(11),
        _ => None,
    }
}

/// The key of a counter without a place, among those of all rows.
fn rare_key(row: u32, counter: Counter) -> u64 {
    (u64::from(row) << 8) | u64::try_from(counter.place()).unwrap_or(0)
}

/// The place of the dialogue with this local identifier among those whose numbers are known.
fn serial_place(local: u32) -> usize {
    usize::try_from(local.wrapping_sub(1) % LocalIds::SERIALS).unwrap_or(usize::MAX)
}

/// The local identifier of the dialogue that this accepted End or Abort ends. `None` if the message is neither.
fn dialogue_ended_by(message: &[u8]) -> Option<u32> {
    let ids = ids_of(message);
    match ids.kind {
        Kind::End | Kind::Abort => ids.dest?.number(),
        _ => None,
    }
}

/// The counters of each called number of a link.
#[derive(Drop)]
pub(crate) struct NumberRows {
    // The row of each number that has one, by its key.
    rows: BTreeMap<u64, u32>,
    counts: Vec<[u64; PLACES]>,
    // The counters that few numbers count.
    rare: BTreeMap<u64, u64>,
    // The row of each dialogue's number, by its serial.
    dialogues: Vec<u32>,
}

impl NumberRows {
    /// Counters of 0 for all numbers.
    pub(crate) fn new(alloc: Global) -> Result<NumberRows, AllocError> {
        let serials = usize::try_from(LocalIds::SERIALS).unwrap_or(0);
        let mut dialogues = Vec::with_capacity(alloc, serials)?;
        for _ in 0..serials {
            dialogues.push(NO_ROW)?;
        }
        Ok(NumberRows {
            rows: BTreeMap::new(alloc),
            counts: Vec::new(alloc),
            rare: BTreeMap::new(alloc),
            dialogues,
        })
    }

    /// Adds a row for a number of this key. `None` if memory runs out, or there are too many.
    fn add_row(&mut self, key: u64) -> Option<u32> {
        let count = self.counts.len();
        if count >= MOST_ROWS {
            return None;
        }
        let row = u32::try_from(count).ok()?;
        self.counts.push([0; PLACES]).ok()?;
        if self.rows.insert(key, row).is_err() {
            let _ = self.counts.pop();
            return None;
        }
        Some(row)
    }

    /// The row of the number that a Begin calls. A new one is added if this table has the number.
    fn row_of(&mut self, alloc: Global, table: &Table, begin: &[u8]) -> Option<u32> {
        let called = called_number(alloc, begin)?;
        let key = key_of(called.digits.as_slice())?;
        if let Some(row) = self.rows.get(&key) {
            return Some(*row);
        }
        table.find(&called)?;
        self.add_row(key)
    }

    /// Raises a counter in a row. If memory runs out, it isn't raised.
    fn count_in(&mut self, row: u32, counter: Counter) {
        if row == NO_ROW {
            return;
        }
        let Some(place) = place_of(counter) else {
            let key = rare_key(row, counter);
            let before = self.rare.get(&key).copied().unwrap_or(0);
            let _ = self.rare.insert(key, before.saturating_add(1));
            return;
        };
        if let Some(counts) = self
            .counts
            .get_mut(usize::try_from(row).unwrap_or(usize::MAX))
        {
            if let Some(number) = counts.get_mut(place) {
                *number = number.saturating_add(1);
            }
        }
    }

    /// Raises a counter of the number of the dialogue with this local identifier.
    fn count_for(&mut self, local: u32, counter: Counter) {
        if let Some(row) = self.dialogues.get(serial_place(local)).copied() {
            self.count_in(row, counter);
        }
    }

    /// Counts a Begin that opened the dialogue of this local identifier.
    fn count_opened(&mut self, alloc: Global, table: &Table, local: u32, begin: &[u8]) {
        let row = self.row_of(alloc, table, begin).unwrap_or(NO_ROW);
        if let Some(known) = self.dialogues.get_mut(serial_place(local)) {
            *known = row;
        }
        self.count_in(row, Counter::Opened);
    }

    /// Forgets the numbers of all dialogues: after a gap they aren't known.
    fn forget_dialogues(&mut self) {
        for row in self.dialogues.iter_mut() {
            *row = NO_ROW;
        }
    }

    /// Counts a line, by the records of this table.
    pub(crate) fn count_step(&mut self, alloc: Global, table: &Table, step: &LoggedStep) {
        match step {
            LoggedStep::Post {
                message,
                answer: Posted::Opened(local),
                ..
            } => self.count_opened(alloc, table, *local, message.octets()),
            LoggedStep::Post {
                message,
                answer: Posted::Accepted(_),
                ..
            } => {
                if let Some(local) = dialogue_ended_by(message.octets()) {
                    self.count_for(local, Counter::EndedByPeer);
                }
            }
            LoggedStep::Gap { .. } => self.forget_dialogues(),
            _ => {}
        }
    }

    /// Counts a frame that was sent, after the line of the Begin that opened its dialogue.
    pub(crate) fn count_sent(&mut self, frame: &SentFrame) {
        for counter in frame.counters().iter().flatten() {
            self.count_for(frame.local(), *counter);
        }
    }

    /// The number of a counter in a row.
    fn number(&self, row: u32, counter: Counter) -> u64 {
        let Some(place) = place_of(counter) else {
            return self.rare.get(&rare_key(row, counter)).copied().unwrap_or(0);
        };
        match self.counts.get(usize::try_from(row).unwrap_or(usize::MAX)) {
            Some(counts) => counts.get(place).copied().unwrap_or(0),
            None => 0,
        }
    }

    /// Adds the counters of the number with this key to other counters.
    pub(crate) fn add_to(&self, key: u64, counters: &mut Counters) {
        let Some(row) = self.rows.get(&key).copied() else {
            return;
        };
        let all = number_counters();
        for counter in &all {
            counters.add(*counter, self.number(row, *counter));
        }
        // An End and an Abort by the user end their dialogue.
        counters.add(Counter::EndedByService, self.number(row, Counter::SentEnd));
        counters.add(
            Counter::EndedByService,
            self.number(row, Counter::SentUserAbort),
        );
    }
}
