//! Steps of a book that are made many times.

use super::texts::{letter_of, push_posted};
use crate::held::{push_parcel, served};
use crate::messages::prepared;
use crate::texts::moment_after;
use cases::Answer;
use fp_book::{Book, Given, Parcel, Picked, Posted, Taken};
use fp_records::Table;
use fp_row::Turn;
use std::alloc::Global;

/// The limit on turns and on parcels of a step.
const MOST: u32 = 100_000;

/// How many turns were given, how many entries were served, and how many frames then waited to be sent.
#[derive(Clone, Copy)]
pub(super) struct Served {
    turns: u64,
    served: u64,
    queued: u64,
}

/// No turns.
pub(super) const NONE: Served = Served {
    turns: 0,
    served: 0,
    queued: 0,
};

impl Served {
    /// Counts one more turn, how many of its entries were served, and what became of their requests.
    fn count(&mut self, served: usize, given: Given) {
        self.turns = self.turns.saturating_add(1);
        self.served = self.served.saturating_add(served as u64);
        if let Given::Queued(count) = given {
            self.queued = self.queued.saturating_add(u64::from(count));
        }
    }
}

/// Posts a message `count` times, each time a millisecond later, and writes the first answer and the last one.
pub(super) fn posts(
    alloc: Global,
    table: &Table,
    book: &mut Book,
    now: u32,
    count: u32,
    message: &str,
    out: &mut Answer,
) {
    let mut first = Posted::Discarded;
    let mut last = Posted::Discarded;
    for index in 0..count {
        let moment = moment_after(now.saturating_add(index));
        let Some(came) = prepared(alloc, table, moment, message, out) else {
            return;
        };
        last = book.post(alloc, came);
        if index == 0 {
            first = last;
        }
        if letter_of(first) != letter_of(last) {
            return out.fail("answers of two kinds");
        }
    }
    push_posts(out, count as usize, first, last);
}

/// Writes what several messages were answered.
pub(crate) fn push_posts(out: &mut Answer, count: usize, first: Posted, last: Posted) {
    out.value(count);
    out.text(" ");
    push_posted(out, first);
    out.text(" to ");
    push_posted(out, last)
}

/// Serves a turn and gives it back, and counts it.
fn give(alloc: Global, book: &mut Book, turn: Turn, all: &mut Served, out: &mut Answer) {
    let Some(done) = served(alloc, turn, out) else {
        return;
    };
    let count = done.served();
    match book.give(done) {
        Ok(given) => all.count(count, given),
        Err(done) => {
            done.abandon();
            out.fail("strange turn");
        }
    }
}

/// Takes, serves and gives turns until there is none.
pub(super) fn serve_all(alloc: Global, book: &mut Book, served: &mut Served, out: &mut Answer) {
    for _ in 0..MOST {
        match book.take() {
            Taken::Turn(turn) => give(alloc, book, turn, served, out),
            Taken::Nothing | Taken::NoRoom => return,
            Taken::Memory => return out.run_out(),
        }
    }
    out.fail("too many turns");
}

/// Writes how many turns were given, how many entries were served, and how many frames then waited.
pub(super) fn push_served(out: &mut Answer, all: Served) {
    out.value(all.turns);
    out.labeled(" turns, ", all.served);
    out.text(" served");
    out.labeled(", ", all.queued);
    out.text(" frames");
}

/// Posts a message `count` times, which is accepted, and serves all turns after each.
pub(super) fn rounds(
    alloc: Global,
    table: &Table,
    book: &mut Book,
    now: u32,
    count: u32,
    message: &str,
    out: &mut Answer,
) {
    let mut served = NONE;
    for _ in 0..count {
        let Some(came) = prepared(alloc, table, moment_after(now), message, out) else {
            return;
        };
        let Posted::Accepted(_) = book.post(alloc, came) else {
            return out.fail("not accepted");
        };
        serve_all(alloc, book, &mut served, out);
    }
    push_served(out, served);
}

/// Reports a parcel sent.
fn report(book: &mut Book, parcel: Parcel, out: &mut Answer) {
    if let Err(parcel) = book.sent(parcel) {
        parcel.abandon();
        out.fail("strange parcel");
    }
}

/// Picks parcels and reports them sent until there is none: how many. The last one is written to `last`.
fn send_each(book: &mut Book, last: &mut Answer) -> u32 {
    for count in 0..MOST {
        match book.pick() {
            Picked::Parcel(parcel) => {
                last.clear();
                push_parcel(last, &parcel);
                report(book, parcel, last);
            }
            Picked::Nothing => return count,
            Picked::Busy => {
                last.fail("busy");
                return count;
            }
        }
    }
    last.fail("too many parcels");
    MOST
}

/// Picks parcels and reports them sent until there is none, and writes how many, and the last one.
pub(super) fn send_all(alloc: Global, book: &mut Book, out: &mut Answer) {
    let mut last = Answer::new(alloc);
    last.text("none");
    out.value(send_each(book, &mut last));
    out.text(" parcels, last ");
    out.append(&last);
}

/// Posts a message, serves all turns and sends all parcels, `count` times, and writes what the last message was
/// answered.
pub(super) fn calls(
    alloc: Global,
    table: &Table,
    book: &mut Book,
    now: u32,
    count: u32,
    message: &str,
    out: &mut Answer,
) {
    let mut last = Posted::Discarded;
    let mut sent = Answer::new(alloc);
    for _ in 0..count {
        let Some(came) = prepared(alloc, table, moment_after(now), message, out) else {
            return;
        };
        last = book.post(alloc, came);
        let mut served = NONE;
        serve_all(alloc, book, &mut served, out);
        send_each(book, &mut sent);
    }
    if sent.is_faulty() {
        out.fail(sent.fault());
    }
    push_posted(out, last);
}
