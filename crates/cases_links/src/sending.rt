//! The loop that writes a link. `gathered` has the cases of a writer that gathers octets before its device.
//!
//! A case has a book in which ABORTS Aborts of the provider wait, for the peer's identifiers 00000001, 00000002 and so
//! on: messages that began a dialogue were lost, since an allocation failed.
//!
//! | Case | What it gives |
//! |---|---|
//! | `send ABORTS TURNS MOST FAILING` | the calls that were made of the outlet, why the loop ended, what was written in how many writes, and how often the writer failed |
//! | `send-strange ABORTS TURNS` | the same where each report comes back |
//! | `send-faults ABORTS` | how many parcels were reported sent if the first write of one octet fails, the second, and so on up to the one after the last; each that fails is to end with `WriteFault`, one parcel reported unsent, and the octets before it written |
//!
//! The writer takes at most MOST octets a write. FAILING is the number of the write that fails, 0 for none, or
//! `none-at-` and the number of the write that takes no octet.

mod gathered;

use crate::devices::Pieces;
use crate::memory::{Call, Desk};
use bytes::Bytes;
use cases::{Answer, first_word, number_of};
use fp_book::{Book, Posted};
use fp_digits::Moment;
use fp_entry::Prepared;
use fp_frames::Frame;
use fp_linkio::{Counted, Ended, LinkWrite, send_loop};
use std::alloc::Global;

/// The octets of a Begin up to the peer's identifier.
const BEGIN: [u8; 4] = [0x62, 0x06, 0x48, 0x04];

/// More parcels than any case has.
const MANY: u64 = 1_000_000;

/// A Begin of the peer's identifier that was lost. `None` if memory runs out.
fn lost(alloc: Global, identifier: u32) -> Option<Prepared> {
    let [a, b, c, d] = identifier.to_be_bytes();
    let [e, f, g, h] = BEGIN;
    let message = Bytes::copy_from_slice(alloc, &[e, f, g, h, a, b, c, d]).ok()?;
    let frame = Frame::new(message)?;
    Some(Prepared::lost(frame, Moment::new(0)?))
}

/// Posts the lost Begin of an identifier, for which an Abort waits then.
fn post(alloc: Global, book: &mut Book, identifier: u32, out: &mut Answer) {
    let Some(lost) = lost(alloc, identifier) else {
        return out.run_out();
    };
    let Posted::Aborted(_) = book.post(alloc, lost) else {
        return out.fail("no Abort");
    };
}

/// An outlet in which this many Aborts wait. `None` if memory runs out, which is a fault of the answer.
fn desk(alloc: Global, aborts: u32, is_strange: bool, out: &mut Answer) -> Option<Desk> {
    let Ok(mut book) = Book::new(alloc, 0) else {
        out.run_out();
        return None;
    };
    for number in 0..aborts {
        post(alloc, &mut book, number.saturating_add(1), out);
    }
    Some(Desk {
        alloc,
        book,
        is_strange,
        calls: Vec::new(alloc),
        is_whole: true,
    })
}

/// A writer of pieces.
fn writer(alloc: Global, most: usize, failing: u32, takes_none: bool) -> Counted<Pieces> {
    Counted::new(Pieces {
        octets: Vec::new(alloc),
        most,
        failing,
        takes_none,
        flushes: true,
        made: 0,
    })
}

/// Writes a call of an outlet about a parcel.
fn push_parcel(out: &mut Answer, name: &str, local: u32, octets: &[u8]) {
    out.text(name);
    out.labeled(" ", local);
    out.text(" ");
    out.octets(octets);
}

/// Writes a call of an outlet.
fn push_call(out: &mut Answer, call: &Call) {
    match call {
        Call::Picked(local, octets) => push_parcel(out, "pick", *local, octets.as_slice()),
        Call::NoMore => out.text("no more"),
        Call::Sent(local, octets) => push_parcel(out, "sent", *local, octets.as_slice()),
        Call::Unsent(local, octets) => push_parcel(out, "unsent", *local, octets.as_slice()),
    }
}

/// Writes the calls that were made of an outlet, or `no call`.
fn push_calls(out: &mut Answer, calls: &[Call]) {
    for call in calls {
        out.separator(", ");
        push_call(out, call);
    }
    if calls.is_empty() {
        out.text("no call");
    }
}

/// Writes what a writer took, and how often it failed.
fn push_writer(out: &mut Answer, writer: &Counted<Pieces>) {
    out.octets(writer.device.octets.as_slice());
    let made = writer.device.made;
    out.labeled(" in ", made);
    out.labeled(" writes, ", writer.failed);
    out.text(" failed");
}

/// Writes a link, and to `out` the calls that were made of the outlet, and why the loop ended.
fn push_loop<W: LinkWrite>(desk: &mut Desk, turns: u64, writer: &mut W, out: &mut Answer) {
    let ended = send_loop(writer, turns, desk);
    if !desk.is_whole {
        out.run_out();
    }
    push_calls(out, desk.calls.as_slice());
    out.text(": ");
    out.shown(&ended);
    out.text("; ");
}

/// Writes a link, and to `out` what that gives.
fn push_sending(desk: &mut Desk, turns: u64, writer: &mut Counted<Pieces>, out: &mut Answer) {
    push_loop(desk, turns, writer, out);
    push_writer(out, writer)
}

/// The writer that fails, or takes none, at a write.
fn failing_writer(alloc: Global, most: usize, failing: &str, out: &mut Answer) -> Counted<Pieces> {
    match failing.strip_prefix("none-at-") {
        Some(number) => writer(alloc, most, number_of(number, out), true),
        None => writer(alloc, most, number_of(failing, out), false),
    }
}

/// What writing a link gives, with a writer that fails or takes none once.
fn send(alloc: Global, text: &str, out: &mut Answer) {
    let (aborts, text) = first_word(text);
    let (turns, text) = first_word(text);
    let (most, failing) = first_word(text);
    let turns: u64 = number_of(turns, out);
    let most: usize = number_of(most, out);
    let aborts: u32 = number_of(aborts, out);
    let mut writer = failing_writer(alloc, most, failing, out);
    if let Some(mut desk) = desk(alloc, aborts, false, out) {
        push_sending(&mut desk, turns, &mut writer, out);
    }
}

/// What writing a link gives if each report comes back.
fn send_strange(alloc: Global, text: &str, out: &mut Answer) {
    let (aborts, turns) = first_word(text);
    let turns: u64 = number_of(turns, out);
    let aborts: u32 = number_of(aborts, out);
    let mut writer = writer(alloc, 65_536, 0, false);
    if let Some(mut desk) = desk(alloc, aborts, true, out) {
        push_sending(&mut desk, turns, &mut writer, out);
    }
}

/// How many parcels were reported sent, and how many unsent.
fn reports(calls: &[Call]) -> (u32, u32) {
    let mut sent: u32 = 0;
    let mut unsent: u32 = 0;
    for call in calls {
        match call {
            Call::Sent(_, _) => sent = sent.saturating_add(1),
            Call::Unsent(_, _) => unsent = unsent.saturating_add(1),
            Call::Picked(_, _) => {}
            Call::NoMore => {}
        }
    }
    (sent, unsent)
}

/// Writes a link with this many Aborts to a device that takes one octet a write.
fn write_whole(alloc: Global, aborts: u32, writer: &mut Counted<Pieces>, out: &mut Answer) {
    let Some(mut desk) = desk(alloc, aborts, false, out) else {
        return;
    };
    let ended = send_loop(writer, MANY, &mut desk);
    if ended != Ended::EndOfInput {
        out.fail("the whole isn't written");
    }
}

/// The octets that are written of this many Aborts.
fn whole(alloc: Global, aborts: u32, out: &mut Answer) -> Vec<u8> {
    let mut writer = writer(alloc, 1, 0, false);
    write_whole(alloc, aborts, &mut writer, out);
    writer.device.octets
}

/// How writing a link ended.
#[derive(Clone, Copy)]
struct Outcome {
    ended: Ended,
    unsent: u32,
    made: u32,
    failed: u64,
}

impl Outcome {
    /// Whether this is the outcome of a write that fails.
    fn is_fault(self, failing: u32) -> bool {
        self.ended == Ended::WriteFault
            && self.failed == 1
            && self.unsent == 1
            && self.made == failing
    }

    /// Whether this is the outcome of writes of which none fails.
    fn is_end(self) -> bool {
        self.ended == Ended::EndOfInput && self.failed == 0 && self.unsent == 0
    }

    /// Whether the octets that were written are a front of all, and this is the outcome of that front.
    fn is_of(self, written: &[u8], octets: &[u8], failing: u32) -> bool {
        if written.len() < octets.len() {
            octets.starts_with(written) && self.is_fault(failing)
        } else {
            octets == written && self.is_end()
        }
    }
}

/// Writes how many parcels were reported sent by the loop that ended so, if this write fails.
fn push_sent(
    desk: &Desk,
    writer: &Counted<Pieces>,
    ended: Ended,
    failing: u32,
    octets: &[u8],
    out: &mut Answer,
) {
    let (sent, unsent) = reports(desk.calls.as_slice());
    let outcome = Outcome {
        ended,
        unsent,
        made: writer.device.made,
        failed: writer.failed,
    };
    if !outcome.is_of(writer.device.octets.as_slice(), octets, failing) {
        return out.labeled(", wrong at write ", failing);
    }
    out.value(sent);
}

/// Writes how many parcels were reported sent if this write of one octet fails.
fn push_failing(alloc: Global, aborts: u32, failing: u32, octets: &[u8], out: &mut Answer) {
    let mut writer = writer(alloc, 1, failing, false);
    let Some(mut desk) = desk(alloc, aborts, false, out) else {
        return;
    };
    let ended = send_loop(&mut writer, MANY, &mut desk);
    push_sent(&desk, &writer, ended, failing, octets, out)
}

/// Writes how many parcels were reported sent if each write fails in turn.
fn push_faults(alloc: Global, aborts: u32, octets: &[u8], out: &mut Answer) {
    let mut failing: u32 = 0;
    for _ in 0..=octets.len() {
        failing = failing.saturating_add(1);
        push_failing(alloc, aborts, failing, octets, out);
    }
}

/// How many parcels were reported sent if each write fails in turn.
fn faults(alloc: Global, text: &str, out: &mut Answer) {
    let aborts: u32 = number_of(text, out);
    let octets = whole(alloc, aborts, out);
    push_faults(alloc, aborts, octets.as_slice(), out)
}

/// Writes what a case of this module gives, and says whether it has one of this kind.
pub(crate) fn answer(alloc: Global, kind: &str, rest: &str, out: &mut Answer) -> bool {
    match kind {
        "send" => send(alloc, rest, out),
        "send-strange" => send_strange(alloc, rest, out),
        "send-faults" => faults(alloc, rest, out),
        "gathered" => gathered::send(alloc, rest, out),
        "gathered-faults" => gathered::faults(alloc, rest, out),
        "gathered-writes" => gathered::writes(alloc, rest, out),
        _ => return false,
    }
    true
}
