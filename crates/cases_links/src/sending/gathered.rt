//! A writer that gathers octets before its device.
//!
//! | Case | What it gives |
//! |---|---|
//! | `gathered ABORTS TURNS MOST FAILING` | what `send` gives with it, and whether a flush after the loop hands on all; before the flush, and after it, what the device has, in how many writes, and how often it failed |
//! | `gathered-faults ABORTS` | how many flushes failed if the first write of one octet fails, the second, and so on up to the one after the last; each is to leave the octets before that write at the device, and the next one to hand on those after them |
//! | `gathered-writes MOST FAILING COUNT ..` | how many of COUNT octets a write took, and how many octets the device has then, for each write; and the same of a flush, in how many writes, and how often the device failed |
//!
//! FAILING is also `flush`: the device itself can't be flushed.

use super::{MANY, desk, failing_writer, push_loop, push_writer, whole, writer};
use crate::devices::Pieces;
use crate::memory::Desk;
use cases::{Answer, first_word, number_of};
use fp_linkio::{Counted, Ended, Gathered, Gathering, LinkWrite, send_loop};
use std::alloc::{AllocError, Global};

/// More octets than any case writes.
const MOST_WRITTEN: usize = 100_000;

/// How many octets there are before the first one comes again.
const OCTETS_OF_A_ROUND: u8 = 251;

/// A writer that gathers before this device, from nothing on. `None` if memory runs out, which is a fault of the
/// answer.
fn gathering(
    alloc: Global,
    device: Counted<Pieces>,
    out: &mut Answer,
) -> Option<Gathering<Counted<Pieces>>> {
    match Gathered::new(alloc) {
        Ok(gathered) => Some(Gathering { device, gathered }),
        Err(_) => {
            out.run_out();
            None
        }
    }
}

/// A device that fails, or takes none, at a write, or can't be flushed.
fn failing_device(alloc: Global, most: usize, failing: &str, out: &mut Answer) -> Counted<Pieces> {
    if failing != "flush" {
        return failing_writer(alloc, most, failing, out);
    }
    let mut device = writer(alloc, most, 0, false);
    device.device.flushes = false;
    device
}

/// Flushes a writer, and writes whether that handed on all.
fn push_flush(writer: &mut Gathering<Counted<Pieces>>, out: &mut Answer) {
    out.either(writer.flush().is_ok(), "; flushed: ", "; not flushed: ");
}

/// Writes a link, and a flush after that.
fn push_send(
    desk: &mut Desk,
    turns: u64,
    writer: &mut Gathering<Counted<Pieces>>,
    out: &mut Answer,
) {
    push_loop(desk, turns, writer, out);
    push_writer(out, &writer.device);
    push_flush(writer, out);
    push_writer(out, &writer.device);
}

/// What writing a link gives, and a flush after that.
pub(super) fn send(alloc: Global, text: &str, out: &mut Answer) {
    let (aborts, text) = first_word(text);
    let (turns, text) = first_word(text);
    let (most, failing) = first_word(text);
    let turns: u64 = number_of(turns, out);
    let most: usize = number_of(most, out);
    let aborts: u32 = number_of(aborts, out);
    let device = failing_device(alloc, most, failing, out);
    let Some(mut writer) = gathering(alloc, device, out) else {
        return;
    };
    if let Some(mut desk) = desk(alloc, aborts, false, out) {
        push_send(&mut desk, turns, &mut writer, out);
    }
}

/// Whether a writer hands on all by a second flush at the latest, if its device takes one octet a write and fails after
/// this number of writes; and whether the first flush handed on all. The device must have this number of octets after
/// the first flush.
fn flush_twice(
    writer: &mut Gathering<Counted<Pieces>>,
    octets: &[u8],
    before: usize,
) -> (bool, bool) {
    let is_flushed = writer.flush().is_ok();
    let given = writer.device.device.octets.as_slice();
    let is_front = octets.starts_with(given) && given.len() == before;
    let is_flushed_then = writer.flush().is_ok();
    let given = writer.device.device.octets.as_slice();
    (is_front && is_flushed_then && given == octets, is_flushed)
}

/// Writes a link whose device takes one octet a write, and fails after this number of writes. Returns whether the first
/// flush then handed on all.
fn is_flushed(alloc: Global, aborts: u32, octets: &[u8], before: u32, out: &mut Answer) -> bool {
    let device = writer(alloc, 1, before.saturating_add(1), false);
    let Some(mut writer) = gathering(alloc, device, out) else {
        return false;
    };
    let Some(mut desk) = desk(alloc, aborts, false, out) else {
        return false;
    };
    let ended = send_loop(&mut writer, MANY, &mut desk);
    let is_gathered = ended == Ended::EndOfInput && writer.device.device.made == 0;
    let (is_right, is_flushed) = flush_twice(&mut writer, octets, before as usize);
    if !is_gathered || !is_right {
        out.labeled("wrong after ", before);
        out.text(", ");
    }
    is_flushed
}

/// Writes how many flushes failed if each write fails in turn.
fn push_faults(alloc: Global, aborts: u32, octets: &[u8], out: &mut Answer) {
    let mut failed: u32 = 0;
    let mut before: u32 = 0;
    for _ in 0..=octets.len() {
        if !is_flushed(alloc, aborts, octets, before, out) {
            failed = failed.saturating_add(1);
        }
        before = before.saturating_add(1);
    }
    out.value(failed);
    out.text(" failed");
}

/// How many flushes failed if each write fails in turn.
pub(super) fn faults(alloc: Global, text: &str, out: &mut Answer) {
    let aborts: u32 = number_of(text, out);
    let octets = whole(alloc, aborts, out);
    push_faults(alloc, aborts, octets.as_slice(), out)
}

/// Appends octets in rounds of 251, so that one that is missing, or comes twice, shows.
fn push_rounds(octets: &mut Vec<u8>) -> Result<(), AllocError> {
    let mut next: u8 = 0;
    for _ in 0..MOST_WRITTEN {
        octets.push(next)?;
        next = next.saturating_add(1);
        if next >= OCTETS_OF_A_ROUND {
            next = 0;
        }
    }
    Ok(())
}

/// Makes one write of octets, and writes how many it took; returns that.
fn push_write(writer: &mut Gathering<Counted<Pieces>>, octets: &[u8], out: &mut Answer) -> usize {
    let Ok(count) = writer.write(octets) else {
        out.text("fault");
        return 0;
    };
    out.value(count);
    out.text(" taken");
    count
}

/// Writes how many octets the device has. Fails unless they are the first of these.
fn push_count(writer: &Gathering<Counted<Pieces>>, octets: &[u8], out: &mut Answer) {
    let given = writer.device.device.octets.as_slice();
    if !octets.starts_with(given) {
        out.text("other octets, ");
    }
    out.value(given.len());
    out.text(" there");
}

/// Makes a write of as many octets as each of these numbers says, of those that weren't taken yet, and writes what came
/// of it.
fn push_writes(
    writer: &mut Gathering<Counted<Pieces>>,
    octets: &[u8],
    counts: &str,
    out: &mut Answer,
) {
    let mut taken: usize = 0;
    for count in counts.split(' ') {
        let count: usize = number_of(count, out);
        let Some(piece) = octets.get(taken..taken.saturating_add(count)) else {
            return out.fail("too many octets");
        };
        out.separator("; ");
        let more = push_write(writer, piece, out);
        taken = taken.saturating_add(more);
        out.text(", ");
        push_count(writer, octets, out);
    }
}

/// Makes writes of octets, and a flush, and writes what came of each.
fn push_all(
    writer: &mut Gathering<Counted<Pieces>>,
    octets: &[u8],
    counts: &str,
    out: &mut Answer,
) {
    push_writes(writer, octets, counts, out);
    push_flush(writer, out);
    push_count(writer, octets, out);
    let made = writer.device.device.made;
    out.labeled(" in ", made);
    out.labeled(" writes, ", writer.device.failed);
    out.text(" failed");
}

/// What came of writes of octets, and of a flush after them.
pub(super) fn writes(alloc: Global, text: &str, out: &mut Answer) {
    let (most, text) = first_word(text);
    let (failing, counts) = first_word(text);
    let most: usize = number_of(most, out);
    let device = failing_device(alloc, most, failing, out);
    let mut octets = Vec::new(alloc);
    out.note(push_rounds(&mut octets));
    if let Some(mut writer) = gathering(alloc, device, out) {
        push_all(&mut writer, octets.as_slice(), counts, out);
    }
}
