//! The loop that reads a link.
//!
//! | Case | What it gives |
//! |---|---|
//! | `receive TURNS READ ..` | the messages that were handed on, and `end` where the inbox was told that those of a read end; why the loop ended, how many reads were made, and how often the reader failed |
//! | `receive-cuts HEX` | the messages of these octets, why the loop ended, and in how many ways of cutting them into up to three reads and one octet a read they are the same |
//! | `receive-faults HEX` | how many messages were handed on if the first read of one octet fails, the second, and so on up to the one after the last; each is to end with `ReadFault`, and the messages to be the first ones |
//! | `waits PIECE COUNT ..` | the messages and ends of reads, and why the loop ended, where each read is made only after COUNT frames were handed on |
//!
//! A READ is the octets that one read gives, `interrupted`, or `fault`. After the last one the input is at its end.

use crate::devices::{Octets, Reads, Waits};
use crate::memory::Frames;
use crate::texts::{push_frames, push_listed, push_message};
use cases::{Answer, first_word, number_of, octets_of};
use fp_frames::Frame;
use fp_linkio::{Counted, Ended, LinkRead, receive};
use std::alloc::Global;
use std::cell::Cell;

/// More reads than any case makes.
const MANY: u64 = 1_000_000;

/// An inbox that took nothing yet, and counts there.
fn inbox(alloc: Global, count: &Cell<u32>) -> Frames<'_> {
    Frames {
        frames: Vec::new(alloc),
        ends: Vec::new(alloc),
        is_whole: true,
        count,
    }
}

/// Reads a link into an inbox, and returns why the loop ended.
fn received<R: LinkRead>(
    alloc: Global,
    reader: &mut R,
    turns: u64,
    inbox: &mut Frames<'_>,
    out: &mut Answer,
) -> Ended {
    let ended = receive(alloc, reader, turns, inbox);
    if !inbox.is_whole {
        out.run_out();
    }
    ended
}

/// Writes `end` for each read whose frames ended after this number of frames.
fn push_ends(out: &mut Answer, ends: &[usize], count: usize) {
    for end in ends {
        if *end == count {
            push_listed(out, "end");
        }
    }
}

/// Writes the messages of frames, and where those of a read end, or `no frame`.
fn push_reads(out: &mut Answer, frames: &[Frame], ends: &[usize]) {
    for (place, frame) in frames.iter().enumerate() {
        push_ends(out, ends, place);
        push_message(out, frame.octets());
    }
    push_ends(out, ends, frames.len());
    if out.is_empty() {
        out.text("no frame");
    }
}

/// Reads a link, and writes the messages that were handed on, where those of a read ended, and why the loop ended.
fn push_received<R: LinkRead>(
    alloc: Global,
    reader: &mut R,
    turns: u64,
    count: &Cell<u32>,
    out: &mut Answer,
) {
    let mut inbox = inbox(alloc, count);
    let ended = received(alloc, reader, turns, &mut inbox, out);
    push_reads(out, inbox.frames.as_slice(), inbox.ends.as_slice());
    out.text(": ");
    out.shown(&ended);
}

/// What reading a link gives.
fn reads(alloc: Global, text: &str, out: &mut Answer) {
    let (turns, words) = first_word(text);
    let turns: u64 = number_of(turns, out);
    let mut reader = Counted::new(Reads {
        alloc,
        words,
        made: 0,
    });
    push_received(alloc, &mut reader, turns, &Cell::new(0), out);
    let made = reader.device.made;
    out.labeled(", ", made);
    out.labeled(" reads, ", reader.failed);
    out.text(" failed");
}

/// A reader of octets.
fn reader_of(octets: &[u8], most: usize, cuts: [usize; 2], failing: u32) -> Counted<Octets<'_>> {
    Counted::new(Octets {
        octets,
        given: 0,
        most,
        cuts,
        failing,
        made: 0,
    })
}

/// Writes the messages of octets that are read in pieces of at most `most` octets, also cut at two places.
fn push_cut(alloc: Global, octets: &[u8], most: usize, cuts: [usize; 2], out: &mut Answer) {
    let mut reader = reader_of(octets, most, cuts, 0);
    let count = Cell::new(0);
    let mut inbox = inbox(alloc, &count);
    let ended = received(alloc, &mut reader, MANY, &mut inbox, out);
    push_frames(out, inbox.frames.as_slice());
    out.text(": ");
    out.shown(&ended);
}

/// Whether octets that are cut at two places have these messages.
fn is_same(alloc: Global, octets: &[u8], cuts: [usize; 2], wanted: &Answer) -> bool {
    let mut given = Answer::new(alloc);
    push_cut(alloc, octets, octets.len(), cuts, &mut given);
    !given.is_faulty() && given.as_str() == wanted.as_str()
}

/// Writes these messages of octets, and in how many ways of cutting they are the same.
fn push_ways(alloc: Global, octets: &[u8], wanted: &Answer, out: &mut Answer) {
    let mut ways: u32 = 1;
    for second in 0..octets.len() {
        for first in 0..second {
            if !is_same(alloc, octets, [first, second], wanted) {
                out.labeled("other messages if cut at ", first);
                return out.labeled(" and ", second);
            }
            ways = ways.saturating_add(1);
        }
    }
    out.append(wanted);
    out.labeled(", ", ways);
    out.text(" ways");
}

/// Writes the messages of octets, however they are cut.
fn push_cuts(alloc: Global, octets: &[u8], out: &mut Answer) {
    let mut wanted = Answer::new(alloc);
    push_cut(alloc, octets, 1, [0, 0], &mut wanted);
    push_ways(alloc, octets, &wanted, out);
}

/// The messages of octets, however they are cut.
fn cuts(alloc: Global, text: &str, out: &mut Answer) {
    let octets = octets_of(alloc, text, out);
    push_cuts(alloc, octets.as_slice(), out)
}

/// Whether the first of these messages are those.
fn begin_with(all: &[Frame], front: &[Frame]) -> bool {
    for (one, other) in all.iter().zip(front) {
        if one.octets() != other.octets() {
            return false;
        }
    }
    front.len() <= all.len()
}

/// Writes how many messages were handed on by the loop that ended so, if this read fails. They must be the first of
/// all.
fn push_front(
    all: &[Frame],
    front: &[Frame],
    ended: Ended,
    failed: u64,
    failing: u32,
    out: &mut Answer,
) {
    if ended != Ended::ReadFault || failed != 1 || !begin_with(all, front) {
        return out.labeled(", wrong at read ", failing);
    }
    out.value(front.len());
}

/// Writes how many messages were handed on if this read of one octet fails.
fn push_failing(alloc: Global, octets: &[u8], failing: u32, all: &[Frame], out: &mut Answer) {
    let count = Cell::new(0);
    let mut inbox = inbox(alloc, &count);
    let mut reader = reader_of(octets, 1, [0, 0], failing);
    let ended = received(alloc, &mut reader, MANY, &mut inbox, out);
    push_front(
        all,
        inbox.frames.as_slice(),
        ended,
        reader.failed,
        failing,
        out,
    )
}

/// Writes how many messages were handed on if each read fails in turn.
fn push_faults(alloc: Global, octets: &[u8], all: &[Frame], out: &mut Answer) {
    let mut failing: u32 = 0;
    for _ in 0..=octets.len() {
        failing = failing.saturating_add(1);
        push_failing(alloc, octets, failing, all, out);
    }
}

/// Writes how many of the messages of octets were handed on if each read fails in turn.
fn push_all_faults(alloc: Global, octets: &[u8], out: &mut Answer) {
    let count = Cell::new(0);
    let mut inbox = inbox(alloc, &count);
    let mut reader = reader_of(octets, 1, [0, 0], 0);
    received(alloc, &mut reader, MANY, &mut inbox, out);
    push_faults(alloc, octets, inbox.frames.as_slice(), out)
}

/// How many messages were handed on if each read fails in turn.
fn faults(alloc: Global, text: &str, out: &mut Answer) {
    let octets = octets_of(alloc, text, out);
    push_all_faults(alloc, octets.as_slice(), out)
}

/// Why the loop ended, where each read waits for the frames before it.
fn waits(alloc: Global, words: &str, out: &mut Answer) {
    let count = Cell::new(0);
    let mut reader = Counted::new(Waits {
        alloc,
        words,
        wanted: 0,
        count: &count,
    });
    push_received(alloc, &mut reader, MANY, &count, out)
}

/// Writes what a case of this module gives, and says whether it has one of this kind.
pub(crate) fn answer(alloc: Global, kind: &str, rest: &str, out: &mut Answer) -> bool {
    match kind {
        "receive" => reads(alloc, rest, out),
        "receive-cuts" => cuts(alloc, rest, out),
        "receive-faults" => faults(alloc, rest, out),
        "waits" => waits(alloc, rest, out),
        _ => return false,
    }
    true
}
