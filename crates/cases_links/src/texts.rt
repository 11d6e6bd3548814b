//! Words of steps, and words of answers; frames, logs and reports as text.

use cases::{Answer, identifier_of};
use fp_digits::Moment;
use fp_frames::Frame;
use fp_q773::Tid;

/// 2024-05-06T12:00:00Z, in milliseconds since 1970-01-01T00:00:00Z.
pub(crate) const NOON: u64 = 1_714_996_800_000;

/// The moment this number of milliseconds after noon.
pub(crate) fn moment_after(milliseconds: u32) -> Moment {
    Moment::new(NOON + u64::from(milliseconds)).unwrap()
}

/// The peer's transaction identifier of these one to four octets. Any other word is a fault of the answer.
pub(crate) fn peer_of(text: &str, out: &mut Answer) -> Tid {
    let number = identifier_of(text, out);
    let octets = number.to_be_bytes();
    let unused = 4_usize.saturating_sub(text.len() / 2);
    match Tid::new(octets.get(unused..).unwrap_or(&[])) {
        Some(peer) => peer,
        None => {
            out.fail("no identifier of one to four octets");
            Tid::of_number(number)
        }
    }
}

/// The name that a word is, which is one letter. Any other word is a fault of the answer.
pub(crate) fn name_of(text: &str, out: &mut Answer) -> u8 {
    match text.as_bytes() {
        [letter] => *letter,
        _ => {
            out.fail("no name of one letter");
            0
        }
    }
}

/// Writes a local transaction identifier, or `none`.
pub(crate) fn push_local(out: &mut Answer, local: Option<u32>) {
    match local {
        Some(local) => out.identifier(local),
        None => out.text("none"),
    }
}

/// Writes the identifiers of a dialogue, this side's first, and its birth.
pub(crate) fn push_dialogue(out: &mut Answer, local: u32, peer: Tid, birth: u64) {
    out.identifier(local);
    out.text(" ");
    out.octets(peer.as_slice());
    out.text(" birth ");
    out.value(birth);
}

/// Writes a message after others, with a comma between them.
pub(crate) fn push_message(out: &mut Answer, octets: &[u8]) {
    out.separator(", ");
    out.octets(octets);
}

/// Writes words after others, with a comma between them.
pub(crate) fn push_listed(out: &mut Answer, words: &str) {
    out.separator(", ");
    out.text(words);
}

/// Writes the messages of frames, or `no frame`, where nothing was written before.
pub(crate) fn push_frames(out: &mut Answer, frames: &[Frame]) {
    for frame in frames {
        push_message(out, frame.octets());
    }
    if frames.is_empty() {
        out.text("no frame");
    }
}

/// Writes a log or a report, with a bar for each line feed.
pub(crate) fn push_barred(out: &mut Answer, octets: &[u8]) {
    for octet in octets {
        out.character(if *octet == b'\n' {
            '|'
        } else {
            char::from(*octet)
        });
    }
}
