//! The records and the messages of the tests of a hub.
//!
//! Messages have names, which scripts use ([`named`]). Octets are written in hexadecimal digits, two for each. All
//! messages arrive at the same moment, [`NOON`].

use bytes::Bytes;
use fp_book::Posted;
use fp_digits::Moment;
use fp_entry::Prepared;
use fp_frames::Frame;
use fp_hub::{Hub, Seat};
use fp_records::Table;
use std::alloc::Global;
use std::collections::VecDeque;
use std::sync::Wait;
use std::sync::ledger::Ledger;

/// A records file: one number with one destination, and one with two.
pub const RECORDS: &str = "key,100,60
800123456,,1234567,00:00,24:00,1,route,302223344
800123457,,1234567,00:00,24:00,1,route,302223344,302223355
";

/// Noon of 6 May 2024, when all messages arrive, in milliseconds since 1970.
pub const NOON: u64 = 1_714_996_800_000;

/// A Begin without components: its dialogue is held.
const EMPTY_BEGIN: &str = "620648040000002C";

/// A Unidirectional: it is discarded.
const UNIDIRECTIONAL: &str = "6100";

/// A Continue to a dialogue that doesn't exist.
pub(crate) const STRANGE: &str = "650C48040000002A490400000009";

/// A Continue with one Reject to the first dialogue of link 0, which has nothing to do for it.
const REJECT: &str = "651648040000002C4904000000016C08A406020101830100";

/// An End that names no dialogue: it is malformed, and its sender gives no identifier to be answered under.
const BAD_END: &str = "6400";

/// The number of InitialDP in the message `calls`, each of which is answered.
pub(crate) const CALLS_COUNT: usize = 16;

/// A Begin for this number of InitialDP, which follow it.
const CALLS: &str = "6282025A48040000002A6C820250";

/// A Continue to the first dialogue of link 0 for 16 Rejects, which follow it.
const REJECTS: &str = "65818F48040000002C4904000000016C8180";

/// A Reject.
const ONE_REJECT: &str = "A406020101830100";

/// An InitialDP for the number with two destinations.
const CALL: &str = "A123020101020100301B80016482078310081032540783078313032143650785010A9C0103";

/// A malformed End to the second dialogue of link 0, which closes it: octets follow its end.
const END_OF_SECOND: &str = "64064904000000020000";

/// A malformed End to the third dialogue.
const END_OF_THIRD: &str = "64064904000000030000";

/// A malformed End to the fourth dialogue.
const END_OF_FOURTH: &str = "64064904000000040000";

/// A malformed End to the fifth dialogue.
const END_OF_FIFTH: &str = "64064904000000050000";

/// The messages of the same octets each time, by name.
const NAMED: [(&str, &str); 9] = [
    ("empty", EMPTY_BEGIN),
    ("unidirectional", UNIDIRECTIONAL),
    ("strange", STRANGE),
    ("reject", REJECT),
    ("bad-end", BAD_END),
    ("end-2", END_OF_SECOND),
    ("end-3", END_OF_THIRD),
    ("end-4", END_OF_FOURTH),
    ("end-5", END_OF_FIFTH),
];

/// The octets of the message of this name. `None`: `NAMED` has no such name.
fn octets_of(name: &str) -> Option<&'static str> {
    for (word, octets) in &NAMED {
        if *word == name {
            return Some(*octets);
        }
    }
    None
}

/// The frame of the message of this name: `empty`, `unidirectional`, `strange`, `reject`, `bad-end`, `end-2` to
/// `end-5`, `calls` or `rejects`. Other names are the hexadecimal digits of an identifier, from which [`begin`] makes a
/// frame. `None`: the name isn't a number, or out of memory.
pub fn named(alloc: Global, name: &str) -> Option<Frame> {
    if let Some(octets) = octets_of(name) {
        return frame_of(alloc, octets);
    }
    match name {
        "calls" => long_begin(alloc),
        "rejects" => with_components(alloc, REJECTS, ONE_REJECT),
        digits => begin(alloc, u32::from_str_radix(digits, 16).ok()?),
    }
}

/// The message of a frame that arrived at [`NOON`], prepared to be posted. `None`: there is no frame.
pub fn prepared(alloc: Global, table: &Table, frame: Option<Frame>) -> Option<Prepared> {
    let moment = Moment::new(NOON)?;
    Some(Prepared::read(alloc, table, &[], frame?, moment))
}

/// Puts the message of a frame that arrived at [`NOON`] at the end of a list. `false`: there is no frame, or out of
/// memory.
pub fn add_frame(
    alloc: Global,
    table: &Table,
    list: &mut VecDeque<Prepared>,
    frame: Option<Frame>,
) -> bool {
    match prepared(alloc, table, frame) {
        Some(message) => list.push_back(message).is_ok(),
        None => false,
    }
}

/// Posts the message of a frame that arrived at [`NOON`]: how it was taken. `None`: there is no frame.
pub fn post_frame<R: Wait, A: Ledger, B: Ledger, C: Ledger>(
    rt: &R,
    alloc: Global,
    hub: &Hub<A, B, C>,
    seat: &mut Seat<A, B, C>,
    table: &Table,
    frame: Option<Frame>,
) -> Option<Posted> {
    let came = prepared(alloc, table, frame)?;
    Some(hub.post(rt, alloc, seat, came))
}

/// The frame of the octets of these digits. `None`: the digits aren't octets, these aren't 1 to 4,096, or out of
/// memory.
pub(crate) fn frame_of(alloc: Global, text: &str) -> Option<Frame> {
    let octets = hex::decode(alloc, text).ok()?;
    Frame::new(Bytes::copy_from_slice(alloc, octets.as_slice()).ok()?)
}

/// The frame of a Begin with InitialDP from this originating transaction identifier, for the number with one
/// destination. `None`: out of memory.
pub fn begin(alloc: Global, identifier: u32) -> Option<Frame> {
    let text = format!(in alloc;
        "622D4804{identifier:08X}6C25A123020101020100301B80016482078310081032540683078313032143650785010A9C0103"
    );
    frame_of(alloc, text.ok()?.as_str())
}

/// The frame of these digits, and sixteen times the digits of a component after them. If memory runs out, octets are
/// missing at its end.
fn with_components(alloc: Global, front: &str, component: &str) -> Option<Frame> {
    let mut text = String::new(alloc);
    let _ = text.push_str(front);
    for _ in 0..CALLS_COUNT {
        let _ = text.push_str(component);
    }
    frame_of(alloc, text.as_str())
}

/// The frame of a Begin with [`CALLS_COUNT`] InitialDP, from the identifier 2A. `None`: out of memory.
pub(crate) fn long_begin(alloc: Global) -> Option<Frame> {
    with_components(alloc, CALLS, CALL)
}
